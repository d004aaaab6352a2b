// The columns of the drawn places of a journal.

ghost use Rattle.std.specs.Prelude.{◌≡◌, ◌++◌, ◌≤◌, ◌<◌, ◌^◌, length, IfOk, OnOk};
ghost use Rattle.view_journal.specs.Columns as spec;
ghost use Rattle.view_journal.specs.Frame.{column_of};

use crate::frame::column_of;
use crate::walk::{State, Walk};
use crate::window::Window;
use report_read::{Deed, Event, Outcome};
use std::alloc::{AllocError as OutOfMemory, Global};

/// The column of an event.
#[derive(Clone, Copy)]
pub struct Column {
    pub place: u32,
    /// The left edge.
    pub x: u32,
    pub event: Event,
    /// What the strips show after the event.
    pub state: State,
    /// The file whose content is collected after the event.
    pub hashing: Option<u32>,
}

// A drawing has at most as many columns.
const MOST_COLUMNS: usize = 1000;

/// The columns of a journal's places that the windows show.
pub fn columns(
    alloc: Global,
    windows: &[Window],
    journal: &[Event],
) -> Result<Vec<Column>, OutOfMemory>
    requires { length journal.now < 2 ^ 32 }
    ensures is { IfOk result (λ v. v.items ≡ spec.columns_of windows.now journal.now) }
    ensures few { IfOk result (λ v. length v.items ≤ 1000) }
{
    let mut columns = Vec::new(alloc);
    let mut walk = Walk::new(alloc);
    let mut hashing = None;
    for (place, event) in journal.iter().enumerate() {
        walk.step(*event)?;
        hashing = hashing_after(event.deed, event.outcome, hashing);
        push_column(
            &mut columns,
            windows,
            place as u32,
            *event,
            walk.state(),
            hashing,
        )?;
    }
    columns.truncate(MOST_COLUMNS);
    Ok(columns)
}

fn push_column(
    columns: &mut Vec<Column>,
    windows: &[Window],
    place: u32,
    event: Event,
    state: State,
    hashing: Option<u32>,
) -> Result<(), OutOfMemory>
    ensures { OnOk result (columns.new.items ≡ columns.old.items
        ++ spec.column_at (column_of windows.now place) place event state hashing) }
{
    if let Some(x) = column_of(windows, place) {
        columns.push(Column {
            place,
            x,
            event,
            state,
            hashing,
        })?;
    }
    Ok(())
}

fn hashing_after(deed: Deed, outcome: Outcome, hashing: Option<u32>) -> Option<u32>
    ensures { result ≡ spec.hashing_after deed outcome hashing }
{
    match (deed, outcome) {
        (Deed::Take(file), Outcome::Begun) => Some(file),
        (Deed::CloseTake(file), Outcome::Begun) => Some(file),
        (Deed::Finish(_), _) => None,
        (Deed::CloseFinish(_), _) => None,
        _ => hashing,
    }
}
