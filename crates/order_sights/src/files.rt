// What a journal says of one of its files.

ghost use Rattle.std.specs.Prelude.{◌≡◌, ◌==◌, IfSome, true, false};
ghost use Rattle.inode_events.specs.Checks.{check_after};
ghost use Rattle.inode_events.specs.Files.{counted, dropped};
ghost use Rattle.inode_events.specs.NewestFirst.{newest_first};
ghost use Rattle.order_sights.specs.Files.{IsSeen, check_in, counted_as, drops};

use inode_events::{Deed, Event, How, Told};
use policy_rules::{Action, Func};

/// What a journal says of a file: how it is held, and its last check.
#[derive(Clone, Copy)]
pub struct FileSeen {
    /// How the file is held, if it is.
    pub how: Option<How>,
    /// The hook of its last check.
    pub func: Func,
    /// What the rules asked for then.
    pub action: Action,
}

// Whether the event drops the file.
fn drops(event: &Event, file: u64) -> bool
    ensures { result ≡ drops file (dropped event.now.deed event.now.told) }
{
    match (&event.deed, &event.told) {
        (
            Deed::Close { file: f } | Deed::CloseTake { file: f } | Deed::CloseFinish { file: f },
            Told::Dropped,
        )
        | (Deed::CloseFinish { file: f }, Told::LabelledDropped) => *f == file,
        _ => false,
    }
}

// How the file is held after the event at a place, which doesn't drop it.
fn how_after(event: &Event, place: u64, file: u64, old: Option<How>) -> Option<How>
    ensures { result ≡ counted_as (place == file) (counted event.now.deed event.now.told) old }
{
    match (&event.deed, &event.told) {
        (Deed::Count { how }, Told::Held) if place == file => Some(*how),
        _ => old,
    }
}

// What is known of the file after the event at a place, which doesn't drop it.
fn seen_after(event: &Event, place: u64, file: u64, old: FileSeen) -> FileSeen
    ensures how { result.how
        ≡ counted_as (place == file) (counted event.now.deed event.now.told) old.how }
    ensures check { check_in result ≡ check_after file event.now.deed (check_in old) }
{
    let how = how_after(event, place, file, old.how);
    match &event.deed {
        Deed::Check {
            file: f,
            func,
            action,
            ..
        } if *f == file => FileSeen {
            how,
            func: *func,
            action: *action,
        },
        _ => FileSeen {
            how,
            func: old.func,
            action: old.action,
        },
    }
}

/// What the journal says of the file. `None` if it has been dropped.
pub fn file_seen(journal: &[Event], file: u64) -> Option<FileSeen>
    ensures { IfSome result (IsSeen file (newest_first journal.now)) }
{
    let mut seen = FileSeen {
        how: None,
        func: Func::FileCheck,
        action: Action::none(),
    };
    for (place, event) in journal.iter().enumerate() {
        if drops(event, file) {
            return None;
        }
        seen = seen_after(event, place as u64, file, seen);
    }
    Some(seen)
}
