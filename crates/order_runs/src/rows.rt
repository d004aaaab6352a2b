//! The rows of a part.

ghost use Rattle.std.specs.Prelude.{◌≡◌, ℕ, suc, ◌+◌, ◌<◌, ◌≤◌, ◌^◌, [], ◌∷◌, ◌++◌, All, length, slice_get, IfErr, IfOk, IsSomeAnd, MatchOption, OnOk};
ghost use Rattle.order_outcomes.specs.counts.Layers.{joined};
ghost use Rattle.order_outcomes.specs.scripts.Limits.{most_turns};
ghost use Rattle.order_runs.specs.Steps.{HasNone, HasOutcome, IsAdvanced, IsRoot, IsRowAdded, IsStep, IsWayOf, counted_rows};
ghost use Rattle.order_runs.specs.Stops.{HasTooMany, IsCrowded, IsOverrun, counts_of};
ghost use Rattle.order_runs.specs.Tables.{IsTable};
ghost use Rattle.order_runs.specs.declared.part.Part.{Part};

use crate::part::Part;
use crate::ways::{Index, Way, root, spread};
use order_outcomes::counts::Counted;
use order_outcomes::outcome_of;
use std::alloc::{AllocError as OutOfMemory, Global};
use xattr_store::Bytes;

/// The most turns of an order, which are those of a schedule.
pub const MOST_TURNS: u32 = 1_048_576;

/// Why there are no rows.
#[derive(Clone, Copy)]
pub enum Stopped {
    /// There are more moments than may be met, more turns than a schedule may have, or more orders
    /// than 128 bits can count.
    TooMany,
    /// Memory ran out.
    OutOfMemory,
}

impl From<OutOfMemory> for Stopped {
    ghost use Rattle.order_runs.specs.declared.rows.Stopped.TheVariants as stopped;

    ghost from_gives = { λ _ why. why ≡ stopped.OutOfMemory };

    fn from(_error: OutOfMemory) -> Stopped {
        Stopped::OutOfMemory
    }
}

/// An outcome, with the number of the orders that have it and the first of them.
#[derive(Drop)]
pub struct Row {
    /// The first order, with the number of the orders.
    pub counted: Counted,
    /// The outcome.
    pub outcome: Bytes,
}

// The place of the row with this outcome.
fn place_of(rows: &[Row], outcome: &[u8]) -> Option<usize>
    ensures { MatchOption result (HasNone rows.now outcome.now)
        (λ place. IsSomeAnd (slice_get rows.now place) (λ row. row.outcome ≡ outcome.now)) }
{
    for (place, row) in rows.iter().enumerate() {
        if row.outcome.as_slice() == outcome {
            return Some(place);
        }
    }
    None
}

fn push_row(rows: &mut Vec<Row>, row: Row) -> Result<(), OutOfMemory>
    ensures { OnOk result (rows.new.items ≡ rows.old.items ++ row ∷ []) }
{
    rows.push(row)?;
    Ok(())
}

// The first of the two orders with the counts of both.
fn join(alloc: Global, a: &Counted, b: &Counted) -> Result<Counted, Stopped>
    ensures both { IfOk result (λ both. both ≡ joined a.now b.now) }
    ensures too_many { IfErr result (λ why. why ≡ Stopped.TooMany
        → 2 ^ 128 ≤ a.now.count + b.now.count) }
{
    match a.join(alloc, b)? {
        Some(both) => Ok(both),
        None => Err(Stopped::TooMany),
    }
}

// Counts the order in the row of its outcome, or makes that row.
fn add_row(alloc: Global, rows: &mut Vec<Row>, row: Row) -> Result<(), Stopped>
    ensures added { OnOk result (IsRowAdded rows.old.items row rows.new.items) }
    ensures too_many { IfErr result (λ why. why ≡ Stopped.TooMany
        → 2 ^ 128 ≤ counts_of (counted_rows rows.old.items) + row.counted.count) }
{
    match place_of(rows.as_slice(), row.outcome.as_slice()) {
        Some(place) => {
            let both = join(alloc, &rows[place].counted, &row.counted)?;
            rows[place].counted = both;
            Ok(())
        }
        None => {
            push_row(rows, row)?;
            Ok(())
        }
    }
}

// The row of an order alone.
fn row_of(alloc: Global, way: &Way) -> Result<Row, OutOfMemory>
    ensures counted { IfOk result (λ row. row.counted ≡ way.now.counted) }
    ensures outcome { IfOk result (λ row. (part : Part) → IsWayOf part way.now
        → HasOutcome part row) }
{
    let outcome = outcome_of(alloc, &way.point.sight.ended)?;
    let counted = way.counted.copy(alloc)?;
    Ok(Row { counted, outcome })
}

// Adds the ways that are one turn longer. If there are none, the way is an order, which is counted
// in the rows.
fn advance_one(
    alloc: Global,
    part: &Part,
    way: &Way,
    next: &mut Vec<Way>,
    index: &mut Index,
    rows: &mut Vec<Row>,
) -> Result<(), Stopped>
    requires kept { IsWayOf part.now way.now }
    requires turns { length way.now.point.turns < most_turns }
    ensures advanced { OnOk result (IsAdvanced part.now way.now next.old.items rows.old.items
        next.new.items rows.new.items) }
    ensures too_many { IfErr result (λ why. why ≡ Stopped.TooMany
        → IsOverrun part.now way.now rows.old.items) }
{
    let any = spread(alloc, part, way, next, index)?;
    if !any {
        let row = row_of(alloc, way)?;
        add_row(alloc, rows, row)?;
    }
    Ok(())
}

// The ways that are one turn longer than those of the layer. Those that are orders are counted in
// the rows.
fn advance(
    alloc: Global,
    part: &Part,
    layer: &[Way],
    rows: &mut Vec<Row>,
    room: usize,
) -> Result<Vec<Way>, Stopped>
    requires kept { All (IsWayOf part.now) layer.now }
    requires turns { All (λ way. length way.point.turns < most_turns) layer.now }
    ensures step { IfOk result (λ next. IsStep part.now layer.now rows.old.items next.items
        rows.new.items) }
    ensures too_many { IfErr result (λ why. why ≡ Stopped.TooMany
        → IsCrowded part.now layer.now rows.old.items room) }
{
    let mut next = Vec::new(alloc);
    let mut index = Index::new(alloc);
    for way in layer {
        advance_one(alloc, part, way, &mut next, &mut index, rows)?;
        if next.len() > room {
            return Err(Stopped::TooMany);
        }
    }
    Ok(next)
}

// The way that ends with the first turns.
fn first_layer(alloc: Global, way: Way) -> Result<Vec<Way>, OutOfMemory>
    ensures { IfOk result (λ layer. layer.items ≡ way ∷ []) }
{
    let mut layer = Vec::new(alloc);
    layer.push(way)?;
    Ok(layer)
}

// How many turns there may be after the first ones.
fn turns_left(part: &Part) -> u32
    requires { length part.now.first.items ≤ most_turns }
    ensures { result + length part.now.first.items ≡ most_turns }
{
    MOST_TURNS - part.first.len() as u32
}

// The rows of the orders that go on from the first turns.
fn rows_from(alloc: Global, part: &Part, way: Way, most: usize) -> Result<Vec<Row>, Stopped>
    requires few { length part.now.first.items ≤ most_turns }
    requires root { IsRoot part.now way }
    ensures rows { IfOk result (λ rows. IsTable part.now.play part.now.first.items rows.items) }
    ensures too_many { IfErr result (λ why. why ≡ Stopped.TooMany
        → HasTooMany part.now.play part.now.first.items most) }
{
    let mut rows = Vec::new(alloc);
    let mut layer = first_layer(alloc, way)?;
    let mut room = most;
    let more = turns_left(part);
    for turn in 0..more {
        if room < layer.len() {
            return Err(Stopped::TooMany);
        }
        room -= layer.len();
        layer = advance(alloc, part, layer.as_slice(), &mut rows, room)?;
        if layer.is_empty() {
            return Ok(rows);
        }
    }
    Err(Stopped::TooMany)
}

/// The rows of the part, each with its order after the first turns: none if one of those doesn't
/// move its task. At most `most` moments are met: `TooMany` is returned only if there are more ways
/// to go on from the first turns, if one of them has with those as many turns as a schedule may
/// have, or if there are more orders than 128 bits can count.
pub fn rows_of(alloc: Global, part: &Part, most: usize) -> Result<Vec<Row>, Stopped>
    requires { length part.now.first.items ≤ most_turns }
    ensures rows { IfOk result (λ rows. IsTable part.now.play part.now.first.items rows.items) }
    ensures too_many { IfErr result (λ why. why ≡ Stopped.TooMany
        → HasTooMany part.now.play part.now.first.items most) }
{
    match root(alloc, part)? {
        Some(way) => rows_from(alloc, part, way, most),
        None => Ok(Vec::new(alloc)),
    }
}
