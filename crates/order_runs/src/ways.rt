//! Ways to go on from the first turns of a part, and those that are one turn longer. Of those that
//! lead to moments at which the same can follow, the first is kept, with the counts of all.

ghost use Rattle.std.specs.Prelude.{◌≡◌, [], ◌∷◌, ◌++◌, ◌<◌, ◌≤◌, ◌||◌, None, Some, is_some, length, IfOk, IfSome, IsSomeAnd, IsTrue, MatchOption, OnOk, slice_get};
ghost use Rattle.order_outcomes.specs.Orders.{moved};
ghost use Rattle.order_outcomes.specs.counts.Layers.{root};
ghost use Rattle.order_outcomes.specs.reports.model.Turns.{Moment};
ghost use Rattle.order_outcomes.specs.scripts.Limits.{most_turns};
ghost use Rattle.order_runs.specs.Steps.{AreAdded, CanMeet, IsMet, IsRoot, IsSpread, IsTurned, IsWayAdded, IsWayOf, led_on, opening};

use crate::part::Part;
use crate::points::{Point, reached, turned};
use order_outcomes::counts::{Counted, Order};
use order_sights::are_alike;
use std::alloc::{AllocError as OutOfMemory, Global};
use std::collections::HashMap;

/// Turns that go on from the first ones, each of which moves its task.
#[derive(Drop)]
pub struct Way {
    /// The turns after the first ones, with the number of ways for which they stand.
    pub counted: Counted,
    /// The point after all of them.
    pub point: Point,
}

/// The way that ends with the first turns, if each of those moves its task.
pub fn root(alloc: Global, part: &Part) -> Result<Option<Way>, OutOfMemory>
    requires { length part.now.first.items ≤ most_turns }
    ensures { IfOk result (λ o. MatchOption o (opening part.now ≡ None) (IsRoot part.now)) }
{
    match reached(alloc, &part.play, part.first.as_slice())? {
        Some(point) => {
            let order = Order::new(alloc);
            let counted = Counted { order, count: 1 };
            Ok(Some(Way { counted, point }))
        }
        None => Ok(None),
    }
}

// The way with one turn of the task more, if the turn moves it.
fn lengthened(alloc: Global, part: &Part, way: &Way, task: u32) -> Result<Option<Way>, OutOfMemory>
    requires task { task < length part.now.play.programs }
    requires kept { IsWayOf part.now way.now }
    requires turns { length way.now.point.turns < most_turns }
    ensures { IfOk result (λ longer. (m : Moment) → led_on part.now way.now.counted.order ≡ Some m
        → IsTurned part.now way.now task (moved part.now.play m task) longer) }
{
    match turned(alloc, &part.play, &way.point, task)? {
        Some(point) => {
            let counted = way.counted.then(alloc, task)?;
            Ok(Some(Way { counted, point }))
        }
        None => Ok(None),
    }
}

/// The places of the ways that were added to a layer, by the marks of their sights.
#[derive(Drop)]
pub struct Index {
    places: HashMap<u64, Vec<usize>>,
}

impl Index {
    /// No place yet.
    pub fn new(alloc: Global) -> Index {
        Index {
            places: HashMap::new(alloc),
        }
    }

    fn get(&self, mark: u64) -> &[usize] {
        match self.places.get(&mark) {
            Some(places) => places.as_slice(),
            None => &[],
        }
    }

    fn add(&mut self, alloc: Global, mark: u64, place: usize) -> Result<(), OutOfMemory> {
        if let Some(places) = self.places.get_mut(&mark) {
            return match places.push(place) {
                Ok(()) => Ok(()),
                Err(_) => Err(OutOfMemory),
            };
        }
        let mut places = Vec::new(alloc);
        places.push(place)?;
        self.places.insert(mark, places)?;
        Ok(())
    }
}

// Whether the longer way can be met as this one, and doesn't come before it.
fn can_meet(alloc: Global, way: &Way, longer: &Way) -> Result<bool, OutOfMemory>
    ensures { IfOk result (λ meets. IsTrue meets → CanMeet way.now longer.now) }
{
    if longer.counted.order.comes_before(&way.counted.order) {
        return Ok(false);
    }
    let alike = are_alike(alloc, &way.point.sight, &longer.point.sight)?;
    Ok(alike)
}

// The place of a way as which the longer one can be met.
fn meeting(
    alloc: Global,
    ways: &[Way],
    places: &[usize],
    longer: &Way,
) -> Result<Option<usize>, OutOfMemory>
    ensures { IfOk result (λ found. IfSome found (λ place.
        IsSomeAnd (slice_get ways.now place) (λ way. CanMeet way longer.now))) }
{
    for place in places {
        let place = *place;
        if place < ways.len() && can_meet(alloc, &ways[place], longer)? {
            return Ok(Some(place));
        }
    }
    Ok(None)
}

fn push_way(ways: &mut Vec<Way>, way: Way) -> Result<(), OutOfMemory>
    ensures { OnOk result (ways.new.items ≡ ways.old.items ++ way ∷ []) }
{
    ways.push(way)?;
    Ok(())
}

// Adds the count of the longer way to that of the way at this place, if 128 bits have the sum.
// Returns whether they have.
fn join_at(
    alloc: Global,
    ways: &mut Vec<Way>,
    place: usize,
    longer: &Way,
) -> Result<bool, OutOfMemory>
    requires { IsSomeAnd (slice_get ways.old.items place) (λ way. CanMeet way longer.now) }
    ensures { IfOk result (λ met. IsMet met ways.old.items longer.now ways.new.items) }
{
    match ways[place].counted.join(alloc, &longer.counted)? {
        Some(joined) => {
            ways[place].counted = joined;
            Ok(true)
        }
        None => Ok(false),
    }
}

// Adds the count of the longer way to that of one as which it can be met, if there is one and 128
// bits have the sum. Returns whether it did.
fn meet(
    alloc: Global,
    ways: &mut Vec<Way>,
    index: &Index,
    mark: u64,
    longer: &Way,
) -> Result<bool, OutOfMemory>
    ensures { IfOk result (λ met. IsMet met ways.old.items longer.now ways.new.items) }
{
    match meeting(alloc, ways.as_slice(), index.get(mark), longer)? {
        Some(place) => join_at(alloc, ways, place, longer),
        None => Ok(false),
    }
}

// Adds the count of the way to that of one as which it can be met, if there is one and 128 bits
// have the sum; otherwise notes the place that the way will have. Returns whether it was met.
fn meet_or_note(
    alloc: Global,
    next: &mut Vec<Way>,
    index: &mut Index,
    way: &Way,
) -> Result<bool, OutOfMemory>
    ensures { IfOk result (λ met. IsMet met next.old.items way.now next.new.items) }
{
    let mark = way.point.sight.mark();
    if meet(alloc, next, index, mark, way)? {
        return Ok(true);
    }
    index.add(alloc, mark, next.len())?;
    Ok(false)
}

// Adds the way, or its count to that of a way as which it can be met, if 128 bits have the sum.
fn add_way(
    alloc: Global,
    next: &mut Vec<Way>,
    index: &mut Index,
    way: Way,
) -> Result<(), OutOfMemory>
    ensures { OnOk result (IsWayAdded next.old.items way next.new.items) }
{
    if meet_or_note(alloc, next, index, &way)? {
        return Ok(());
    }
    push_way(next, way)
}

// Adds the longer way, if there is one. Returns whether there is any so far.
fn add_longer(
    alloc: Global,
    next: &mut Vec<Way>,
    index: &mut Index,
    longer: Option<Way>,
    any: bool,
) -> Result<bool, OutOfMemory>
    ensures ways { IfOk result (λ b. AreAdded next.old.items longer next.new.items) }
    ensures any { IfOk result (λ b. b ≡ (any || is_some longer)) }
{
    match longer {
        Some(way) => {
            add_way(alloc, next, index, way)?;
            Ok(true)
        }
        None => Ok(any),
    }
}

/// Adds the ways that are one turn longer. Returns whether there are any.
pub fn spread(
    alloc: Global,
    part: &Part,
    way: &Way,
    next: &mut Vec<Way>,
    index: &mut Index,
) -> Result<bool, OutOfMemory>
    requires kept { IsWayOf part.now way.now }
    requires turns { length way.now.point.turns < most_turns }
    ensures { IfOk result (λ any. (m : Moment)
        → led_on part.now way.now.counted.order ≡ Some m
        → IsSpread part.now way.now m next.old.items next.new.items any) }
{
    let mut any = false;
    for task in 0..part.play.tasks() {
        let longer = lengthened(alloc, part, way, task)?;
        any = add_longer(alloc, next, index, longer, any)?;
    }
    Ok(any)
}
