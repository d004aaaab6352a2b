//! Turns each of which moves its task, and the run that stops after them.

ghost use Rattle.std.specs.Prelude.{◌≡◌, ◌<◌, ◌≤◌, None, Some, length, IfOk, MatchOption};
ghost use Rattle.order_outcomes.specs.Made.{made_of};
ghost use Rattle.order_outcomes.specs.Orders.{moment_after, moved};
ghost use Rattle.order_outcomes.specs.reports.model.Turns.{Moment};
ghost use Rattle.order_outcomes.specs.scripts.Limits.{most_turns};
ghost use Rattle.order_runs.specs.Points.{IsMoved, IsPoint, IsPointOf};
ghost use Rattle.order_runs.specs.Plays.{IsSchedule, moment_by};
ghost use Rattle.order_sights.specs.Sights.{IsSight};

use crate::play::Play;
use order_outcomes::counts::Order;
use order_outcomes::{Made, made_of};
use order_sights::Sight;
use std::alloc::{AllocError as OutOfMemory, Global};

/// Turns each of which moves its task, and the run that stops after them.
#[derive(Drop)]
pub struct Point {
    /// The turns, from the start of the script on.
    pub turns: Order,
    /// How much is made after these turns.
    pub made: Made,
    /// What is seen then.
    pub sight: Sight,
}

// The run that stops after these turns, whether or not each of them moves its task.
fn stopped(alloc: Global, play: &Play, turns: Order) -> Result<Point, OutOfMemory>
    requires { IsSchedule play.now turns }
    ensures turns { IfOk result (λ point. point.turns ≡ turns) }
    ensures made { IfOk result (λ point. point.made ≡ made_of point.sight.ended) }
    ensures sight { IfOk result (λ point. IsSight play.now (moment_by play.now turns) point.sight) }
{
    let sight = play.sight(alloc, &turns)?;
    Ok(Point {
        turns,
        made: made_of(&sight.ended),
        sight,
    })
}

/// The point after one turn of the task more, if the turn moves it.
pub fn turned(
    alloc: Global,
    play: &Play,
    point: &Point,
    task: u32,
) -> Result<Option<Point>, OutOfMemory>
    requires task { task < length play.now.programs }
    requires point { IsPoint play.now point.now }
    requires turns { length point.now.turns < most_turns }
    ensures { IfOk result (λ longer. (m : Moment) → moment_after play.now point.now.turns ≡ Some m
        → IsMoved play.now point.now task (moved play.now m task) longer) }
{
    let turns = point.turns.then(alloc, task)?;
    let longer = stopped(alloc, play, turns)?;
    let moves = !longer.made.is_same(point.made);
    Ok(moves.then_some(longer))
}

// The point after one turn more of a task that the play may not have.
fn turned_by(
    alloc: Global,
    play: &Play,
    point: Point,
    task: u32,
) -> Result<Option<Point>, OutOfMemory>
    requires point { IsPoint play.now point }
    requires turns { length point.turns < most_turns }
    ensures { IfOk result (λ longer. (m : Moment) → moment_after play.now point.turns ≡ Some m
        → IsMoved play.now point task (moved play.now m task) longer) }
{
    if task >= play.tasks() {
        return Ok(None);
    }
    turned(alloc, play, &point, task)
}

/// The point after these turns, if each of them moves its task.
pub fn reached(alloc: Global, play: &Play, turns: &[u32]) -> Result<Option<Point>, OutOfMemory>
    requires { length turns.now ≤ most_turns }
    ensures { IfOk result (λ o. MatchOption o (moment_after play.now turns.now ≡ None)
        (IsPointOf play.now turns.now)) }
{
    let mut point = stopped(alloc, play, Order::new(alloc))?;
    for task in turns {
        match turned_by(alloc, play, point, *task)? {
            Some(longer) => point = longer,
            None => return Ok(None),
        }
    }
    Ok(Some(point))
}
