//! What is seen of a run between two turns, and when two runs can be met as one.

ghost use Rattle.std.specs.Prelude.{◌≡◌, ◌<◌, length, IfOk, IsTrue};
ghost use Rattle.order_outcomes.specs.alike.Alike.{IsAlike};
ghost use Rattle.order_sights.specs.Pairs.{ArePairs};
ghost use Rattle.order_sights.specs.Sights.{AreCountsSame, AreInodesSame, AreListsSame, IsInodeSame, IsSight};
ghost use Rattle.run_model.specs.Scene.{Scene};
ghost use Rattle.run_model.specs.Turns.{Moment};

use crate::inodes::{same_cell, same_journals};
use crate::lists::are_in;
use crate::pairs::{Pair, are_apart, are_within};
use crate::tasks::{pairs_of, same_tasks};
use run_model::Ended;
use std::alloc::{AllocError as OutOfMemory, Global};
use task_core::{Task, World};

/// What is seen of a run that stops after some turns.
#[derive(Drop)]
pub struct Sight {
    /// What the run leaves.
    pub ended: Ended,
    /// The world after the same turns, before it is closed.
    pub world: World,
    /// The tasks after them.
    pub tasks: Vec<Task>,
}

// Whether the inode of this number is the same as the next steps see it, and its journals say the
// same of calls.
fn same_inode(
    alloc: Global,
    pairs: &[Pair],
    i: usize,
    a: &Sight,
    b: &Sight,
) -> Result<bool, OutOfMemory>
    requires within { i < length a.now.ended.inodes }
    requires within2 { i < length b.now.ended.inodes }
    ensures { IfOk result (λ same. IsTrue same → IsInodeSame pairs.now i a.now b.now) }
{
    let (Some(cell), Some(other)) = (a.world.inode(i), b.world.inode(i)) else {
        return Ok(false);
    };
    if !same_cell(cell, other) {
        return Ok(false);
    }
    same_journals(
        alloc,
        a.ended.list.as_slice(),
        b.ended.list.as_slice(),
        pairs,
        i,
        a.ended.inodes.as_slice(),
        b.ended.inodes.as_slice(),
    )
}

// Whether that holds of all inodes.
fn same_inodes(alloc: Global, pairs: &[Pair], a: &Sight, b: &Sight) -> Result<bool, OutOfMemory>
    requires { length b.now.ended.inodes ≡ length a.now.ended.inodes }
    ensures { IfOk result (λ same. IsTrue same
        → AreInodesSame pairs.now a.now b.now (length a.now.ended.inodes)) }
{
    for i in 0..a.ended.inodes.len() {
        if !same_inode(alloc, pairs, i, a, b)? {
            return Ok(false);
        }
    }
    Ok(true)
}

// Whether there are as many inodes, and no appended rules.
fn same_counts(a: &Ended, b: &Ended) -> bool
    ensures { IsTrue result → AreCountsSame a.now b.now }
{
    a.inodes.len() == b.inodes.len() && a.rules.len() == 0 && b.rules.len() == 0
}

// Whether that holds and the measurement lists have the same entries.
fn same_lists(a: &Ended, b: &Ended) -> bool
    ensures { IsTrue result → AreListsSame a.now b.now }
{
    if !same_counts(a, b) {
        return false;
    }
    let list = a.list.as_slice();
    let other = b.list.as_slice();
    if !are_in(other, list) {
        return false;
    }
    are_in(list, other)
}

// Whether the pairs are of files of so many inodes, and none is in two pairs with different files.
fn are_pairs(pairs: &[Pair], inodes: usize) -> bool
    ensures { IsTrue result → ArePairs inodes pairs.now }
{
    are_within(pairs, inodes) && are_apart(pairs)
}

/// Whether the moments at which the runs stop can be met as one: the same was told so far, and the
/// same can follow. It may be false of moments that are alike.
pub fn are_alike(alloc: Global, a: &Sight, b: &Sight) -> Result<bool, OutOfMemory>
    ensures { IfOk result (λ alike. IsTrue alike → (scene : Scene) (m n : Moment)
        → IsSight scene m a.now → IsSight scene n b.now → IsAlike scene m n) }
{
    if !same_lists(&a.ended, &b.ended) {
        return Ok(false);
    }
    let inodes = a.ended.inodes.len();
    let pairs = pairs_of(alloc, inodes, a.tasks.as_slice(), b.tasks.as_slice())?;
    let pairs = pairs.as_slice();
    if !are_pairs(pairs, inodes) {
        return Ok(false);
    }
    if !same_tasks(pairs, a.tasks.as_slice(), b.tasks.as_slice()) {
        return Ok(false);
    }
    same_inodes(alloc, pairs, a, b)
}
