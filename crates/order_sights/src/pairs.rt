// The files of two moments in pairs.

ghost use Rattle.std.specs.Prelude.{◌≡◌, IsTrue};
ghost use Rattle.std.specs.List.{list_all, list_any};
ghost use Rattle.order_sights.specs.Pairs.{HandlesPaired, IsHandlePaired, IsProgressPaired, are_apart, are_within, has_pair, is_apart, is_pair};
ghost use Rattle.task_state.specs.Value.{progress_in};
ghost use Rattle.std.specs.Prelude.{option_map};

use call_steps::Handle;
use order_told::Same;
use task_state::Progress;

/// A file of an inode in one moment, and the same file in another.
#[derive(Clone, Copy)]
pub struct Pair {
    /// The number of the inode.
    pub inode: usize,
    /// The name of the file in the first moment.
    pub first: u64,
    /// Its name in the second.
    pub second: u64,
}

fn is_pair(pair: &Pair, inode: usize, first: u64, second: u64) -> bool
    ensures { result ≡ is_pair inode first second pair.now }
{
    pair.inode == inode && pair.first == first && pair.second == second
}

/// Whether the two files are a pair.
pub fn has_pair(pairs: &[Pair], inode: usize, first: u64, second: u64) -> bool
    ensures { result ≡ has_pair pairs.now inode first second }
{
    pairs.iter().any(|pair| is_pair(pair, inode, first, second))
}

// Whether the two pairs are of different files in both moments, or of the same in both.
fn is_apart(pair: &Pair, other: &Pair) -> bool
    ensures { result ≡ is_apart pair.now other.now }
{
    other.inode != pair.inode || (other.first == pair.first) == (other.second == pair.second)
}

fn is_apart_from(pair: &Pair, pairs: &[Pair]) -> bool
    ensures { result ≡ list_all (is_apart pair.now) pairs.now }
{
    pairs.iter().all(|other| is_apart(pair, other))
}

/// Whether no file is in two pairs with different files.
pub fn are_apart(pairs: &[Pair]) -> bool
    ensures { result ≡ are_apart pairs.now }
{
    pairs.iter().all(|pair| is_apart_from(pair, pairs))
}

/// Whether the pairs are of files of so many inodes.
pub fn are_within(pairs: &[Pair], inodes: usize) -> bool
    ensures { result ≡ are_within inodes pairs.now }
{
    pairs.iter().all(|pair| pair.inode < inodes)
}

/// Whether the calls stand at the same step, on files that are a pair.
pub fn same_progress(pairs: &[Pair], a: Option<Progress>, b: Option<Progress>) -> bool
    ensures { IsTrue result
        → IsProgressPaired pairs.now (option_map progress_in a) (option_map progress_in b) }
{
    match (a, b) {
        (None, None) => true,
        (Some(a), Some(b)) => {
            a.due.is_same(&b.due)
                && a.step == b.step
                && a.inode == b.inode
                && a.how == b.how
                && has_pair(pairs, a.inode as usize, a.file, b.file)
        }
        _ => false,
    }
}

// Whether the handles are the same, of files that are a pair.
fn same_handle(pairs: &[Pair], a: Handle, b: Handle) -> bool
    ensures { IsTrue result → IsHandlePaired pairs.now a b }
{
    a.name == b.name
        && a.inode == b.inode
        && a.how == b.how
        && has_pair(pairs, a.inode as usize, a.file, b.file)
}

/// Whether the handles are the same in order, of files that are pairs.
pub fn same_handles(pairs: &[Pair], a: &[Handle], b: &[Handle]) -> bool
    ensures { IsTrue result → HandlesPaired pairs.now a.now b.now }
{
    if a.len() != b.len() {
        return false;
    }
    for k in 0..a.len() {
        if !same_handle(pairs, a[k], b[k]) {
            return false;
        }
    }
    true
}
