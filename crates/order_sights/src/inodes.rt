// An inode in two moments.

ghost use Rattle.std.specs.Prelude.{◌≡◌, ◌∷◌, ◌<◌, [], length, slice_get, All, IfOk, IsTrue, Some};
ghost use Rattle.inode_events.specs.EndedInode.{EndedInodeValue};
ghost use Rattle.order_sights.specs.Inodes.{AreFilesSame, AreJournalsSame, FitsIfThere, IsCellSame, IsPairFit};

use crate::files::file_seen;
use crate::pairs::{Pair, has_pair};
use crate::states::same_state;
use crate::taken::same_taken;
use inode_cell::InodeCell;
use inode_events::templates::Entry;
use inode_events::{EndedInode, Event, How};
use inode_pages::Content;
use order_told::{Same, are_checks_below, same_all, same_calls, same_entries};
use std::alloc::{AllocError as OutOfMemory, Global};

// ---- files

fn same_how(a: Option<How>, b: Option<How>) -> bool
    ensures { IsTrue result → (a ≡ b) }
{
    match (a, b) {
        (None, None) => true,
        (Some(a), Some(b)) => a == b,
        _ => false,
    }
}

// Whether both journals have a place of the file's name, and say the same of it.
fn is_pair_fit(pair: &Pair, a: &[Event], b: &[Event]) -> bool
    ensures { IsTrue result → IsPairFit a.now b.now pair.now }
{
    let (Some(seen), Some(other)) = (file_seen(a, pair.first), file_seen(b, pair.second)) else {
        return false;
    };
    pair.first < a.len() as u64
        && pair.second < b.len() as u64
        && same_how(seen.how, other.how)
        && seen.func == other.func
        && seen.action.is_same(&other.action)
}

// Whether that holds if the pair is of files of this inode.
fn fits_if_there(pair: &Pair, inode: usize, a: &[Event], b: &[Event]) -> bool
    ensures { IsTrue result → FitsIfThere inode a.now b.now pair.now }
{
    pair.inode != inode || is_pair_fit(pair, a, b)
}

fn are_pairs_fit(pairs: &[Pair], inode: usize, a: &[Event], b: &[Event]) -> bool
    ensures { IsTrue result → All (FitsIfThere inode a.now b.now) pairs.now }
{
    for pair in pairs {
        if !fits_if_there(pair, inode, a, b) {
            return false;
        }
    }
    true
}

// Whether both journals name files that they have counted, and say the same of those in pairs.
fn same_files(pairs: &[Pair], inode: usize, a: &[Event], b: &[Event]) -> bool
    ensures { IsTrue result → AreFilesSame pairs.now inode a.now b.now }
{
    has_pair(pairs, inode, 0, 0)
        && are_checks_below(a)
        && are_checks_below(b)
        && are_pairs_fit(pairs, inode, a, b)
}

// ---- cells

// Whether the contents are the same.
fn same_content(a: &Content, b: &Content) -> bool
    ensures { IsTrue result → (a.now ≡ b.now) }
{
    same_all(a.pages(), b.pages())
}

/// Whether the inode is the same as the next steps see it.
pub fn same_cell(a: &InodeCell, b: &InodeCell) -> bool
    ensures { IsTrue result → IsCellSame a.now b.now }
{
    if !same_state(a.state(), b.state()) {
        return false;
    }
    if !same_content(a.content(), b.content()) {
        return false;
    }
    same_all(a.attrs().as_slice(), b.attrs().as_slice())
}

// ---- journals

// The inode of this number, alone.
fn only(inodes: &[EndedInode], i: usize) -> &[EndedInode]
    requires { i < length inodes.now }
    ensures { (x : EndedInodeValue) → slice_get inodes.now i ≡ Some x
        → result.now ≡ x ∷ [] }
{
    &inodes[i..i + 1]
}

/// Whether the journals of the inode of this number say the same of its files, of what its open
/// collection has taken, of the entries that grants report, and of the calls.
pub fn same_journals(
    alloc: Global,
    list: &[Entry],
    other: &[Entry],
    pairs: &[Pair],
    i: usize,
    a: &[EndedInode],
    b: &[EndedInode],
) -> Result<bool, OutOfMemory>
    requires within { i < length a.now }
    requires within2 { i < length b.now }
    ensures { IfOk result (λ same. IsTrue same → (x y : EndedInodeValue)
        → slice_get a.now i ≡ Some x → slice_get b.now i ≡ Some y
        → AreJournalsSame list.now other.now pairs.now i x y) }
{
    let inode = &a[i];
    let inode2 = &b[i];
    let first = inode.journal.as_slice();
    let second = inode2.journal.as_slice();
    let here = only(a, i);
    let there = only(b, i);
    if !same_files(pairs, i, first, second) {
        return Ok(false);
    }
    if !same_entries(alloc, list, other, first, second)? {
        return Ok(false);
    }
    if !same_taken(alloc, first, second)? {
        return Ok(false);
    }
    if !same_calls(alloc, list, other, here, there, first)? {
        return Ok(false);
    }
    same_calls(alloc, list, other, here, there, second)
}
