// Which inodes of two reports have a line, and which are drawn.

ghost use Rattle.std.specs.Prelude.{◌≡◌, ◌++◌, [], ◌∷◌, ◌≤◌, length, if◌then◌else◌, IfOk, OnOk};
ghost use Rattle.view_sentences.specs.Alike.{parted};
ghost use Rattle.view_pages.specs.Pair as spec;

use report_read::Inode;
use std::alloc::{AllocError as OutOfMemory, Global};
use view_sentences::parted;

/// At most as many inodes are drawn.
pub const MOST_PAIRS: u64 = 12;

// At most as many inodes have a line.
const MOST_LINES: usize = 200;

/// The room for drawings after two journals that part, or don't.
pub fn room_after(parted: Option<usize>, room: u64) -> u64
    ensures { result ≡ spec.room_after parted room }
{
    match parted {
        None => room,
        Some(_) => room.saturating_sub(1),
    }
}

/// Where the journals of an inode part.
pub fn parted_of(text: &[u8], first: &Inode, second: &Inode) -> Option<usize>
    ensures { result ≡ parted text.now first.now.events second.now.events }
{
    parted(text, &first.events, &second.events)
}

/// How many inodes have a line.
pub fn shown(first: &[Inode], second: &[Inode]) -> usize
    ensures value { result ≡ spec.shown first.now second.now }
    ensures first { result ≤ length first.now }
    ensures second { result ≤ length second.now }
{
    first.len().min(second.len()).min(MOST_LINES)
}

fn push_if(numbers: &mut Vec<usize>, chosen: bool, number: usize) -> Result<(), OutOfMemory>
    ensures { OnOk result (numbers.new.items
        ≡ numbers.old.items ++ (if chosen then number ∷ [] else [])) }
{
    if chosen {
        numbers.push(number)?;
    }
    Ok(())
}

fn push_number(
    numbers: &mut Vec<usize>,
    parted: Option<usize>,
    room: u64,
    number: usize,
) -> Result<(), OutOfMemory>
    ensures { OnOk result
        (numbers.new.items ≡ numbers.old.items ++ spec.number_by parted room number) }
{
    match parted {
        None => Ok(()),
        Some(_) => push_if(numbers, room > 0, number),
    }
}

// The numbers of the inodes that are drawn, of as many inodes of each report.
fn numbers_of(
    alloc: Global,
    text: &[u8],
    first: &[Inode],
    second: &[Inode],
) -> Result<Vec<usize>, OutOfMemory>
    requires { length first.now ≡ length second.now }
    ensures { IfOk result (λ v. v.items
        ≡ spec.numbers_from text.now 0 spec.most_pairs first.now second.now) }
{
    let mut numbers = Vec::new(alloc);
    let mut room = MOST_PAIRS;
    for number in 0..first.len() {
        let inode = &first[number];
        let other = &second[number];
        let parted = parted_of(text, inode, other);
        push_number(&mut numbers, parted, room, number)?;
        room = room_after(parted, room);
    }
    Ok(numbers)
}

/// The numbers of the inodes that are drawn.
pub fn numbers(
    alloc: Global,
    text: &[u8],
    first: &[Inode],
    second: &[Inode],
) -> Result<Vec<usize>, OutOfMemory>
    ensures { IfOk result (λ v. v.items ≡ spec.numbers text.now first.now second.now) }
{
    let n = shown(first, second);
    numbers_of(alloc, text, &first[..n], &second[..n])
}
