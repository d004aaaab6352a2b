//! The lines of a list, made in parts on threads.

ghost use Rattle.std.specs.Prelude.{◌≡◌, ◌+◌, ◌*◌, ◌<◌, ◌≤◌, ◌∷◌, ◌++◌, [], IfOk, OnOk, length, max};
ghost use Rattle.std.specs.List.{AllByRecursion, flat_map};
ghost use Rattle.buffer_measure.specs.Parts.{ArePartsOf, IsMade, IsPart, entries_in, entries_text, part_bytes};

use ima_io::Pieces;
use ima_templates::Entry;
use report_text::push_entries;
use std::alloc::{AllocError as OutOfMemory, Global};
use std::thread::Threads;
use std::{mem, thread};

// The words of a line beside the value rarely take more bytes.
const MOST_OTHER: usize = 192;

/// Prints the entries as lines of `ascii_runtime_measurements`. The list is consumed: it is cut
/// into at most `threads` parts, and the lines of each are made on a thread of its own if one can
/// be created, which then frees the part's entries.
pub fn push_lines<R: Threads + Sync>(
    rt: &R,
    alloc: Global,
    out: &mut Pieces,
    list: Vec<Entry>,
    threads: usize,
) -> Result<(), OutOfMemory>
    ensures { OnOk result (out.new ≡ out.old ++ entries_text list.items) }
{
    let jobs = jobs_of(alloc, list, threads)?;
    let parts = parts_of(rt, alloc, jobs)?;
    push_parts(out, parts)?;
    Ok(())
}

// The size of the parts if so many entries are cut into at most `n` of them.
fn part_size(count: usize, n: usize) -> usize
    requires { 1 ≤ n }
    ensures some { 1 ≤ result }
    ensures few { count ≤ n * result }
{
    count.div_ceil(n).max(1)
}

// The entries in at most `threads` parts, or in one.
fn jobs_of(alloc: Global, list: Vec<Entry>, threads: usize) -> Result<Vec<Vec<Entry>>, OutOfMemory>
    ensures few { IfOk result (λ jobs. length jobs.items ≤ max 1 threads) }
    ensures entries { IfOk result (λ jobs. flat_map entries_in jobs.items ≡ list.items) }
{
    let size = part_size(list.len(), threads.max(1));
    let mut jobs = Vec::new(alloc);
    let mut job = Vec::with_capacity(alloc, size)?;
    for entry in list {
        put(alloc, &mut jobs, &mut job, size, entry)?;
    }
    jobs.push(job)?;
    Ok(jobs)
}

// Appends the entry to the part, or to the next one if the part is full.
fn put(
    alloc: Global,
    jobs: &mut Vec<Vec<Entry>>,
    job: &mut Vec<Entry>,
    size: usize,
    entry: Entry,
) -> Result<(), OutOfMemory>
    requires some { 1 ≤ size }
    requires most { length job.old.items ≤ size }
    ensures entries { OnOk result (flat_map entries_in jobs.new.items ++ job.new.items
        ≡ (flat_map entries_in jobs.old.items ++ job.old.items) ++ entry ∷ []) }
    ensures sum { OnOk result (length jobs.new.items * size + length job.new.items
        ≡ length jobs.old.items * size + length job.old.items + 1) }
    ensures some { OnOk result (1 ≤ length job.new.items) }
    ensures most { OnOk result (length job.new.items ≤ size) }
{
    close_full(alloc, jobs, job, size)?;
    job.push(entry)?;
    Ok(())
}

// Appends the part to the others if it is full, and begins the next one.
fn close_full(
    alloc: Global,
    jobs: &mut Vec<Vec<Entry>>,
    job: &mut Vec<Entry>,
    size: usize,
) -> Result<(), OutOfMemory>
    requires some { 1 ≤ size }
    requires most { length job.old.items ≤ size }
    ensures entries { OnOk result (flat_map entries_in jobs.new.items ++ job.new.items
        ≡ flat_map entries_in jobs.old.items ++ job.old.items) }
    ensures sum { OnOk result (length jobs.new.items * size + length job.new.items
        ≡ length jobs.old.items * size + length job.old.items) }
    ensures room { OnOk result (length job.new.items < size) }
{
    if job.len() == size {
        let next = Vec::with_capacity(alloc, size)?;
        jobs.push(mem::replace(job, next))?;
    }
    Ok(())
}

// The lines of each part, or nothing if memory ran out.
fn parts_of<R: Threads + Sync>(
    rt: &R,
    alloc: Global,
    jobs: Vec<Vec<Entry>>,
) -> Result<Vec<Option<Vec<u8>>>, OutOfMemory>
    ensures count { IfOk result (λ parts. length parts.items ≡ length jobs.items) }
    ensures each { IfOk result (λ parts. ArePartsOf jobs.items parts.items) }
{
    thread::map_vec(
        rt,
        jobs,
        &|entries: Vec<Entry>| -> Option<Vec<u8>>
            ensures { IsPart entries.items result }
        { lines_of(alloc, entries).ok() },
    )
}

// The lines of the entries. Their room is reserved at once: while a vector of several megabytes
// grows, other threads wait for their own memory.
fn lines_of(alloc: Global, entries: Vec<Entry>) -> Result<Vec<u8>, OutOfMemory>
    ensures { IfOk result (λ text. text.items ≡ entries_text entries.items) }
{
    let list = entries.as_slice();
    let mut text = Vec::with_capacity(alloc, room_for(list))?;
    push_entries(&mut text, list)?;
    Ok(text)
}

// About as many bytes as the lines of the entries have: two digits for each byte of a value, and
// the other words. Only the speed depends on it.
fn room_for(entries: &[Entry]) -> usize {
    let mut room = 0usize;
    for entry in entries {
        let digits = entry.sig.as_slice().len().saturating_mul(2);
        room = room.saturating_add(digits).saturating_add(MOST_OTHER);
    }
    room
}

// Appends the parts in order. Memory has run out if one of them wasn't made.
fn push_parts(out: &mut Pieces, parts: Vec<Option<Vec<u8>>>) -> Result<(), OutOfMemory>
    ensures made { OnOk result (AllByRecursion IsMade parts.items) }
    ensures bytes { OnOk result (out.new ≡ out.old ++ flat_map part_bytes parts.items) }
{
    for part in parts {
        let Some(text) = part else {
            return Err(OutOfMemory);
        };
        out.push(text)?;
    }
    Ok(())
}
