//! The run of a text of buffers.

ghost use Rattle.std.specs.Prelude.{◌<◌, ◌≤◌, IfOk, length};
ghost use Rattle.buffer_measure.specs.Workers.{AreDone, AreReady, HasStarted, IsBookOf, IsShared};
ghost use Rattle.buffer_text.specs.Limits.{most_callers};
ghost use Rattle.buffer_measure.specs.Run.{IsRunOf};

use crate::book::{Name, TaggedBook};
use crate::run::BufferRun;
use crate::workers::{Worker, parted, run_callers, workers_of};
use buffer_entries::boot_entry;
use buffer_text::{BufferCaller, BufferText};
use hash_algos::Algo;
use ima_io::Gate;
use measure_book::Book;
use policy_text::Policy;
use std::alloc::{AllocError as OutOfMemory, Global};
use std::marker::Brand;
use std::sync::{Mutex, Wait};
use std::thread::Threads;

/// Measures the buffers of all callers into one list. The callers run on at most `threads` threads,
/// as the text says, in contiguous parts; if no thread can be created, they run one after another.
/// Before each buffer its caller passes the gate, outside the lock of the list: the task is the
/// caller's number, the call the buffer's number, both counted from 0, and the step is 0.
///
/// The text is consumed: the entries of the list take over its buffers, without a copy. Bytes that
/// aren't laid out yet are laid out by the thread that measures them.
pub fn measure_owned<G: Gate + Sync, R: Threads + Wait + Sync>(
    rt: &R,
    alloc: Global,
    t: BufferText,
    gate: &G,
) -> Result<BufferRun, OutOfMemory>
    ensures { IfOk result (λ run. IsRunOf t run) }
{
    t.keeps();
    let BufferText {
        hash,
        rules,
        callers,
        threads,
    } = t;
    let (book, workers) = started(alloc, hash, callers)?;
    run_all::<Brand, G, R>(rt, alloc, hash, &rules, threads, book, workers, gate)
}

/// Measures the buffers as [`measure_owned`] does, from a copy of the text.
pub fn measure_all<G: Gate + Sync, R: Threads + Wait + Sync>(
    rt: &R,
    alloc: Global,
    t: &BufferText,
    gate: &G,
) -> Result<BufferRun, OutOfMemory>
    ensures { IfOk result (λ run. IsRunOf t.now run) }
{
    measure_owned(rt, alloc, t.copy(alloc)?, gate)
}

// The list before the callers run, and the callers with their passes.
fn started(
    alloc: Global,
    hash: Algo,
    callers: Vec<BufferCaller>,
) -> Result<(Book, Vec<Worker>), OutOfMemory>
    requires { length callers.items ≤ most_callers }
    ensures { IfOk result (λ r. HasStarted hash callers.items r.0 r.1.items) }
{
    let boot = boot_entry(alloc, hash)?;
    let count = callers.len() as u32;
    let (book, passes) = Book::start(alloc, count + 1, boot)?;
    let workers = workers_of(alloc, callers, passes)?;
    Ok((book, workers))
}

// Runs all callers on a list that they share, and closes it.
fn run_all<N: Name, G: Gate + Sync, R: Threads + Wait + Sync>(
    rt: &R,
    alloc: Global,
    hash: Algo,
    rules: &Policy,
    threads: u32,
    book: Book,
    workers: Vec<Worker>,
    gate: &G,
) -> Result<BufferRun, OutOfMemory>
    requires shared { IsShared N.constants hash rules.now }
    requires threads { 0 < threads }
    requires book { IsBookOf N.constants book }
    requires ready { AreReady N.constants workers.items }
    ensures { IfOk result (λ run. IsRunOf N.constants.text run) }
{
    let mut workers = workers;
    let book = Mutex::new(TaggedBook::<N>::new(book));
    run_callers(
        rt,
        alloc,
        hash,
        rules,
        threads as usize,
        &book,
        gate,
        workers.as_mut_slice(),
    );
    close::<N>(alloc, book.into_inner().open(), workers)
}

// The outcome of the run, once all callers have run.
fn close<N: Name>(alloc: Global, book: Book, workers: Vec<Worker>) -> Result<BufferRun, OutOfMemory>
    requires book { IsBookOf N.constants book }
    requires done { AreDone N.constants workers.items }
    ensures { IfOk result (λ run. IsRunOf N.constants.text run) }
{
    let (passes, answers) = parted(alloc, workers)?;
    let (list, banks) = book.close(passes);
    Ok(BufferRun {
        list,
        banks,
        answers,
    })
}
