//! The callers of a run, each with its own pass of the list.

ghost use Rattle.std.specs.Prelude.{◌≡◌, ◌+◌, ◌<◌, ◌^◌, ◌∷◌, ◌++◌, [], true, Some, All, IfOk, IfSome, OnOk, length, map};
ghost use Rattle.report_text.specs.model.growing.Shown.{fresh};
ghost use Rattle.buffer_text.specs.Forms.{is_buffer};
ghost use Rattle.buffer_measure.specs.Workers.{AreDone, AreReady, IsDone, IsReady, IsShared, answers_in, caller_of, pass_of};
ghost use Rattle.buffer_measure.specs.Answered.{HaveAnswers, IsAnswered, IsSamePass};

use crate::answer::Answer;
use crate::answers::Answers;
use crate::book::{Name, TaggedBook};
use buffer_entries::{entry_for, wanted};
use buffer_text::{BufferBytes, BufferCaller, VALUE};
use hash_algos::Algo;
use ima_io::{Gate, Who};
use ima_templates::Entry;
use inode_meta::Cred;
use measure_book::Pass;
use policy_text::Policy;
use std::alloc::{AllocError as OutOfMemory, Global};
use std::sync::{Mutex, Wait};
use std::thread::Threads;
use std::{mem, thread};
use xattr_store::Bytes;

/// A caller with its pass of the list. Once all its buffers have been measured, it has their
/// answers in their place.
#[derive(Drop)]
pub struct Worker {
    pub cred: Cred,
    pub lines: Vec<(Bytes, BufferBytes)>,
    pub pass: Pass<Entry>,
    pub answers: Option<Answers>,
}

/// The workers of these callers and passes, in the same order, before they run.
pub fn workers_of(
    alloc: Global,
    callers: Vec<BufferCaller>,
    passes: Vec<Pass<Entry>>,
) -> Result<Vec<Worker>, OutOfMemory>
    requires { length callers.items ≡ length passes.items }
    ensures callers { IfOk result (λ workers. map caller_of workers.items ≡ callers.items) }
    ensures passes { IfOk result (λ workers. map pass_of workers.items ≡ passes.items) }
{
    let mut workers = Vec::with_capacity(alloc, callers.len())?;
    for (caller, pass) in callers.into_iter().zip(passes) {
        workers.push(worker_of(caller, pass))?;
    }
    Ok(workers)
}

// The worker before it runs.
fn worker_of(caller: BufferCaller, pass: Pass<Entry>) -> Worker
    ensures caller { caller_of result ≡ caller }
    ensures pass { pass_of result ≡ pass }
{
    let BufferCaller { cred, lines } = caller;
    Worker {
        cred,
        lines,
        pass,
        answers: None,
    }
}

// Measures one buffer: makes it an entry, and adds that to the list under the lock.
fn answer_line<N: Name, R: Wait>(
    rt: &R,
    alloc: Global,
    hash: Algo,
    register: Option<u8>,
    line: (Bytes, BufferBytes),
    book: &Mutex<TaggedBook<N>>,
    pass: &mut Pass<Entry>,
) -> Result<Answer, OutOfMemory>
    requires name { pass.old.name ≡ N.constants.name }
    requires register { IfSome register (λ pcr. pcr < 24) }
    requires line { is_buffer line ≡ true }
    ensures same { IsSamePass pass.old pass.new }
    ensures answered { IfOk result (λ a. IsAnswered hash register line pass.old pass.new a) }
{
    match register {
        None => Ok(Answer::Skipped),
        Some(pcr) => {
            let entry = entry_for(alloc, hash, pcr, line)?;
            book.lock(rt).add(pass, entry)
        }
    }
}

// Measures a caller's buffers one after another, and passes the gate before each.
fn answer_lines<N: Name, G: Gate, R: Wait>(
    rt: &R,
    alloc: Global,
    hash: Algo,
    register: Option<u8>,
    lines: Vec<(Bytes, BufferBytes)>,
    task: u32,
    book: &Mutex<TaggedBook<N>>,
    gate: &G,
    pass: &mut Pass<Entry>,
) -> Result<Answers, OutOfMemory>
    requires pass { pass.old ≡ fresh N.constants.name (task + 1) }
    requires register { IfSome register (λ pcr. pcr < 24) }
    requires few { length lines.items < 2 ^ 32 }
    requires lines { All (λ line. is_buffer line ≡ true) lines.items }
    ensures same { IsSamePass pass.old pass.new }
    ensures answered { IfOk result (λ answers.
        HaveAnswers hash register lines.items pass.new answers) }
{
    let mut answers = Answers::new(alloc);
    for (k, line) in lines.into_iter().enumerate() {
        gate.pass(Who {
            task,
            call: k as u32,
            step: 0,
        });
        let answer = answer_line(rt, alloc, hash, register, line, book, pass)?;
        answers.push(answer)?;
    }
    Ok(answers)
}

// Asks for the room of the bytes of so many buffers, and gives it back. The memory of a thread then
// grows once, and not by a page or two for each buffer that is laid out, which would hold up the
// other threads each time. Only the speed depends on it.
fn make_room(alloc: Global, buffers: usize) {
    let _ = Vec::<u8>::with_capacity(alloc, buffers.saturating_mul(VALUE));
}

// Runs the caller of this number. If memory runs out, it has no answers.
fn run_caller<N: Name, G: Gate, R: Wait>(
    rt: &R,
    alloc: Global,
    hash: Algo,
    rules: &Policy,
    number: usize,
    book: &Mutex<TaggedBook<N>>,
    gate: &G,
    worker: &mut Worker,
)
    requires shared { IsShared N.constants hash rules.now }
    requires ready { IsReady N.constants number worker.old }
    ensures { IsDone N.constants number worker.new }
{
    let register = wanted(rules, &worker.cred);
    let lines = mem::replace(&mut worker.lines, Vec::new(alloc));
    make_room(alloc, lines.len());
    let answers = answer_lines(
        rt,
        alloc,
        hash,
        register,
        lines,
        number as u32,
        book,
        gate,
        &mut worker.pass,
    );
    worker.answers = answers.ok();
}

/// Runs the callers on at most `threads` threads, each of which runs contiguous ones in order. If
/// no thread can be created, the callers run one after another.
pub fn run_callers<N: Name, G: Gate + Sync, R: Threads + Wait + Sync>(
    rt: &R,
    alloc: Global,
    hash: Algo,
    rules: &Policy,
    threads: usize,
    book: &Mutex<TaggedBook<N>>,
    gate: &G,
    workers: &mut [Worker],
)
    requires shared { IsShared N.constants hash rules.now }
    requires threads { 0 < threads }
    requires ready { AreReady N.constants workers.old }
    ensures { AreDone N.constants workers.new }
{
    thread::for_each_mut(
        rt,
        workers,
        threads,
        &|i: usize, worker: &mut Worker|
            requires { IsShared N.constants hash rules.now × IsReady N.constants i worker.old }
            ensures { IsDone N.constants i worker.new }
        { run_caller(rt, alloc, hash, rules, i, book, gate, worker) },
    );
}

/// The passes and the answers of all callers. Memory has run out if a caller has no answers.
pub fn parted(
    alloc: Global,
    workers: Vec<Worker>,
) -> Result<(Vec<Pass<Entry>>, Vec<Answers>), OutOfMemory>
    ensures passes { IfOk result (λ r. r.0.items ≡ map pass_of workers.items) }
    ensures answers { IfOk result (λ r. map (λ a. Some a) r.1.items
        ≡ map answers_in workers.items) }
{
    let mut passes = Vec::new(alloc);
    let mut answers = Vec::new(alloc);
    for worker in workers {
        part(&mut passes, &mut answers, worker)?;
    }
    Ok((passes, answers))
}

// Appends the worker's pass and answers.
fn part(
    passes: &mut Vec<Pass<Entry>>,
    answers: &mut Vec<Answers>,
    worker: Worker,
) -> Result<(), OutOfMemory>
    ensures passes { OnOk result (passes.new.items ≡ passes.old.items ++ pass_of worker ∷ []) }
    ensures answers { OnOk result (map (λ a. Some a) answers.new.items
        ≡ map (λ a. Some a) answers.old.items ++ answers_in worker ∷ []) }
{
    let Worker {
        cred: _,
        lines: _,
        pass,
        answers: own,
    } = worker;
    let Some(own) = own else {
        return Err(OutOfMemory);
    };
    passes.push(pass)?;
    answers.push(own)?;
    Ok(())
}
