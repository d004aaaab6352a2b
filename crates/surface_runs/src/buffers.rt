// Texts of buffers, the runs of their callers, and what is printed of them.

ghost use Rattle.std.specs.Prelude.{◌-◌, ◌<◌, ◌^◌, length};

use std::alloc::Global;
use std::sync::Wait;
use std::thread::Threads;

pub fn text_fields(text: &buffer_measure::BufferText, caller: &buffer_measure::BufferCaller) {
    let _: hash_algos::Algo = text.hash;
    let _: policy_text::Policy = text.rules;
    let _: Vec<buffer_measure::BufferCaller> = text.callers;
    let _: u32 = text.threads;
    let _: inode_meta::Cred = caller.cred;
    // "A text of buffers keeps the word of a value that is far shorter than its bytes"
    let _: Vec<(xattr_store::Bytes, buffer_measure::BufferBytes)> = caller.lines;
}

pub fn run_fields(run: &buffer_measure::BufferRun, answer: buffer_measure::Answer) {
    let _: Vec<ima_templates::Entry> = run.list;
    let _: pcr_bank::Banks = run.banks;
    let _: Vec<buffer_measure::Answers> = run.answers;
    match answer {
        buffer_measure::Answer::Skipped
        | buffer_measure::Answer::Added(_)
        | buffer_measure::Answer::Already(_) => {}
    }
}

// "The answers to a caller's buffers are a small type over a vector"
pub fn answers(answers: Vec<buffer_measure::Answer>) -> Vec<buffer_measure::Answer> {
    buffer_measure::Answers::from_vec(answers).into_vec()
}

pub fn parse(alloc: Global, b: &[u8]) -> Result<buffer_measure::BufferText, script_text::ScriptErr>
    requires { length b.now < 2 ^ 32 - 1 }
{
    buffer_measure::parse(alloc, b)
}

pub fn wanted(p: &policy_text::Policy, cred: &inode_meta::Cred) -> Option<u8> {
    buffer_measure::wanted(p, cred)
}

// "Only calls that take a lock or start threads take the runtime, before the allocator"
pub fn measure<G: ima_io::Gate + Sync, R: Threads + Wait + Sync>(
    rt: &R,
    alloc: Global,
    t: buffer_measure::BufferText,
    gate: &G,
) -> [Result<buffer_measure::BufferRun, buffer_measure::OutOfMemory>; 2] {
    [
        buffer_measure::measure_all(rt, alloc, &t, gate),
        buffer_measure::measure_owned(rt, alloc, t, gate),
    ]
}

pub fn print(
    alloc: Global,
    r: &buffer_measure::BufferRun,
) -> Result<Vec<u8>, buffer_measure::OutOfMemory> {
    buffer_measure::print(alloc, r)
}
