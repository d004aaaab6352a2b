// Many callers on many threads, all of which measure the same buffers.
use crate::gates::CaseGate;
use crate::spread::spread;
use buffer_measure::{Answer, Answers, BufferRun, BufferText, measure_all, parse};
use ima_io::FreeGate;
use script_text::ScriptErr;
use std::alloc::{AllocError as OutOfMemory, Global};
use std::sync::Wait;
use std::thread::Threads;

// How many callers there are, how many buffers each of them has, and how often they run.
const CALLERS: usize = 64;

const BUFFERS: usize = 512;

const RUNS: u32 = 100;

// One caller.
const CALLER: &str = "caller uid=0 euid=0 gid=0 egid=0\n{{0..512 critical b{} hex:\n}}";

// The text of the callers.
fn text(alloc: Global) -> Result<String, OutOfMemory> {
    let callers = spread(alloc, CALLER)?.as_str().repeat(alloc, CALLERS)?;
    format!(in alloc; "imabuffers 1\nrule measure func=CRITICAL_DATA\n{callers}threads 16\n")
}

// The place in the list that the answer to this buffer names.
fn place_of(answers: &Answers, buffer: usize) -> Option<u64> {
    match answers.as_slice().get(buffer).copied() {
        Some(Answer::Added(place)) | Some(Answer::Already(place)) => Some(place),
        _ => None,
    }
}

// How many of the callers have added this buffer.
fn additions(callers: &[Answers], buffer: usize) -> usize {
    let mut count = 0usize;
    for own in callers {
        if let Some(Answer::Added(_)) = own.as_slice().get(buffer).copied() {
            count = count.saturating_add(1);
        }
    }
    count
}

// Whether all callers name this place for the buffer.
fn all_name(callers: &[Answers], buffer: usize, place: u64) -> bool {
    for own in callers {
        if place_of(own, buffer) != Some(place) {
            return false;
        }
    }
    true
}

// The place that all callers name for this buffer, if just one of them has added it, or 0.
fn shared_place(callers: &[Answers], buffer: usize) -> u64 {
    let Some(own) = callers.first() else {
        return 0;
    };
    let place = place_of(own, buffer).unwrap_or(0);
    if all_name(callers, buffer, place) && additions(callers, buffer) == 1 {
        place
    } else {
        0
    }
}

// Whether each buffer has a place other than 0 that is free, which it takes.
fn each_takes_one(free: &mut [bool], callers: &[Answers]) -> bool {
    for buffer in 0..BUFFERS {
        let place = shared_place(callers, buffer);
        let Some(is_free) = free.get_mut(place as usize) else {
            return false;
        };
        if place == 0 || !*is_free {
            return false;
        }
        *is_free = false;
    }
    true
}

// Whether each buffer has an entry of its own, which one caller has added and all others found.
fn is_shared(alloc: Global, run: &BufferRun) -> bool {
    match vec![in alloc; true; run.list.len()] {
        Ok(mut free) => {
            each_takes_one(&mut free, &run.answers) && run.list.len() == BUFFERS.saturating_add(1)
        }
        Err(_) => false,
    }
}

// Whether a run has such a list.
fn run_is_shared<R: Threads + Wait + Sync>(rt: &R, alloc: Global, text: &BufferText) -> bool {
    match measure_all(rt, alloc, text, &FreeGate) {
        Ok(run) => is_shared(alloc, &run),
        Err(_) => false,
    }
}

// Whether each of the runs has such a list.
fn runs_are_shared<R: Threads + Wait + Sync>(rt: &R, alloc: Global, text: &BufferText) -> bool {
    for _ in 0..RUNS {
        if !run_is_shared(rt, alloc, text) {
            return false;
        }
    }
    true
}

// The callers of a text, which is short.
fn callers_of(alloc: Global, text: &str) -> Result<BufferText, ScriptErr> {
    let bytes = text.as_bytes();
    if bytes.len() > 1_000_000 {
        return Err(ScriptErr::OutOfMemory);
    }
    parse(alloc, bytes)
}

// The 64 callers.
fn all_callers(alloc: Global) -> Result<BufferText, ScriptErr> {
    let text = text(alloc)?;
    callers_of(alloc, text.as_str())
}

// Whether 64 callers on 16 threads share one list: each of its entries but the first was added by
// one of them, and all others have found it there, in each of a hundred runs. They don't if memory
// runs out.
fn buffers_are_shared<R: Threads + Wait + Sync>(rt: &R, alloc: Global) -> bool {
    match all_callers(alloc) {
        Ok(callers) => runs_are_shared(rt, alloc, &callers),
        Err(_) => false,
    }
}

// Two callers, each of which measures a buffer of its own.
const TWO: &str = "# meet\nimabuffers 1\n\
    rule measure func=CRITICAL_DATA\n\
    caller uid=0 euid=0 gid=0 egid=0\ncritical a txt:a\n\
    caller uid=0 euid=0 gid=0 egid=0\ncritical b txt:b\n\
    threads 2\n";

// Whether two callers that wait for each other before their first buffers meet there if
// `measure_all` is called without a command around it. They don't if memory runs out.
fn callers_meet<R: Threads + Wait + Sync>(rt: &R, alloc: Global) -> bool {
    let gate = CaseGate::of(TWO);
    match callers_of(alloc, TWO) {
        Ok(callers) => measure_all(rt, alloc, &callers, &gate).is_ok() && gate.is_well(),
        Err(_) => false,
    }
}

/// What is tried of callers side by side, and whether it holds.
pub fn tried<R: Threads + Wait + Sync>(rt: &R, alloc: Global) -> [(&'static str, bool); 2] {
    let alone = callers_meet(rt, alloc);
    let shared = buffers_are_shared(rt, alloc);
    [
        ("two of them meet without a command", alone),
        ("64 of them measure the same buffers", shared),
    ]
}
