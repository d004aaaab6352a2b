//! Worked runs: the commands on sources and sinks in memory, with the inputs of
//! `worked_cases/data/runs`.
//!
//! Each file of that folder is a family of cases: an input, and what the command has to answer.
//! What a case must write comes from outside: from a second program that follows `docs/RULES.md`
//! and `docs/FORMATS.md`, with the digests of Python's hashlib. The causes of refused lines, of
//! which `settings`, `files`, `tasks`, `causes`, `words` and `over_limits` are full, were read off
//! `docs/FORMATS.md` by hand. Two families have other sources. The cases of `kernels` were run on
//! Debian's Linux kernels under qemu, with the versions and boot words that the first line of each
//! script names: they have the kernel's measurement list, the registers that follow from it, and
//! the first word of each reply. Those of `examples` repeat the files of `examples/` and what this
//! program made of them; `bench/examples.py` compares the copies.
//!
//! In the five families of causes the name of a refused case begins with its cause, and goes on
//! with the lines that matter: those of a file, a file system or a task by the words in which they
//! differ from a plain one. A case that is `accepted` has no end, and so is refused for that alone,
//! on the line after its last.
//!
//! `spread` and `cases` read a family, `answers` calls `serve`, and `gates` has the gates that the
//! first line of an input names: one that fixes the order in which the steps of threads come, one
//! that sees which steps pass it, and one at which two tasks or callers wait for each other.
//! `faults` cuts the input of the first case short, fails its reads and writes, and makes it too
//! long; `callers` has 64 callers measure the same buffers on 16 threads; `locks` makes steps on
//! one file while another is held.
#![tactic(auto)]

mod answers;
mod callers;
mod cases;
mod faults;
mod gates;
mod locks;
mod numbers;
mod spread;

use crate::answers::answer_over;
use crate::cases::Case;
use crate::gates::CaseGate;
use crate::spread::spread;
use std::alloc::{AllocError as OutOfMemory, Global};
use std::sync::Wait;
use std::thread::Threads;
use std::{fs, io, str};
use worked_calls::{Outcome, all_hold, cut, row};

// The families, and how often each of their cases is run. Those of `repeats` run on threads, and
// the order of their steps is fixed, so the whole report is the same however the threads fall.
static FAMILIES: [(&str, u32); 29] = [
    ("measuring", 1),
    ("violations", 1),
    ("appraisal", 1),
    ("refusals", 1),
    ("attributes", 1),
    ("deeds", 1),
    ("calls", 1),
    ("growing", 1),
    ("buffers", 1),
    ("carry", 1),
    ("audit", 1),
    ("loads", 1),
    ("labels", 1),
    ("lists", 1),
    ("policies", 1),
    ("summaries", 1),
    ("limits", 1),
    ("settings", 1),
    ("files", 1),
    ("tasks", 1),
    ("causes", 1),
    ("over_limits", 1),
    ("words", 1),
    ("kernels", 1),
    ("examples", 1),
    ("threads", 1),
    ("orders", 1),
    ("repeats", 1000),
    ("gates", 1),
];

/// Prints a line for each case, and returns whether all hold. `rt` starts the threads, and `files`
/// reads the cases.
pub fn hold<R: Print + Threads + Wait + Sync>(rt: &R, files: &HostRuntime) -> io::Result<bool> {
    let mut all = true;
    for (family, times) in &FAMILIES {
        let text = text_of(files, family)?;
        all &= family_holds(rt, files.alloc(), family, *times, text.as_str())?;
    }
    let text = text_of(files, "measuring")?;
    all &= others_hold(rt, files.alloc(), &first_of(text.as_str()))?;
    Ok(all)
}

// The text of the family's file, with what it repeats.
fn text_of(files: &HostRuntime, family: &str) -> io::Result<String> {
    let name = format!(in files.alloc(); "runs/{family}.cases")?;
    let text = fs::read_to_string(files, name.as_str())?;
    Ok(spread(files.alloc(), text.as_str())?)
}

// Runs each case of the family `times` times, and returns whether all hold.
fn family_holds<R: Print + Threads + Wait + Sync>(
    rt: &R,
    alloc: Global,
    family: &str,
    times: u32,
    text: &str,
) -> io::Result<bool> {
    let mut all = true;
    let (_, cases) = cut(text, ">>> ");
    for text in cases.split(">>> ") {
        all &= text_holds(rt, alloc, family, times, text)?;
    }
    Ok(all)
}

// Runs the case of this text so often, and prints what it answers if that differs.
fn text_holds<R: Print + Threads + Wait + Sync>(
    rt: &R,
    alloc: Global,
    family: &str,
    times: u32,
    text: &str,
) -> io::Result<bool> {
    let case = Case::of(text);
    for _ in 0..times {
        if let Some(got) = differing(rt, alloc, &case)? {
            return tell(rt, family, case.name, &got);
        }
    }
    row(rt, family, case.name, true)
}

// Runs the case once. Returns what it answers if that, or the order of steps, differs.
fn differing<R: Threads + Wait + Sync>(
    rt: &R,
    alloc: Global,
    case: &Case<'_>,
) -> Result<Option<Outcome>, OutOfMemory> {
    let gate = CaseGate::of(case.input);
    let got = answer_over(rt, alloc, case.call(), &gate)?;
    if case.holds(&got) && gate.is_well() {
        return Ok(None);
    }
    Ok(Some(got))
}

// Prints an outcome that differs, and returns that the case doesn't hold.
fn tell(rt: &impl Print, family: &str, name: &str, got: &Outcome) -> io::Result<bool> {
    let (out, note) = (shown(got.out()), shown(got.note()));
    println!(rt; "{family}: {name}: DIFFERS: {}\n{out}{note}", got.status)?;
    Ok(false)
}

// The text that the bytes are.
fn shown(bytes: &[u8]) -> &str {
    str::from_utf8(bytes).unwrap_or("bytes that are no text")
}

// The first case of this text.
fn first_of(text: &str) -> Case<'_> {
    let (_, cases) = cut(text, ">>> ");
    let (first, _) = cut(cases, ">>> ");
    Case::of(first)
}

// Whether all else holds: the faults, tried on this case, the callers and the files.
fn others_hold<R: Print + Threads + Wait + Sync>(
    rt: &R,
    alloc: Global,
    case: &Case<'_>,
) -> io::Result<bool> {
    let mut all = all_hold(rt, "faults", &faults::tried(rt, alloc, case))?;
    all &= all_hold(rt, "callers", &callers::tried(rt, alloc))?;
    let apart = locks::inodes_are_apart(rt, alloc);
    all &= row(rt, "locks", "each file has its own", apart)?;
    Ok(all)
}
