// Faults of reading, writing and telling, and scripts that are cut short or too long.
use crate::answers::answers;
use crate::cases::Case;
use ima_top::{DONE, MOST_INPUT, READ_FAULT, REFUSED, TOO_LONG, WRITE_FAULT};
use std::alloc::{AllocError as OutOfMemory, Global};
use std::sync::Wait;
use std::thread::Threads;
use worked_calls::{Call, NEVER, cut, ends_of};

/// What is tried with the case, which is a script that runs to its end, and whether every try ends
/// as it has to. It does not if memory runs out.
pub fn tried<R: Threads + Wait + Sync>(
    rt: &R,
    alloc: Global,
    case: &Case<'_>,
) -> [(&'static str, bool); 6] {
    [
        ("a read that fails", reads_fail(rt, alloc, case)),
        ("a write that fails", writes_fail(rt, alloc, case)),
        ("an output with too little room", rooms_end(rt, alloc, case)),
        ("a note that fails", notes_fail(rt, alloc, case)),
        (
            "a script that is cut short",
            cuts_are_refused(rt, alloc, case),
        ),
        ("an input at its limit", limits_hold(rt, alloc, case)),
    ]
}

// The outcome of the case.
fn whole<'a>(case: &Case<'a>) -> (u8, &'a [u8], &'static str) {
    (DONE, case.out.as_bytes(), "")
}

// A source that gives 32 bytes a call and fails at this one, and an output with just enough room.
fn failing_read<'a>(case: &Case<'a>, number: u64) -> Call<'a> {
    Call {
        given: 32,
        read: number,
        room: case.out.len(),
        ..case.call()
    }
}

// A fault at any call up to the one that tells the end; no call is made after that.
fn reads_fail<R: Threads + Wait + Sync>(rt: &R, alloc: Global, case: &Case<'_>) -> bool {
    let last = case.input.len().div_ceil(32) as u64;
    for number in 0..=last {
        let wanted = (READ_FAULT, b"".as_slice(), "read fault\n");
        if !answers(rt, alloc, failing_read(case, number), wanted) {
            return false;
        }
    }
    let after = failing_read(case, last.saturating_add(1));
    answers(rt, alloc, after, whole(case))
}

// An output with this room, that takes so many bytes a call and fails at this one.
fn failing_write<'a>(case: &Case<'a>, room: usize, taken: usize, number: u64) -> Call<'a> {
    Call {
        room,
        taken,
        write: number,
        ..case.call()
    }
}

// Whether such an output has taken just the front of what is written.
fn write_fails<R: Threads + Wait + Sync>(
    rt: &R,
    alloc: Global,
    call: Call<'_>,
    front: &[u8],
) -> bool {
    answers(rt, alloc, call, (WRITE_FAULT, front, "write fault\n"))
}

// A fault at any byte, over an output that takes one a call: what was taken before stays taken.
fn writes_fail<R: Threads + Wait + Sync>(rt: &R, alloc: Global, case: &Case<'_>) -> bool {
    let out = case.out.as_bytes();
    for taken in 0..out.len() {
        let call = failing_write(case, out.len(), 1, taken as u64);
        if !write_fails(rt, alloc, call, &out[..taken]) {
            return false;
        }
    }
    let after = failing_write(case, out.len(), 1, out.len() as u64);
    answers(rt, alloc, after, whole(case))
}

// An output that is full after 30 bytes, and one whose fourth call of 10 bytes fails.
fn rooms_end<R: Threads + Wait + Sync>(rt: &R, alloc: Global, case: &Case<'_>) -> bool {
    let Some(front) = case.out.as_bytes().get(..30) else {
        return false;
    };
    write_fails(rt, alloc, failing_write(case, 30, 10, NEVER), front)
        && write_fails(rt, alloc, failing_write(case, case.out.len(), 10, 3), front)
}

// A note that fails at once, on a script without its last line, which is `rounds`.
fn notes_fail<R: Threads + Wait + Sync>(rt: &R, alloc: Global, case: &Case<'_>) -> bool {
    let (front, _) = cut(case.input, "rounds\n");
    let call = Call {
        tell: 0,
        ..Call::sound(case.words, front.as_bytes())
    };
    answers(rt, alloc, call, (REFUSED, b"", ""))
}

// What is told of a beginning of a script: the line that isn't there is the first bad one.
fn told_of(alloc: Global, front: &[u8]) -> Result<String, OutOfMemory> {
    let line = ends_of(front).saturating_add(1);
    format!(in alloc; "line {line}: no-end\n")
}

// A beginning of the script.
fn is_refused<R: Threads + Wait + Sync>(
    rt: &R,
    alloc: Global,
    case: &Case<'_>,
    front: &[u8],
) -> bool {
    match told_of(alloc, front) {
        Ok(told) => {
            let call = Call::sound(case.words, front);
            answers(rt, alloc, call, (REFUSED, b"", told.as_str()))
        }
        Err(_) => false,
    }
}

// Every beginning of the script, and the whole.
fn cuts_are_refused<R: Threads + Wait + Sync>(rt: &R, alloc: Global, case: &Case<'_>) -> bool {
    let script = case.input.as_bytes();
    for at in 0..script.len() {
        if !is_refused(rt, alloc, case, &script[..at]) {
            return false;
        }
    }
    answers(rt, alloc, case.call(), whole(case))
}

// The script after a comment line of so many bytes.
fn commented(alloc: Global, script: &str, bytes: usize) -> Result<String, OutOfMemory> {
    let comment = "#".repeat(alloc, bytes)?;
    format!(in alloc; "{comment}\n{script}")
}

// Whether the script after a comment line of so many bytes has this outcome, in one piece and with
// just enough room for the output.
fn commented_answers<R: Threads + Wait + Sync>(
    rt: &R,
    alloc: Global,
    case: &Case<'_>,
    bytes: usize,
    wanted: (u8, &[u8], &str),
) -> bool {
    match commented(alloc, case.input, bytes) {
        Ok(input) => {
            let call = Call {
                given: usize::MAX,
                room: case.out.len(),
                ..Call::sound(case.words, input.as_bytes())
            };
            answers(rt, alloc, call, wanted)
        }
        Err(_) => false,
    }
}

// An input of as many bytes as there may be, of one byte more, and of far more.
fn limits_hold<R: Threads + Wait + Sync>(rt: &R, alloc: Global, case: &Case<'_>) -> bool {
    let most = MOST_INPUT
        .saturating_sub(case.input.len())
        .saturating_sub(1);
    let long = (TOO_LONG, b"".as_slice(), "input too long\n");
    commented_answers(rt, alloc, case, most, whole(case))
        && commented_answers(rt, alloc, case, most.saturating_add(1), long)
        && commented_answers(rt, alloc, case, MOST_INPUT, long)
}
