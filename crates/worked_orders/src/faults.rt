// Streams that fail, inputs that are too long, and words of many turns.

use crate::answers::answers;
use order_top::{DONE, MOST_INPUT, READ_FAULT, TOO_LONG, USAGE, WRITE_FAULT};
use std::alloc::{AllocError as OutOfMemory, Global};
use worked_calls::Call;

// What is told of words that are none of the forms.
const FORMS: &str = "usage: imakern_orders [N [FIRST]]\n";

/// What is tried with this script, whose answer is `whole`, and whether it holds.
pub fn tried(alloc: Global, script: &[u8], whole: &[u8]) -> [(&'static str, bool); 4] {
    [
        ("reading fails", reads_fail(alloc, script, whole)),
        ("writing fails", writes_fail(alloc, script, whole)),
        ("the longest input", limits_hold(alloc, script, whole)),
        ("the most first turns", turns_hold(alloc, script)),
    ]
}

// Whether a source that gives 32 bytes a call is read up to its end, and reading fails with the
// call that fails.
fn reads_fail(alloc: Global, input: &[u8], whole: &[u8]) -> bool {
    let last = input.len().div_ceil(32) as u64;
    for number in 0..=last {
        let call = Call {
            given: 32,
            read: number,
            room: whole.len(),
            ..Call::sound("", input)
        };
        if !answers(alloc, call, (READ_FAULT, b"", "read fault\n")) {
            return false;
        }
    }
    true
}

// Whether an output with room for so many bytes has taken just these.
fn room_ends(alloc: Global, input: &[u8], whole: &[u8], room: usize) -> bool {
    let Some(front) = whole.get(..room) else {
        return false;
    };
    let call = Call {
        room,
        taken: 10,
        ..Call::sound("", input)
    };
    answers(alloc, call, (WRITE_FAULT, front, "write fault\n"))
}

// Whether an output that has too little room takes just as many bytes as it has room for, and
// writing fails.
fn writes_fail(alloc: Global, input: &[u8], whole: &[u8]) -> bool {
    for room in &[0, 1, 30, 100] {
        if !room_ends(alloc, input, whole, *room) {
            return false;
        }
    }
    true
}

// The script after a comment line of so many bytes.
fn commented(alloc: Global, script: &[u8], bytes: usize) -> Result<Vec<u8>, OutOfMemory> {
    let mut input = vec![in alloc; b'#'; bytes]?;
    input.push(b'\n')?;
    input.extend_from_slice(script)?;
    Ok(input)
}

// Whether the script after a comment line of so many bytes has this outcome.
fn commented_answers(
    alloc: Global,
    script: &[u8],
    bytes: usize,
    wanted: (u8, &[u8], &str),
) -> bool {
    match commented(alloc, script, bytes) {
        Ok(input) => answers(alloc, Call::sound("", &input), wanted),
        Err(_) => false,
    }
}

// Whether an input of 4 MiB is answered, and one with a byte more isn't.
fn limits_hold(alloc: Global, script: &[u8], whole: &[u8]) -> bool {
    let most = MOST_INPUT.saturating_sub(script.len()).saturating_sub(1);
    let long = (TOO_LONG, b"".as_slice(), "input too long\n");
    commented_answers(alloc, script, most, (DONE, whole, ""))
        && commented_answers(alloc, script, most.saturating_add(1), long)
}

// Words that name so many turns of task 0, and before them the most moments.
fn words_of(alloc: Global, turns: usize) -> Result<String, OutOfMemory> {
    let others = ".0".repeat(alloc, turns.saturating_sub(1))?;
    format!(in alloc; "1000 0{others}")
}

// Whether a word of so many turns has this outcome.
fn turns_answer(alloc: Global, input: &[u8], turns: usize, wanted: (u8, &[u8], &str)) -> bool {
    match words_of(alloc, turns) {
        Ok(words) => answers(alloc, Call::sound(words.as_str(), input), wanted),
        Err(_) => false,
    }
}

// Whether a word may name 65,536 turns, and not one more.
fn turns_hold(alloc: Global, input: &[u8]) -> bool {
    let none = b"imakern orders 1\norders 0 outcomes 0\nend\n".as_slice();
    turns_answer(alloc, input, 65_536, (DONE, none, ""))
        && turns_answer(alloc, input, 65_537, (USAGE, b"", FORMS))
}
