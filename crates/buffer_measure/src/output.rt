//! The output of a run of buffers.

ghost use Rattle.std.specs.Prelude.{◌≡◌, ◌∷◌, ◌++◌, length, IfOk, OnOk};
ghost use Rattle.std.specs.List.{join_with_byte};
ghost use Rattle.report_text.specs.Numerals.{numeral};
ghost use Rattle.report_text.specs.Texts.{line_text};
ghost use Rattle.script_text.specs.events.forms.Words.{text_of};
ghost use Rattle.buffer_measure.specs.Parts.{entries_text};
ghost use Rattle.buffer_measure.specs.Print.{all_caller_lines, answer_lines, answer_words, caller_lines, head_lines, printed, rest_lines};

use crate::answer::Answer;
use crate::answers::Answers;
use crate::parts::push_lines;
use crate::run::BufferRun;
use ima_io::Pieces;
use ima_templates::Entry;
use measure_book::registers::Banks;
use report_text::{push_entries, push_number, push_numbers, push_registers};
use std::alloc::{AllocError as OutOfMemory, Global};
use std::thread::Threads;

/// Prints a run in lines that end in a newline: its list, in the form of
/// `ascii_runtime_measurements`, the registers that an entry extends, and each caller with its
/// answers.
pub fn print(alloc: Global, r: &BufferRun) -> Result<Vec<u8>, OutOfMemory>
    ensures { IfOk result (λ out. out.items ≡ printed r.now) }
{
    let mut out = Vec::new(alloc);
    let list = r.list.as_slice();
    push_head(&mut out, list.len() as u64)?;
    push_entries(&mut out, list)?;
    push_rest(&mut out, list, &r.banks, r.answers.as_slice())?;
    Ok(out)
}

/// Prints a run as [`print`] does, in pieces, and consumes it. The lines of the list are made in at
/// most `threads` parts, each on a thread of its own if one can be created.
pub fn print_in_pieces<R: Threads + Sync>(
    rt: &R,
    alloc: Global,
    r: BufferRun,
    threads: usize,
) -> Result<Pieces, OutOfMemory>
    ensures { IfOk result (λ out. out ≡ printed r) }
{
    let head = head_of(alloc, &r)?;
    let rest = rest_of(alloc, &r)?;
    in_pieces(rt, alloc, head, r.list, rest, threads)
}

// The first two lines.
fn head_of(alloc: Global, r: &BufferRun) -> Result<Vec<u8>, OutOfMemory>
    ensures { IfOk result (λ out. out.items ≡ text_of (head_lines (length r.now.list))) }
{
    let mut out = Vec::new(alloc);
    push_head(&mut out, r.list.len() as u64)?;
    Ok(out)
}

// The lines after the list.
fn rest_of(alloc: Global, r: &BufferRun) -> Result<Vec<u8>, OutOfMemory>
    ensures { IfOk result (λ out. out.items
        ≡ text_of (rest_lines r.now.list r.now.banks r.now.answers)) }
{
    let mut out = Vec::new(alloc);
    push_rest(&mut out, r.list.as_slice(), &r.banks, r.answers.as_slice())?;
    Ok(out)
}

// The lines of the list between those before and after them.
fn in_pieces<R: Threads + Sync>(
    rt: &R,
    alloc: Global,
    head: Vec<u8>,
    list: Vec<Entry>,
    rest: Vec<u8>,
    threads: usize,
) -> Result<Pieces, OutOfMemory>
    ensures { IfOk result (λ out. out ≡ (head.items ++ entries_text list.items) ++ rest.items) }
{
    let mut out = Pieces::new(alloc);
    out.push(head)?;
    push_lines(rt, alloc, &mut out, list, threads)?;
    out.push(rest)?;
    Ok(out)
}

// Prints the lines after the list: the registers, the callers and `end`.
fn push_rest(
    out: &mut Vec<u8>,
    list: &[Entry],
    banks: &Banks,
    callers: &[Answers],
) -> Result<(), OutOfMemory>
    ensures { OnOk result (out.new.items
        ≡ out.old.items ++ text_of (rest_lines list.now banks.now callers.now)) }
{
    push_registers(out, list, banks)?;
    push_callers(out, callers)?;
    out.extend_from_slice(b"end\n")?;
    Ok(())
}

// Prints the first two lines, of a run whose list has this number of entries.
fn push_head(out: &mut Vec<u8>, entries: u64) -> Result<(), OutOfMemory>
    ensures { OnOk result (out.new.items ≡ out.old.items ++ text_of (head_lines entries)) }
{
    out.extend_from_slice(b"imakern buffers 1\n")?;
    push_numbers(out, b"list", &[entries])?;
    out.extend_from_slice(b" violations 0\n")?;
    Ok(())
}

fn push_callers(out: &mut Vec<u8>, callers: &[Answers]) -> Result<(), OutOfMemory>
    ensures { OnOk result (out.new.items
        ≡ out.old.items ++ text_of (all_caller_lines 0 callers.now)) }
{
    for (number, answers) in callers.iter().enumerate() {
        push_caller(out, number as u64, answers.as_slice())?;
    }
    Ok(())
}

fn push_caller(out: &mut Vec<u8>, number: u64, answers: &[Answer]) -> Result<(), OutOfMemory>
    ensures { OnOk result (out.new.items
        ≡ out.old.items ++ text_of (caller_lines number answers.now)) }
{
    push_numbers(out, b"caller", &[number])?;
    out.extend_from_slice(b"\n")?;
    push_answers(out, answers)?;
    Ok(())
}

// Prints a caller's answers, each with the number of its buffer.
fn push_answers(out: &mut Vec<u8>, answers: &[Answer]) -> Result<(), OutOfMemory>
    ensures { OnOk result (out.new.items
        ≡ out.old.items ++ text_of (answer_lines 0 answers.now)) }
{
    for (number, answer) in answers.iter().enumerate() {
        push_line(out, number as u64, answer)?;
    }
    Ok(())
}

fn push_line(out: &mut Vec<u8>, number: u64, answer: &Answer) -> Result<(), OutOfMemory>
    ensures { OnOk result (out.new.items
        ≡ out.old.items ++ line_text (numeral number ∷ answer_words answer.now)) }
{
    push_number(out, number)?;
    out.extend_from_slice(b" ")?;
    push_answer(out, *answer)?;
    out.extend_from_slice(b"\n")?;
    Ok(())
}

fn push_answer(out: &mut Vec<u8>, answer: Answer) -> Result<(), OutOfMemory>
    ensures { OnOk result (out.new.items
        ≡ out.old.items ++ join_with_byte 32 (answer_words answer)) }
{
    match answer {
        Answer::Skipped => out.extend_from_slice(b"skipped"),
        Answer::Added(place) => push_numbers(out, b"added", &[place]),
        Answer::Already(place) => push_numbers(out, b"already", &[place]),
    }
}
