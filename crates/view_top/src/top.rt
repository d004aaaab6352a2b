// The top call: reads the words and the input, and writes the page or a note.

ghost use Rattle.std.specs.Prelude.{◌≡◌, ◌≢◌, ◌+◌, ◌<◌, ◌≤◌, ◌↔◌, ◌⊎◌, length, map, string_bytes, IfOk, IfErr, IfSome, OnOk, IsNone};
ghost use Rattle.std.specs.Io.KnownBytes.{IsAtEnd};
ghost use Rattle.ima_io.specs.Bytes.{Gave};
ghost use Rattle.ima_io.specs.Counts.{Rose};
ghost use Rattle.view_top.specs.Answer.{answer_of};
ghost use Rattle.view_top.specs.Limits.{most_input};
ghost use Rattle.view_top.specs.NotDone.{status_of, told_of};
ghost use Rattle.view_top.specs.Served.{IsPastReading, IsStatus, Performed, Serves, Told, status_by};
ghost use Rattle.view_top.specs.Statuses as exit;
ghost use Rattle.view_top.specs.Words.{AsksForInode, command_of};

use crate::answer::answer;
use crate::command::{Command, command_of};
use crate::not_done::NotDone;
use crate::status::DONE;
use ima_io::{Sink, Source, read_all, write_all};
use std::alloc::Global;

/// The most bytes that an input may have: 128 MiB.
pub const MOST_INPUT: usize = 134_217_728;

// Reads the whole input.
fn read_input<S: Source>(alloc: Global, report: &mut S) -> Result<Vec<u8>, NotDone>
    ensures causes { IfErr result (λ why. (status_of (Err why) ≡ exit.read_fault)
        ⊎ (status_of (Err why) ≡ exit.too_long) ⊎ (status_of (Err why) ≡ exit.out_of_memory)) }
    ensures whole_input { OnOk result (IsAtEnd (S.left report.new)) }
    ensures read_fault { IfErr result (λ why. status_of (Err why) ≡ exit.read_fault →
        Rose (S.faults report.old) (S.faults report.new)) }
    ensures input { Gave (S.left report.old) (S.left report.new) (λ input.
        (length input ≤ most_input + 1)
        × IfErr result (λ why. (status_of (Err why) ≡ exit.too_long) ↔ (most_input < length input))
        × IfOk result (λ bytes. (bytes.items ≡ input) × (length input ≤ most_input))) }
{
    Ok(read_all(alloc, report, MOST_INPUT)?)
}

// Reads the whole input, makes the page, and writes the whole of it.
fn perform<S: Source, K: Sink>(
    alloc: Global,
    command: Command,
    report: &mut S,
    out: &mut K,
) -> Result<(), NotDone>
    ensures words { status_of result ≢ exit.usage }
    ensures placed { status_of result ≡ exit.no_place → AsksForInode command }
    ensures whole_input { IsPastReading (status_of result) → IsAtEnd (S.left report.new) }
    ensures read_fault { status_of result ≡ exit.read_fault
        → Rose (S.faults report.old) (S.faults report.new) }
    ensures input { Gave (S.left report.old) (S.left report.new) (λ input.
        (length input ≤ most_input + 1)
        × ((status_of result ≡ exit.too_long) ↔ (most_input < length input))
        × Performed (answer_of command input) (K.taken out.old) (K.taken out.new) result) }
    ensures unwritten { status_of result ≢ exit.done → status_of result ≢ exit.write_fault
        → out.new ≡ out.old }
    ensures write_fault { status_of result ≡ exit.write_fault
        → Rose (K.faults out.old) (K.faults out.new) }
{
    let input = read_input(alloc, report)?;
    let page = answer(alloc, command, &input)?;
    write_all(out, &page)?;
    Ok(())
}

// Finds what the words ask for and performs it.
fn answer_words<S: Source, K: Sink>(
    alloc: Global,
    words: &[String],
    report: &mut S,
    out: &mut K,
) -> Result<(), NotDone>
    ensures usage { (status_of result ≡ exit.usage)
        ↔ IsNone (command_of (map string_bytes words.now)) }
    ensures unread { status_of result ≡ exit.usage → report.new ≡ report.old }
    ensures placed { status_of result ≡ exit.no_place
        → IfSome (command_of (map string_bytes words.now)) AsksForInode }
    ensures whole_input { IsPastReading (status_of result) → IsAtEnd (S.left report.new) }
    ensures read_fault { status_of result ≡ exit.read_fault
        → Rose (S.faults report.old) (S.faults report.new) }
    ensures input { IfSome (command_of (map string_bytes words.now)) (λ command.
        Gave (S.left report.old) (S.left report.new) (λ input.
        (length input ≤ most_input + 1)
        × ((status_of result ≡ exit.too_long) ↔ (most_input < length input))
        × Performed (answer_of command input) (K.taken out.old) (K.taken out.new) result)) }
    ensures unwritten { status_of result ≢ exit.done → status_of result ≢ exit.write_fault
        → out.new ≡ out.old }
    ensures write_fault { status_of result ≡ exit.write_fault
        → Rose (K.faults out.old) (K.faults out.new) }
{
    match command_of(words) {
        Some(command) => perform(alloc, command, report, out),
        None => Err(NotDone::Usage),
    }
}

// Writes the line to the note. A fault of the note doesn't change the status.
fn tell<N: Sink>(note: &mut N, line: &[u8])
    ensures { Told (N.faults note.old) (N.faults note.new)
        (N.taken note.old) (N.taken note.new) line.now }
{
    let _ = write_all(note, line);
}

/// Draws what the words ask for of the report that `report` gives, writes the page to `out`, and
/// returns the exit status. What went wrong is reported in one line on `note`; a fault of `note`
/// doesn't change the status. The words don't include the program's name.
pub fn serve_view<S: Source, K: Sink, N: Sink>(
    alloc: Global,
    words: &[String],
    report: &mut S,
    out: &mut K,
    note: &mut N,
) -> u8
    ensures statuses { IsStatus result }

    // The words: `usage` is returned exactly if they are none of the program's forms, and then
    // nothing is read. `no_place` is returned only if they ask for an inode.
    ensures usage { (result ≡ exit.usage) ↔ IsNone (command_of (map string_bytes words.now)) }
    ensures unread { result ≡ exit.usage → report.new ≡ report.old }
    ensures placed { result ≡ exit.no_place
        → IfSome (command_of (map string_bytes words.now)) AsksForInode }

    // The input: it is read to its end, except with the statuses `usage`, `read_fault`, `too_long`
    // and `out_of_memory`.
    ensures whole_input { IsPastReading result → IsAtEnd (S.left report.new) }
    ensures read_fault { result ≡ exit.read_fault
        → Rose (S.faults report.old) (S.faults report.new) }

    // What the status says about the input, the page that was written, and the line that refuses
    // the input.
    ensures served { IfSome (command_of (map string_bytes words.now)) (λ command.
        Gave (S.left report.old) (S.left report.new) (λ input.
        Serves (answer_of command input) input result (K.taken out.old) (K.taken out.new)
        (Told (N.faults note.old) (N.faults note.new) (N.taken note.old) (N.taken note.new)))) }

    // The output: nothing is written before the whole page is known.
    ensures unwritten { result ≢ exit.done → result ≢ exit.write_fault → out.new ≡ out.old }
    ensures write_fault { result ≡ exit.write_fault → Rose (K.faults out.old) (K.faults out.new) }

    // The note: it takes the status's line, or fails and takes a prefix of it.
    ensures untold { result ≡ exit.done → note.new ≡ note.old }
    ensures told { result ≢ exit.done → result ≢ exit.refused →
        Told (N.faults note.old) (N.faults note.new)
        (N.taken note.old) (N.taken note.new) (told_of result) }

    // If no stream fails, the status is that of the answer to the input, unless memory runs out.
    ensures complete { IfSome (command_of (map string_bytes words.now)) (λ command.
        IfSome (S.left report.old) (λ input. length input ≤ most_input →
        (result ≡ status_by (answer_of command input)) ⊎ (result ≡ exit.out_of_memory)
        ⊎ Rose (S.faults report.old) (S.faults report.new)
        ⊎ Rose (K.faults out.old) (K.faults out.new))) }
{
    match answer_words(alloc, words, report, out) {
        Ok(()) => DONE,
        Err(why) => {
            tell(note, why.line());
            why.status()
        }
    }
}
