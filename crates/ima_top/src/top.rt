// The top call: reads the words and the input, and writes the output or a note.
ghost use Rattle.std.specs.Prelude.{◌≡◌, ◌≢◌, ◌+◌, ◌<◌, ◌≤◌, ◌↔◌, ◌⊎◌, true, false, None, length, map, string_bytes, IfOk, IfErr, IfSome, OnOk, IsNone};
ghost use Rattle.std.specs.Io.KnownBytes.{IsAtEnd};
ghost use Rattle.command_line.specs.Words.{command_of};
ghost use Rattle.ima_io.specs.Counts.{Rose};
ghost use Rattle.ima_top.specs.commands.Table.{reads, refusal};
ghost use Rattle.ima_top.specs.Limits.{most_input};
ghost use Rattle.ima_top.specs.NotDone.{status_of, told_of};
ghost use Rattle.ima_top.specs.Served.{IsPastReading, IsStatus, OnInput, Performed, Serves, Told, input_left};
ghost use Rattle.ima_top.specs.Statuses as exit;
ghost use Rattle.ima_top.specs.Words.{reads_input};

use crate::commands::{answer_input, reads};
use crate::not_done::NotDone;
use crate::status::{
    DONE, OUT_OF_MEMORY, READ_FAULT, REFUSED, STUCK, TOO_LONG, USAGE, WRITE_FAULT,
};
use command_line::{Command, command_of};
use ima_io::{Gate, Sink, Source, read_all, write_all, write_pieces};
use std::alloc::Global;
use std::sync::Wait;
use std::thread::Threads;

/// The most bytes that an input may have: 4 MiB.
pub const MOST_INPUT: usize = 4_194_304;

// Reads the whole input of the command, or nothing if the command doesn't read any.
fn read_input<S: Source>(
    alloc: Global,
    command: Command,
    script: &mut S,
) -> Result<Vec<u8>, NotDone>
    ensures causes { IfErr result (λ why. (status_of (Err why) ≡ exit.read_fault)
        ⊎ (status_of (Err why) ≡ exit.too_long) ⊎ (status_of (Err why) ≡ exit.out_of_memory)) }
    ensures unread { reads command ≡ false → script.new ≡ script.old }
    ensures whole_input { reads command ≡ true → OnOk result (IsAtEnd (S.left script.new)) }
    ensures read_fault { IfErr result (λ why. status_of (Err why) ≡ exit.read_fault →
        Rose (S.faults script.old) (S.faults script.new)) }
    ensures input { OnInput (reads command) (S.left script.old) (S.left script.new) (λ input.
        (length input ≤ most_input + 1)
        × IfErr result (λ why. (status_of (Err why) ≡ exit.too_long) ↔ (most_input < length input))
        × IfOk result (λ bytes. (bytes.items ≡ input) × (length input ≤ most_input))) }
{
    if reads(command) {
        Ok(read_all(alloc, script, MOST_INPUT)?)
    } else {
        Ok(Vec::new(alloc))
    }
}

// Reads the whole input, computes the answer to it, and writes the whole output.
fn perform<S: Source, K: Sink, G: Gate + Sync, R: Threads + Wait + Sync>(
    rt: &R,
    alloc: Global,
    command: Command,
    script: &mut S,
    out: &mut K,
    gate: &G,
) -> Result<(), NotDone>
    ensures words { status_of result ≢ exit.usage }
    ensures unread { reads command ≡ false → script.new ≡ script.old }
    ensures whole_input { reads command ≡ true → IsPastReading (status_of result)
        → IsAtEnd (S.left script.new) }
    ensures read_fault { status_of result ≡ exit.read_fault
        → Rose (S.faults script.old) (S.faults script.new) }
    ensures input { OnInput (reads command) (S.left script.old) (S.left script.new) (λ input.
        (length input ≤ most_input + 1)
        × ((status_of result ≡ exit.too_long) ↔ (most_input < length input))
        × Performed command input (K.taken out.old) (K.taken out.new) result) }
    ensures unwritten { status_of result ≢ exit.done → status_of result ≢ exit.stuck
        → status_of result ≢ exit.write_fault → out.new ≡ out.old }
    ensures write_fault { status_of result ≡ exit.write_fault
        → Rose (K.faults out.old) (K.faults out.new) }
{
    let input = read_input(alloc, command, script)?;
    let answer = answer_input(rt, alloc, command, input, gate)?;
    write_pieces(out, &answer.output)?;
    if answer.stuck {
        Err(NotDone::Stuck)
    } else {
        Ok(())
    }
}

// Finds the command that the words name and performs it. If memory runs out while the words are
// parsed, nothing is read.
fn answer_words<S: Source, K: Sink, G: Gate + Sync, R: Threads + Wait + Sync>(
    rt: &R,
    alloc: Global,
    words: &[String],
    script: &mut S,
    out: &mut K,
    gate: &G,
) -> Result<(), NotDone>
    ensures usage { (status_of result ≡ exit.usage
        → IsNone (command_of (map string_bytes words.now)))
        × (IsNone (command_of (map string_bytes words.now))
        → (status_of result ≡ exit.usage) ⊎ (status_of result ≡ exit.out_of_memory)) }
    ensures unread { reads_input (command_of (map string_bytes words.now)) ≡ false
        → script.new ≡ script.old }
    ensures whole_input { reads_input (command_of (map string_bytes words.now)) ≡ true
        → IsPastReading (status_of result) → IsAtEnd (S.left script.new) }
    ensures read_fault { status_of result ≡ exit.read_fault
        → Rose (S.faults script.old) (S.faults script.new) }
    ensures input { IfSome (command_of (map string_bytes words.now)) (λ command.
        OnInput (reads command) (S.left script.old) (S.left script.new) (λ input.
        (length input ≤ most_input + 1)
        × ((status_of result ≡ exit.too_long) ↔ (most_input < length input))
        × Performed command input (K.taken out.old) (K.taken out.new) result)) }
    ensures unwritten { status_of result ≢ exit.done → status_of result ≢ exit.stuck
        → status_of result ≢ exit.write_fault → out.new ≡ out.old }
    ensures write_fault { status_of result ≡ exit.write_fault
        → Rose (K.faults out.old) (K.faults out.new) }
{
    match command_of(alloc, words)? {
        Some(command) => perform(rt, alloc, command, script, out, gate),
        None => Err(NotDone::Usage),
    }
}

// Writes the line to the note. A fault of the note doesn't change the status.
fn tell<N: Sink>(note: &mut N, line: &[u8])
    ensures { Told (N.faults note.old) (N.faults note.new)
        (N.taken note.old) (N.taken note.new) line.now }
{
    let _ = write_all(note, line);
}

/// Runs the command that the words name on the input that `script` gives, writes its output to
/// `out`, and returns the exit status. What went wrong is reported in one line on `note`; a fault
/// of `note` doesn't change the status.
///
/// The words don't include the program's name. Each step of a task passes `gate` first. If a script
/// ends in `threads`, its tasks run on threads of `rt`.
pub fn serve<S: Source, K: Sink, N: Sink, G: Gate + Sync, R: Threads + Wait + Sync>(
    rt: &R,
    alloc: Global,
    words: &[String],
    script: &mut S,
    out: &mut K,
    note: &mut N,
    gate: &G,
) -> u8
    ensures statuses { IsStatus result }

    // The words: `usage` is returned exactly if they don't name a command, unless memory runs out
    // while they are parsed. Neither then nor for a command that doesn't read is anything read.
    ensures usage { (result ≡ exit.usage → IsNone (command_of (map string_bytes words.now)))
        × (IsNone (command_of (map string_bytes words.now))
        → (result ≡ exit.usage) ⊎ (result ≡ exit.out_of_memory)) }
    ensures unread { reads_input (command_of (map string_bytes words.now)) ≡ false
        → script.new ≡ script.old }

    // The input: a command that reads it reads it to its end, except with the statuses
    // `read_fault`, `too_long` and `out_of_memory`.
    ensures whole_input { reads_input (command_of (map string_bytes words.now)) ≡ true
        → IsPastReading result → IsAtEnd (S.left script.new) }
    ensures read_fault { result ≡ exit.read_fault
        → Rose (S.faults script.old) (S.faults script.new) }

    // What the status says about the input, the output that was written, and the line that refuses
    // the input.
    ensures served { IfSome (command_of (map string_bytes words.now)) (λ command.
        OnInput (reads command) (S.left script.old) (S.left script.new) (λ input.
        Serves command input result (K.taken out.old) (K.taken out.new)
        (Told (N.faults note.old) (N.faults note.new) (N.taken note.old) (N.taken note.new)))) }

    // The output: nothing is written before the whole output is known.
    ensures unwritten { result ≢ exit.done → result ≢ exit.stuck → result ≢ exit.write_fault
        → out.new ≡ out.old }
    ensures write_fault { result ≡ exit.write_fault → Rose (K.faults out.old) (K.faults out.new) }

    // The note: it takes the status's line, or fails and takes a prefix of it.
    ensures untold { result ≡ exit.done → note.new ≡ note.old }
    ensures told { result ≢ exit.done → result ≢ exit.refused →
        Told (N.faults note.old) (N.faults note.new)
        (N.taken note.old) (N.taken note.new) (told_of result) }

    // If no stream fails, an input in the command's grammar is answered, unless memory runs out.
    ensures complete { IfSome (command_of (map string_bytes words.now)) (λ command.
        IfSome (input_left (reads command) (S.left script.old)) (λ input.
        length input ≤ most_input → refusal command input ≡ None →
        (result ≡ exit.done) ⊎ (result ≡ exit.stuck) ⊎ (result ≡ exit.out_of_memory)
        ⊎ Rose (S.faults script.old) (S.faults script.new)
        ⊎ Rose (K.faults out.old) (K.faults out.new))) }
{
    match answer_words(rt, alloc, words, script, out, gate) {
        Ok(()) => DONE,
        Err(why) => {
            tell(note, why.line());
            why.status()
        }
    }
}
