// The call that the program makes: reads the words and the script, and writes the rows or a note.
ghost use Rattle.std.specs.Prelude.{◌≡◌, ◌≢◌, ◌+◌, ◌<◌, ◌≤◌, ◌↔◌, ◌⊎◌, None, length, map, string_bytes, IfOk, IfErr, IfSome, OnOk, IsNone};
ghost use Rattle.std.specs.Io.KnownBytes.{IsAtEnd};
ghost use Rattle.ima_io.specs.Counts.{Rose};
ghost use Rattle.order_runs.specs.outcomes.scripts.Limits.{most_turns};
ghost use Rattle.order_top.specs.Limits.{most_first, most_input};
ghost use Rattle.order_top.specs.NotDone.{bad_line, refusal, status_of, told_of, too_many_line};
ghost use Rattle.order_top.specs.Served.{Answers, AreSortedRows, IsMade, IsPastReading, IsStatus, IsTableText, OnInput, Performed, Serves, Told};
ghost use Rattle.order_top.specs.Statuses as exit;
ghost use Rattle.order_top.specs.Words.{asked_of, asked_value, asking};

use crate::not_done::NotDone;
use crate::sorting::sorted;
use crate::status::DONE;
use crate::text::{table_text, total_of};
use crate::words::{Asked, asked_of};
use ima_io::{Sink, Source, read_all, write_all};
use order_runs::{Part, Play, Row, Stopped, rows_of};
use script_text::{Fault, ScriptErr};
use std::alloc::{AllocError as OutOfMemory, Global};
use xattr_store::Bytes;

/// The most bytes that a script may have: 4 MiB.
pub const MOST_INPUT: usize = 4_194_304;

// The fault as a line `line L: CAUSE`.
fn bad_line(alloc: Global, fault: Fault) -> Result<Vec<u8>, OutOfMemory>
    ensures { IfOk result (λ line. line.items ≡ bad_line fault) }
{
    let line = format!(in alloc; "line {}: {}\n", fault.line, fault.cause)?;
    Ok(line.into_bytes())
}

// The line for a script that has too much for this many moments.
fn too_many_line(alloc: Global, most: usize) -> Result<Vec<u8>, OutOfMemory>
    ensures { IfOk result (λ line. line.items ≡ too_many_line most) }
{
    let line = format!(in alloc; "more than {} moments\n", most)?;
    Ok(line.into_bytes())
}

// The rows of the part, in the order in which they are printed.
fn sorted_rows(alloc: Global, part: &Part, most: usize) -> Result<Vec<Row>, NotDone>
    requires { length part.now.first.items ≤ most_turns }
    ensures { IsMade part.now.play (asking most part.now.first.items)
        (λ rows. AreSortedRows part.now.play part.now.first.items rows.items) result }
{
    match rows_of(alloc, part, most) {
        Ok(rows) => Ok(sorted(alloc, rows)?),
        Err(Stopped::TooMany) => Err(NotDone::TooMany(too_many_line(alloc, most)?)),
        Err(Stopped::OutOfMemory) => Err(NotDone::OutOfMemory),
    }
}

// The text of the rows of the part.
fn table(alloc: Global, part: &Part, most: usize) -> Result<Bytes, NotDone>
    requires { length part.now.first.items ≤ most_turns }
    ensures { IsMade part.now.play (asking most part.now.first.items)
        (IsTableText part.now.play part.now.first.items) result }
{
    let rows = sorted_rows(alloc, part, most)?;
    let Some(total) = total_of(rows.as_slice()) else {
        return Err(NotDone::TooMany(too_many_line(alloc, most)?));
    };
    let text = table_text(alloc, total, part.first.as_slice(), rows.as_slice())?;
    Ok(Bytes::from_vec(text))
}

// The text of the rows of the script that the input is.
fn answer(alloc: Global, input: Bytes, asked: Asked) -> Result<Bytes, NotDone>
    requires input { length input ≤ most_input }
    requires first { length asked.first.items ≤ most_first }
    ensures { Answers (asked_value asked) input result }
{
    let Asked { most, first } = asked;
    match Play::read(alloc, input) {
        Ok(play) => table(alloc, &Part { play, first }, most),
        Err(ScriptErr::Refused(fault)) => Err(NotDone::Refused(bad_line(alloc, fault)?)),
        Err(ScriptErr::OutOfMemory) => Err(NotDone::OutOfMemory),
    }
}

// Reads the whole input.
fn read_input<S: Source>(alloc: Global, script: &mut S) -> Result<Bytes, NotDone>
    ensures causes { IfErr result (λ why. (status_of (Err why) ≡ exit.read_fault)
        ⊎ (status_of (Err why) ≡ exit.too_long) ⊎ (status_of (Err why) ≡ exit.out_of_memory)) }
    ensures whole_input { OnOk result (IsAtEnd (S.left script.new)) }
    ensures read_fault { IfErr result (λ why. status_of (Err why) ≡ exit.read_fault →
        Rose (S.faults script.old) (S.faults script.new)) }
    ensures input { OnInput (S.left script.old) (S.left script.new) (λ input.
        (length input ≤ most_input + 1)
        × IfErr result (λ why. (status_of (Err why) ≡ exit.too_long) ↔ (most_input < length input))
        × IfOk result (λ bytes. (bytes ≡ input) × (length input ≤ most_input))) }
{
    let bytes = read_all(alloc, script, MOST_INPUT)?;
    Ok(Bytes::from_vec(bytes))
}

// Reads the whole script, makes its rows, and writes all of them.
fn perform<S: Source, K: Sink>(
    alloc: Global,
    asked: Asked,
    script: &mut S,
    out: &mut K,
) -> Result<(), NotDone>
    requires { length asked.first.items ≤ most_first }
    ensures words { status_of result ≢ exit.usage }
    ensures whole_input { IsPastReading (status_of result) → IsAtEnd (S.left script.new) }
    ensures read_fault { status_of result ≡ exit.read_fault
        → Rose (S.faults script.old) (S.faults script.new) }
    ensures input { OnInput (S.left script.old) (S.left script.new) (λ input.
        (length input ≤ most_input + 1)
        × ((status_of result ≡ exit.too_long) ↔ (most_input < length input))
        × Performed (asked_value asked) input (K.taken out.old) (K.taken out.new) result) }
    ensures unwritten { status_of result ≢ exit.done → status_of result ≢ exit.write_fault
        → out.new ≡ out.old }
    ensures write_fault { status_of result ≡ exit.write_fault
        → Rose (K.faults out.old) (K.faults out.new) }
{
    let input = read_input(alloc, script)?;
    let output = answer(alloc, input, asked)?;
    write_all(out, output.as_slice())?;
    Ok(())
}

// Finds what the words ask for and performs it.
fn answer_words<S: Source, K: Sink>(
    alloc: Global,
    words: &[String],
    script: &mut S,
    out: &mut K,
) -> Result<(), NotDone>
    ensures usage { (status_of result ≡ exit.usage)
        ↔ IsNone (asked_of (map string_bytes words.now)) }
    ensures unread { status_of result ≡ exit.usage → script.new ≡ script.old }
    ensures whole_input { IsPastReading (status_of result) → IsAtEnd (S.left script.new) }
    ensures read_fault { status_of result ≡ exit.read_fault
        → Rose (S.faults script.old) (S.faults script.new) }
    ensures input { IfSome (asked_of (map string_bytes words.now)) (λ asked.
        OnInput (S.left script.old) (S.left script.new) (λ input.
        (length input ≤ most_input + 1)
        × ((status_of result ≡ exit.too_long) ↔ (most_input < length input))
        × Performed asked input (K.taken out.old) (K.taken out.new) result)) }
    ensures unwritten { status_of result ≢ exit.done → status_of result ≢ exit.write_fault
        → out.new ≡ out.old }
    ensures write_fault { status_of result ≡ exit.write_fault
        → Rose (K.faults out.old) (K.faults out.new) }
{
    match asked_of(alloc, words) {
        Ok(asked) => perform(alloc, asked, script, out),
        Err(why) => Err(why),
    }
}

// Writes the line to the note. A fault of the note doesn't change the status.
fn tell<N: Sink>(note: &mut N, line: &[u8])
    ensures { Told (N.faults note.old) (N.faults note.new)
        (N.taken note.old) (N.taken note.new) line.now }
{
    let _ = write_all(note, line);
}

/// Reads a script from `script`, writes the rows of its orders to `out`, and returns the exit
/// status. What went wrong is reported in one line on `note`; a fault of `note` doesn't change the
/// status.
///
/// The words don't include the program's name: the first is the most moments that may be met, and
/// the second names the turns with which the orders begin.
pub fn serve<S: Source, K: Sink, N: Sink>(
    alloc: Global,
    words: &[String],
    script: &mut S,
    out: &mut K,
    note: &mut N,
) -> u8
    ensures statuses { IsStatus result }

    // The words: `usage` is returned exactly if they aren't none, a number, or a number and first
    // turns. Then nothing is read.
    ensures usage { (result ≡ exit.usage) ↔ IsNone (asked_of (map string_bytes words.now)) }
    ensures unread { result ≡ exit.usage → script.new ≡ script.old }

    // The input is read to its end, except with the statuses `usage`, `read_fault`, `too_long` and
    // `out_of_memory`.
    ensures whole_input { IsPastReading result → IsAtEnd (S.left script.new) }
    ensures read_fault { result ≡ exit.read_fault
        → Rose (S.faults script.old) (S.faults script.new) }

    // What the status says about the input, the output that was written, and the line on the note.
    ensures served { IfSome (asked_of (map string_bytes words.now)) (λ asked.
        OnInput (S.left script.old) (S.left script.new) (λ input.
        Serves asked input result (K.taken out.old) (K.taken out.new)
        (Told (N.faults note.old) (N.faults note.new) (N.taken note.old) (N.taken note.new)))) }

    // The output: nothing is written before all rows are known.
    ensures unwritten { result ≢ exit.done → result ≢ exit.write_fault → out.new ≡ out.old }
    ensures write_fault { result ≡ exit.write_fault → Rose (K.faults out.old) (K.faults out.new) }

    // The note: it takes the status's line, or fails and takes a prefix of it.
    ensures untold { result ≡ exit.done → note.new ≡ note.old }
    ensures told { result ≢ exit.done → result ≢ exit.refused → result ≢ exit.too_many →
        Told (N.faults note.old) (N.faults note.new)
        (N.taken note.old) (N.taken note.new) (told_of result) }

    // If no stream fails, a script is answered, unless it has too much or memory runs out.
    ensures complete { IfSome (asked_of (map string_bytes words.now)) (λ asked.
        IfSome (S.left script.old) (λ input.
        length input ≤ most_input → refusal input ≡ None →
        (result ≡ exit.done) ⊎ (result ≡ exit.too_many) ⊎ (result ≡ exit.out_of_memory)
        ⊎ Rose (S.faults script.old) (S.faults script.new)
        ⊎ Rose (K.faults out.old) (K.faults out.new))) }
{
    match answer_words(alloc, words, script, out) {
        Ok(()) => DONE,
        Err(why) => {
            tell(note, why.line());
            why.status()
        }
    }
}
