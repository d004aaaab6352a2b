//! The words of the lines that end a script; a schedule may have a million.

ghost use Rattle.std.specs.Prelude.{◌≡◌, ◌≤◌};
ghost use Rattle.std.specs.List.{list_all};
ghost use Rattle.text_forms.specs.Numbers.{is_short_numeral};
ghost use Rattle.text_forms.specs.Words.{words};
ghost use Rattle.script_words.specs.Gives.{LineGives, VecGives};
ghost use Rattle.script_fields.specs.TaskFields.{threads_of, turn_of, turns_from, turns_of};

use call_steps::Turns;
use script_words::{LineCause, LineErr, cut, place_among};
use std::alloc::Global;
use text_forms::{is_short_numeral, short_number_of};

// The most turns of a schedule.
const TURNS: usize = 1_048_576;

// The most threads of a run.
const THREADS: u64 = 16;

/// The turns of a schedule, for this many tasks.
///
/// A word of the wrong form is refused first, then a task that isn't there, then too many turns.
pub fn turns_of(alloc: Global, tasks: usize, numbers: &[u8]) -> Result<Turns, LineErr>
    requires { tasks ≤ 64 }
    ensures { LineGives result (turns_of tasks (words numbers.now)) }
{
    if !all_numerals(numbers) {
        return Err(LineErr::Refused(LineCause::BadField));
    }
    let turns = turns_from(alloc, tasks, numbers)?;
    if turns.len() > TURNS {
        return Err(LineErr::Refused(LineCause::TooMany));
    }
    Ok(Turns::from_vec(turns))
}

fn all_numerals(numbers: &[u8]) -> bool
    ensures { result ≡ list_all (is_short_numeral 10) (words numbers.now) }
{
    let mut rest = numbers;
    while let Some((word, after)) = cut(rest, b' ') {
        if !is_short_numeral(word, 10) {
            return false;
        }
        rest = after;
    }
    is_short_numeral(rest, 10)
}

fn turns_from(alloc: Global, tasks: usize, numbers: &[u8]) -> Result<Vec<u32>, LineErr>
    requires { tasks ≤ 64 }
    ensures { VecGives result (turns_from tasks (words numbers.now)) }
{
    let mut turns = Vec::new(alloc);
    let mut rest = numbers;
    while let Some((word, after)) = cut(rest, b' ') {
        turns.push(turn_of(tasks, word)?)?;
        rest = after;
    }
    turns.push(turn_of(tasks, rest)?)?;
    Ok(turns)
}

fn turn_of(tasks: usize, word: &[u8]) -> Result<u32, LineErr>
    requires { tasks ≤ 64 }
    ensures { LineGives result (turn_of tasks word.now) }
{
    let task = place_among(tasks, word).ok_or(LineCause::Unknown)?;
    Ok(task as u32)
}

/// The number of threads, 1 to 16.
pub fn threads_of(text: &[u8]) -> Option<u32>
    ensures { result ≡ threads_of text.now }
{
    match short_number_of(text, 10, THREADS)? {
        0 => None,
        number => Some(number as u32),
    }
}
