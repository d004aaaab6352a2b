// The words of the command line.

ghost use Rattle.std.specs.Prelude.{◌≡◌, ◌==◌, [], ◌∷◌, ◌++◌, count_by, is_some, length, map, nat_lt, not, option_map, string_bytes, IfOk};
ghost use Rattle.order_top.specs.Limits.{most_first};
ghost use Rattle.order_top.specs.Words.{IsAsked, asked_by, asked_of, asking, dotted, number_of, task_of, tasks_of, turns_of};

use crate::not_done::NotDone;
use script_words::cut;
use std::alloc::{AllocError as OutOfMemory, Global};
use text_forms::short_number_of;

/// The most moments that are met if no word says otherwise.
pub const MOST_MOMENTS: usize = 1_000_000;

/// The greatest number that a word may name.
pub const MOST_NAMED: u64 = 10_000_000;

/// The most first turns that a word may name.
pub const MOST_FIRST: usize = 65_536;

/// What the words ask for.
#[derive(Drop)]
pub struct Asked {
    /// The most moments that may be met.
    pub most: usize,
    /// The turns with which the orders begin.
    pub first: Vec<u32>,
}

// The number that a word names: from 1 to 10,000,000, in digits without a leading zero.
fn number_of(word: &str) -> Option<usize>
    ensures { result ≡ number_of word.now }
{
    match short_number_of(word.as_bytes(), 10, MOST_NAMED) {
        Some(number) if number > 0 => Some(number as usize),
        _ => None,
    }
}

// The number of a task, in digits without a leading zero.
fn task_of(digits: &[u8]) -> Option<u32>
    ensures { result ≡ task_of digits.now }
{
    let task = short_number_of(digits, 10, u64::from(u32::MAX))?;
    Some(task as u32)
}

// Whether the parts between dots are numbers of tasks.
fn are_tasks(word: &[u8]) -> bool
    ensures { result ≡ is_some (tasks_of (dotted word.now)) }
{
    let mut rest = word;
    while let Some((digits, after)) = cut(rest, b'.') {
        if task_of(digits).is_none() {
            return false;
        }
        rest = after;
    }
    let last = task_of(rest);
    last.is_some()
}

fn dots(word: &[u8]) -> usize
    ensures { result ≡ count_by (λ b. b == 46) word.now }
{
    word.iter().filter(|b| **b == b'.').count()
}

// Whether there are not more parts between dots than first turns may be.
fn are_few(word: &[u8]) -> bool
    ensures { result ≡ not (nat_lt most_first (length (dotted word.now))) }
{
    dots(word) < MOST_FIRST
}

// Whether the word names turns.
fn is_turns(word: &[u8]) -> bool
    ensures { result ≡ is_some (turns_of word.now) }
{
    if word.is_empty() {
        return true;
    }
    if !are_few(word) {
        return false;
    }
    are_tasks(word)
}

// The tasks with the one whose number the digits are, if they are one.
fn with_task(mut tasks: Vec<u32>, digits: &[u8]) -> Result<Option<Vec<u32>>, OutOfMemory>
    ensures { IfOk result (λ o. option_map (λ longer. longer.items) o
        ≡ option_map (λ task. tasks.items ++ task ∷ []) (task_of digits.now)) }
{
    match task_of(digits) {
        Some(task) => {
            tasks.push(task)?;
            Ok(Some(tasks))
        }
        None => Ok(None),
    }
}

// The tasks whose numbers the parts between dots are.
fn tasks_of(alloc: Global, word: &[u8]) -> Result<Option<Vec<u32>>, OutOfMemory>
    ensures { IfOk result (λ o. option_map (λ tasks. tasks.items) o ≡ tasks_of (dotted word.now)) }
{
    let mut tasks = Vec::new(alloc);
    let mut rest = word;
    while let Some((digits, after)) = cut(rest, b'.') {
        match with_task(tasks, digits)? {
            Some(longer) => tasks = longer,
            None => return Ok(None),
        }
        rest = after;
    }
    let all = with_task(tasks, rest)?;
    Ok(all)
}

// The turns that the word names, if it names any.
fn turns_of(alloc: Global, word: &[u8]) -> Result<Option<Vec<u32>>, OutOfMemory>
    ensures { IfOk result (λ o. option_map (λ tasks. tasks.items) o ≡ turns_of word.now) }
{
    if word.is_empty() {
        return Ok(Some(Vec::new(alloc)));
    }
    if !are_few(word) {
        return Ok(None);
    }
    let turns = tasks_of(alloc, word)?;
    Ok(turns)
}

// What is asked for, if the word names turns. It is looked at first, so that memory can't run out
// over a word that doesn't.
fn asked_with(alloc: Global, most: usize, first: &[u8]) -> Result<Asked, NotDone>
    ensures { IsAsked (option_map (asking most) (turns_of first.now)) result }
{
    if !is_turns(first) {
        return Err(NotDone::Usage);
    }
    match turns_of(alloc, first)? {
        Some(first) => Ok(Asked { most, first }),
        None => Err(NotDone::Usage),
    }
}

// What the two words ask for.
fn asked_by(alloc: Global, word: &str, first: &[u8]) -> Result<Asked, NotDone>
    ensures { IsAsked (asked_by word.now first.now) result }
{
    match number_of(word) {
        Some(most) => asked_with(alloc, most, first),
        None => Err(NotDone::Usage),
    }
}

/// What the words ask for; `NotDone::Usage` if they aren't none, a number, or a number and first
/// turns. The words don't include the program's name.
pub fn asked_of(alloc: Global, words: &[String]) -> Result<Asked, NotDone>
    ensures { IsAsked (asked_of (map string_bytes words.now)) result }
{
    match words {
        [] => Ok(Asked {
            most: MOST_MOMENTS,
            first: Vec::new(alloc),
        }),
        [word] => asked_by(alloc, word.as_str(), &[]),
        [word, first] => asked_by(alloc, word.as_str(), first.as_bytes()),
        _ => Err(NotDone::Usage),
    }
}
