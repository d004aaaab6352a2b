// Answers for parts of a script's orders, which are added.

use crate::answers::answer_over;
use order_top::DONE;
use std::alloc::{AllocError as OutOfMemory, Global};
use std::str;
use worked_calls::{Call, cut};

// A row of an answer.
#[derive(Clone, Copy)]
struct Row<'a> {
    count: u128,
    // The line `schedule`. The tasks' numbers have one digit, so the first of two lines is the one
    // with the first order.
    first: &'a str,
    outcome: &'a str,
}

impl<'a> Row<'a> {
    // The row of this text, which begins after `outcome ` and goes on with the next row or the end.
    fn of(text: &'a str) -> Option<Row<'a>> {
        let (count, rest) = cut(text, "\n");
        let (first, rest) = cut(rest, "\n");
        let (outcome, _) = cut(rest, "\nend\n");
        Some(Row {
            count: count.parse().ok()?,
            first,
            outcome,
        })
    }

    // The two rows of one outcome, added.
    fn and(self, other: Row<'a>) -> Row<'a> {
        Row {
            count: self.count.saturating_add(other.count),
            first: if other.first < self.first {
                other.first
            } else {
                self.first
            },
            outcome: self.outcome,
        }
    }
}

// The rows of this outcome, added: none if there is none, or if some row has no form.
fn sum_of<'a>(answers: &'a str, outcome: &str) -> Option<Row<'a>> {
    let mut sum = None;
    let (_, rows) = cut(answers, "\noutcome ");
    for text in rows.split("\noutcome ") {
        let row = Row::of(text)?;
        if row.outcome == outcome {
            sum = match sum {
                Some(others) => Some(row.and(others)),
                None => Some(row),
            };
        }
    }
    sum
}

// Whether the rows of this outcome are the same in both, added.
fn is_same_sum(some: &str, others: &str, outcome: &str) -> bool {
    match (sum_of(some, outcome), sum_of(others, outcome)) {
        (Some(a), Some(b)) => a.count == b.count && a.first == b.first,
        _ => false,
    }
}

// Whether both have the same rows of each outcome that the first answers have, added.
fn are_same_sums(some: &str, others: &str) -> bool {
    let (_, rows) = cut(some, "\noutcome ");
    for text in rows.split("\noutcome ") {
        let Some(row) = Row::of(text) else {
            return false;
        };
        if !is_same_sum(some, others, row.outcome) {
            return false;
        }
    }
    true
}

// Whether the answer has one end, with nothing after it.
fn is_whole(answer: &str) -> bool {
    let (front, rest) = cut(answer, "\nend\n");
    front.len() < answer.len() && rest.is_empty()
}

// Appends the answer to these words. Returns whether there is one.
fn push_part(
    alloc: Global,
    script: &[u8],
    words: &str,
    answers: &mut String,
) -> Result<bool, OutOfMemory> {
    let got = answer_over(alloc, Call::sound(words, script))?;
    let answer = str::from_utf8(got.out()).unwrap_or("");
    answers.push_str(answer)?;
    Ok(got.status == DONE && is_whole(answer))
}

// Appends the answers to all these words.
fn push_parts(
    alloc: Global,
    script: &[u8],
    parts: &[&str],
    answers: &mut String,
) -> Result<bool, OutOfMemory> {
    for words in parts {
        if !push_part(alloc, script, words, answers)? {
            return Ok(false);
        }
    }
    Ok(true)
}

/// Whether the answers to all these words add up to the whole answer.
pub fn add_up(
    alloc: Global,
    script: &[u8],
    whole: &str,
    parts: &[&str],
) -> Result<bool, OutOfMemory> {
    let mut answers = String::new(alloc);
    let well = push_parts(alloc, script, parts, &mut answers)?;
    let sum = answers.as_str();
    Ok(well && are_same_sums(sum, whole) && are_same_sums(whole, sum))
}
