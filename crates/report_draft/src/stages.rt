// Which stage comes next.

ghost use Rattle.std.specs.Prelude.{◌≡◌, map};
ghost use Rattle.report_draft.specs.Draft as spec;

use crate::draft::Stage;
use report_words::{after, number_in};

pub(crate) fn begins(word: &[u8], words: &[&[u8]]) -> bool
    ensures { result ≡ spec.begins word.now (map (λ w. w.now) words.now) }
{
    match after(word, words) {
        Some(_) => true,
        None => false,
    }
}

pub(crate) fn begins_with_number(words: &[&[u8]]) -> bool
    ensures { result ≡ spec.begins_with_number (map (λ w. w.now) words.now) }
{
    match number_in(words) {
        Some(_) => true,
        None => false,
    }
}

pub(crate) fn entries_left(left: u32) -> Stage
    ensures { result ≡ spec.entries_left left }
{
    if left == 0 {
        Stage::Registers(None)
    } else {
        Stage::Entries(left)
    }
}

pub(crate) fn rules_left(left: u32, last: Option<u32>) -> Stage
    ensures { result ≡ spec.rules_left left last }
{
    if left == 0 {
        Stage::Inodes
    } else {
        Stage::Rules(left, last)
    }
}

pub(crate) fn names_left(left: u32) -> Stage
    ensures { result ≡ spec.names_left left }
{
    if left == 0 {
        Stage::Journal
    } else {
        Stage::Names(left)
    }
}

/// After the last report that is wanted, no line may come.
pub(crate) fn next_stage(more: u32) -> Stage
    ensures { result ≡ spec.next_stage more }
{
    if more == 0 {
        Stage::Over
    } else {
        Stage::Version
    }
}

/// Whether the register comes after the last one.
pub(crate) fn rises(last: Option<u32>, pcr: u32) -> bool
    ensures { result ≡ spec.rises last pcr }
{
    match last {
        Some(last) => last < pcr && pcr < 24,
        None => pcr < 24,
    }
}

/// Whether the place of a rule is the one after the last.
pub(crate) fn follows(last: Option<u32>, place: u32) -> bool
    ensures { result ≡ spec.follows last place }
{
    match last {
        Some(last) => u64::from(place) == u64::from(last) + 1,
        None => true,
    }
}
