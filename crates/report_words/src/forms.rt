// The forms of words, and what comes after a word of some form.

ghost use Rattle.std.specs.Prelude.{◌≡◌, map, not, option_map, IfOk};
ghost use Rattle.std.specs.List.{list_all};
ghost use Rattle.text_forms.specs.Tokens.{is_filled};
ghost use Rattle.hash_algos.specs.Algo.{algo_by_name};
ghost use Rattle.report_words.specs.Forms as spec;

use hash_algos::by_name;
use inode_meta::Who;
use script_words::{cut, id_of};
use std::alloc::{AllocError as OutOfMemory, Global};

// A line has at most as many words, except that of an appended rule, whose text isn't looked at.
const WORDS: usize = 24;

/// The words of a line, at most 24 of them.
pub fn first_words(alloc: Global, line: &[u8]) -> Result<Vec<&[u8]>, OutOfMemory>
    ensures { IfOk result (λ v. map (λ w. w.now) v.items ≡ spec.first_words line.now) }
{
    line.split(|b| *b == b' ').take(WORDS).collect(alloc)
}

/// A number: decimal digits without leading zeros, below 2^32.
pub(crate) fn number(word: &[u8]) -> Option<u32>
    ensures { result ≡ spec.number word.now }
{
    id_of(word)
}

fn is_low_hex(byte: u8) -> bool
    ensures { result ≡ spec.is_low_hex byte }
{
    (0x30..=0x39).contains(&byte) || (0x61..=0x66).contains(&byte)
}

fn has_hex(word: &[u8]) -> bool
    ensures { result ≡ list_all spec.is_low_hex word.now }
{
    word.iter().all(|b| is_low_hex(*b))
}

/// Whether the word is bytes in lower-case hexadecimal digits.
pub(crate) fn is_hex(word: &[u8]) -> bool
    ensures { result ≡ spec.is_hex word.now }
{
    word.len() % 2 == 0 && has_hex(word)
}

/// Whether the word is as many bytes in lower-case hexadecimal digits.
pub(crate) fn is_digest(size: usize, word: &[u8]) -> bool
    ensures { result ≡ spec.is_digest size word.now }
{
    word.len() / 2 == size && is_hex(word)
}

/// Whether the word is an algorithm's name, a colon, and a digest of that algorithm.
pub fn is_named_digest(word: &[u8]) -> bool
    ensures { result ≡ spec.is_named_digest word.now }
{
    match cut(word, b':') {
        Some((name, digits)) => is_digest_of(name, digits),
        None => false,
    }
}

fn is_digest_of(name: &[u8], digits: &[u8]) -> bool
    ensures { result ≡ spec.sized_by (algo_by_name name.now) digits.now }
{
    match by_name(name) {
        Some(algo) => is_digest(algo.size(), digits),
        None => false,
    }
}

fn who_of(word: &[u8]) -> Option<Who>
    ensures { result ≡ spec.who_of word.now }
{
    let (task, rest) = cut(word, b'.')?;
    let (call, step) = cut(rest, b'.')?;
    let task = number(task)?;
    let call = number(call)?;
    let step = number(step)?;
    Some(Who { task, call, step })
}

/// Whether the word is the number of a register.
pub(crate) fn is_pcr(word: &[u8]) -> bool
    ensures { result ≡ spec.is_pcr word.now }
{
    match number(word) {
        Some(pcr) => pcr <= 23,
        None => false,
    }
}

fn is_wide_pcr(width: usize, word: &[u8]) -> bool
    ensures { result ≡ spec.is_wide_pcr width word.now }
{
    word.len() == width && is_pcr(word)
}

/// The words after the first, if it is this one.
pub fn after<'w>(word: &[u8], words: &'w [&'w [u8]]) -> Option<&'w [&'w [u8]]>
    ensures { option_map (λ r. map (λ w. w.now) r.now) result
        ≡ spec.after word.now (map (λ w. w.now) words.now) }
{
    match words {
        [] => None,
        [first, rest @ ..] => if *first == word { Some(rest) } else { None },
    }
}

/// The words after the first, whatever it is.
pub fn after_any<'w>(words: &'w [&'w [u8]]) -> Option<&'w [&'w [u8]]>
    ensures { option_map (λ r. map (λ w. w.now) r.now) result
        ≡ spec.after_by spec.is_any (map (λ w. w.now) words.now) }
{
    match words {
        [] => None,
        [_, rest @ ..] => Some(rest),
    }
}

/// The words after the first, if it is bytes in hexadecimal digits.
pub fn after_hex<'w>(words: &'w [&'w [u8]]) -> Option<&'w [&'w [u8]]>
    ensures { option_map (λ r. map (λ w. w.now) r.now) result
        ≡ spec.after_by spec.is_hex (map (λ w. w.now) words.now) }
{
    match words {
        [] => None,
        [first, rest @ ..] => if is_hex(first) { Some(rest) } else { None },
    }
}

/// The words after the first, if it is as many bytes in hexadecimal digits.
pub fn after_digest<'w>(size: usize, words: &'w [&'w [u8]]) -> Option<&'w [&'w [u8]]>
    ensures { option_map (λ r. map (λ w. w.now) r.now) result
        ≡ spec.after_by (spec.is_digest size) (map (λ w. w.now) words.now) }
{
    match words {
        [] => None,
        [first, rest @ ..] => if is_digest(size, first) {
            Some(rest)
        } else {
            None
        },
    }
}

/// The words after the first, if it is an algorithm's name and a digest.
pub fn after_named_digest<'w>(words: &'w [&'w [u8]]) -> Option<&'w [&'w [u8]]>
    ensures { option_map (λ r. map (λ w. w.now) r.now) result
        ≡ spec.after_by spec.is_named_digest (map (λ w. w.now) words.now) }
{
    match words {
        [] => None,
        [first, rest @ ..] => if is_named_digest(first) {
            Some(rest)
        } else {
            None
        },
    }
}

/// The words after the first, if it is the number of a register.
pub(crate) fn after_pcr<'w>(words: &'w [&'w [u8]]) -> Option<&'w [&'w [u8]]>
    ensures { option_map (λ r. map (λ w. w.now) r.now) result
        ≡ spec.after_by spec.is_pcr (map (λ w. w.now) words.now) }
{
    match words {
        [] => None,
        [first, rest @ ..] => if is_pcr(first) { Some(rest) } else { None },
    }
}

/// The words after the first, if it is the number of a register of so many digits.
pub fn after_wide_pcr<'w>(width: usize, words: &'w [&'w [u8]]) -> Option<&'w [&'w [u8]]>
    ensures { option_map (λ r. map (λ w. w.now) r.now) result
        ≡ spec.after_by (spec.is_wide_pcr width) (map (λ w. w.now) words.now) }
{
    match words {
        [] => None,
        [first, rest @ ..] => if is_wide_pcr(width, first) {
            Some(rest)
        } else {
            None
        },
    }
}

/// The words without the first, if it is this one.
pub(crate) fn without<'w>(word: &[u8], words: &'w [&'w [u8]]) -> &'w [&'w [u8]]
    ensures { map (λ w. w.now) result.now ≡ spec.without word.now (map (λ w. w.now) words.now) }
{
    match words {
        [] => words,
        [first, rest @ ..] => if *first == word { rest } else { words },
    }
}

/// The first word's number, and the words after it.
pub fn number_in<'w>(words: &'w [&'w [u8]]) -> Option<(u32, &'w [&'w [u8]])>
    ensures { option_map (λ p. (p.0, map (λ w. w.now) p.1.now)) result
        ≡ spec.number_in (map (λ w. w.now) words.now) }
{
    match words {
        [] => None,
        [first, rest @ ..] => {
            let number = number(first)?;
            Some((number, rest))
        }
    }
}

/// The step that the first word names, and the words after it.
pub fn who_in<'w>(words: &'w [&'w [u8]]) -> Option<(Who, &'w [&'w [u8]])>
    ensures { option_map (λ p. (p.0, map (λ w. w.now) p.1.now)) result
        ≡ spec.who_in (map (λ w. w.now) words.now) }
{
    match words {
        [] => None,
        [first, rest @ ..] => {
            let who = who_of(first)?;
            Some((who, rest))
        }
    }
}

/// The number that the words are.
pub(crate) fn last_number(words: &[&[u8]]) -> Option<u32>
    ensures { result ≡ spec.last_number (map (λ w. w.now) words.now) }
{
    match words {
        [word] => number(word),
        _ => None,
    }
}

/// The number after this word, if the words are those two.
pub fn counted(word: &[u8], words: &[&[u8]]) -> Option<u32>
    ensures { result ≡ spec.counted word.now (map (λ w. w.now) words.now) }
{
    let rest = after(word, words)?;
    last_number(rest)
}

/// Whether a line has been read to its end.
pub fn is_whole(rest: Option<&[&[u8]]>) -> bool
    ensures { result ≡ spec.is_whole (option_map (λ r. map (λ w. w.now) r.now) rest.entry) }
{
    match rest {
        Some(rest) => is_empty(rest),
        None => false,
    }
}

fn is_empty(words: &[&[u8]]) -> bool
    ensures { result ≡ not (is_filled (map (λ w. w.now) words.now)) }
{
    match words {
        [] => true,
        [_, ..] => false,
    }
}
