ghost use Rattle.std.specs.Prelude.{◌≡◌, ◌<◌, ◌==◌, [], ◌∷◌, map, option_map, length, IfOk, IfSome, MatchOption};
ghost use Rattle.std.specs.List.{slice_split};
ghost use Rattle.std.specs.Option.{option_copied};
ghost use Rattle.script_words.specs.Line.{cut, cut_line, fields, is_skipped};

use memchr::memchr;
use std::alloc::{AllocError as OutOfMemory, Global};

/// The text before the first separator, and the text after it; `None` without a separator.
pub fn cut(text: &[u8], separator: u8) -> Option<(&[u8], &[u8])>
    ensures value { option_map (λ p. (p.0.now, p.1.now)) result ≡ cut separator text.now }
    ensures parts { MatchOption result (slice_split (λ b. b == separator) text.now ≡ text.now ∷ [])
        (λ p. slice_split (λ b. b == separator) text.now
        ≡ p.0.now ∷ slice_split (λ b. b == separator) p.1.now) }
    ensures shorter { IfSome result (λ p. length p.1.now < length text.now) }
{
    let at = memchr(separator, text)?;
    Some((&text[..at], &text[at + 1..]))
}

/// Whether the line is empty, or begins with `#`.
pub fn is_skipped(line: &[u8]) -> bool
    ensures { result ≡ is_skipped line.now }
{
    match line {
        [] | [b'#', ..] => true,
        _ => false,
    }
}

/// The first word of a line, and the text after the first space, if there is one.
pub fn cut_line(line: &[u8]) -> (&[u8], Option<&[u8]>)
    ensures { (result.0.now, option_copied result.1) ≡ cut_line line.now }
{
    match cut(line, b' ') {
        Some((head, text)) => (head, Some(text)),
        None => (line, None),
    }
}

/// The words after the first, at most nine of them: no line has more, except those whose words are
/// read separately.
pub fn fields<'a>(alloc: Global, text: Option<&'a [u8]>) -> Result<Vec<&'a [u8]>, OutOfMemory>
    ensures { IfOk result (λ v. map (λ w. w.now) v.items ≡ fields (option_copied text.entry)) }
{
    match text {
        Some(words) => words.split(|b| *b == b' ').take(9).collect(alloc),
        None => Ok(Vec::new(alloc)),
    }
}
