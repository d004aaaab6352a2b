ghost use Rattle.std.specs.Prelude.{◌≡◌, map, IfOk};
ghost use Rattle.std.specs.List.{list_all};
ghost use Rattle.text_forms.specs.Words.{words, is_visible, is_word};

use std::alloc::{AllocError as OutOfMemory, Global};

/// The words of a line, separated by single spaces: two spaces in a row, or one at the start or the
/// end, give an empty word.
pub fn words(alloc: Global, line: &[u8]) -> Result<Vec<&[u8]>, OutOfMemory>
    ensures { IfOk result (λ v. map (λ w. w.now) v.items ≡ words line.now) }
{
    line.split(|b| *b == b' ').collect(alloc)
}

/// Whether the text is a word of 1 to `most` visible bytes (0x21 to 0x7e).
pub fn is_word(text: &[u8], most: usize) -> bool
    ensures { result ≡ is_word most text.now }
{
    !text.is_empty() && text.len() <= most && is_all_visible(text)
}

fn is_all_visible(text: &[u8]) -> bool
    ensures { result ≡ list_all is_visible text.now }
{
    text.iter().all(|b| (0x21..=0x7e).contains(b))
}
