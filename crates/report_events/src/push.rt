// Appends numbers and words to a text.

ghost use Rattle.std.specs.Prelude.{◌≡◌, [], ◌∷◌, ◌++◌, map, OnOk};
ghost use Rattle.report_events.specs.Numerals.{numeral};
ghost use Rattle.std.specs.List.{join_with_byte};

use itoa::Buffer;
use std::alloc::AllocError as OutOfMemory;

/// Prints a number in decimal.
#[tactic(auto, using(crate::proofs::Numerals::numeral_of_word))]
pub fn push_number(out: &mut Vec<u8>, n: u64) -> Result<(), OutOfMemory>
    ensures { OnOk result (out.new.items ≡ out.old.items ++ numeral n) }
{
    out.extend_from_slice(Buffer::new().format(n).as_bytes())
}

/// Prints the words, and then each number after a space.
pub fn push_numbers(out: &mut Vec<u8>, words: &[u8], numbers: &[u64]) -> Result<(), OutOfMemory>
    ensures { OnOk result (out.new.items
        ≡ out.old.items ++ join_with_byte 32 (words.now ∷ map numeral numbers.now)) }
{
    out.extend_from_slice(words)?;
    for number in numbers {
        out.push(b' ')?;
        push_number(out, *number)?;
    }
    Ok(())
}

/// Prints two words with a space between them.
pub fn push_pair(out: &mut Vec<u8>, first: &[u8], second: &[u8]) -> Result<(), OutOfMemory>
    ensures { OnOk result (out.new.items
        ≡ out.old.items ++ join_with_byte 32 (first.now ∷ second.now ∷ [])) }
{
    out.extend_from_slice(first)?;
    out.extend_from_slice(b" ")?;
    out.extend_from_slice(second)
}

/// Prints the words, a space and the number.
pub fn push_numbered(out: &mut Vec<u8>, words: &[u8], n: u64) -> Result<(), OutOfMemory>
    ensures { OnOk result (out.new.items
        ≡ out.old.items ++ join_with_byte 32 (words.now ∷ numeral n ∷ [])) }
{
    out.extend_from_slice(words)?;
    out.extend_from_slice(b" ")?;
    push_number(out, n)
}
