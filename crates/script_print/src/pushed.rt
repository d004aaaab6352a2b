// Appending words, numbers, values and lines of two words to a text.

ghost use Rattle.std.specs.Prelude.{◌≡◌, [], ◌∷◌, ◌++◌, decimal, OnOk};
ghost use Rattle.hex.specs.Hex.{encode_lower};
ghost use Rattle.call_lines.specs.Form.{hex_text, octal};
ghost use Rattle.call_lines.specs.Lines.{line_text, words_text};

use std::alloc::AllocError as OutOfMemory;
use std::io::Write;

// Appends a key and a decimal number.
pub fn push_number(out: &mut Vec<u8>, key: &[u8], n: u64) -> Result<(), OutOfMemory>
    ensures { OnOk result (out.new.items ≡ out.old.items ++ (key.now ++ decimal n)) }
{
    out.extend_from_slice(key)?;
    match write!(out, "{n}") {
        Ok(()) => Ok(()),
        Err(_) => Err(OutOfMemory),
    }
}

// Appends a word, a space and a small number.
pub fn push_one(out: &mut Vec<u8>, head: &[u8], number: u8) -> Result<(), OutOfMemory>
    ensures { OnOk result (
        out.new.items ≡ out.old.items ++ words_text (head.now ∷ decimal number ∷ [])) }
{
    out.extend_from_slice(head)?;
    push_number(out, b" ", u64::from(number))
}

// Appends a key and a mode in octal digits.
pub fn push_octal(out: &mut Vec<u8>, key: &[u8], mode: u16) -> Result<(), OutOfMemory>
    ensures { OnOk result (out.new.items ≡ out.old.items ++ (key.now ++ octal mode)) }
{
    out.extend_from_slice(key)?;
    match write!(out, "{mode:o}") {
        Ok(()) => Ok(()),
        Err(_) => Err(OutOfMemory),
    }
}

// Appends a key and a value as `hex:`.
pub fn push_value(out: &mut Vec<u8>, key: &[u8], bytes: &[u8]) -> Result<(), OutOfMemory>
    ensures { OnOk result (out.new.items ≡ out.old.items ++ (key.now ++ hex_text bytes.now)) }
{
    out.extend_from_slice(key)?;
    out.extend_from_slice(b"hex:")?;
    push_hex(out, bytes)
}

// Appends bytes in hexadecimal.
pub fn push_hex(out: &mut Vec<u8>, bytes: &[u8]) -> Result<(), OutOfMemory>
    ensures { OnOk result (out.new.items ≡ out.old.items ++ encode_lower bytes.now) }
{
    let start = out.len();
    let Some(end) = start.checked_add(2 * bytes.len()) else {
        return Err(OutOfMemory);
    };
    out.resize(end, 0)?;
    hex::encode_to_slice(bytes, &mut out[start..]).unwrap();
    Ok(())
}

// Appends a space and a word.
pub fn push_word(out: &mut Vec<u8>, word: &[u8]) -> Result<(), OutOfMemory>
    ensures { OnOk result (out.new.items ≡ out.old.items ++ 32 ∷ word.now) }
{
    out.push(b' ')?;
    out.extend_from_slice(word)
}

// Appends a line of two words.
pub fn push_line(out: &mut Vec<u8>, head: &[u8], word: &[u8]) -> Result<(), OutOfMemory>
    ensures { OnOk result (out.new.items ≡ out.old.items ++ line_text (head.now ∷ word.now ∷ [])) }
{
    out.extend_from_slice(head)?;
    push_word(out, word)?;
    out.push(b'\n')?;
    Ok(())
}

// Appends a line of a word and a value.
pub fn push_value_line(out: &mut Vec<u8>, head: &[u8], bytes: &[u8]) -> Result<(), OutOfMemory>
    ensures { OnOk result (
        out.new.items ≡ out.old.items ++ line_text (head.now ∷ hex_text bytes.now ∷ [])) }
{
    out.extend_from_slice(head)?;
    push_value(out, b" ", bytes)?;
    out.push(b'\n')?;
    Ok(())
}
