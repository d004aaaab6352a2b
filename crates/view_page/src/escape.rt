// Texts of a report in a page.

ghost use Rattle.std.specs.Prelude.{◌≡◌, ◌++◌, ◌<◌, OnOk};
ghost use Rattle.view_page.specs.Escape.{escaped, escaped_byte, hex_digit, is_printing};

use std::alloc::AllocError as OutOfMemory;

/// Appends a text of the report: `&`, `<`, `>` and `"` as entities, and each byte that isn't
/// printing ASCII as `\x` and two hexadecimal digits.
pub fn push_text(out: &mut Vec<u8>, text: &[u8]) -> Result<(), OutOfMemory>
    ensures { OnOk result (out.new.items ≡ out.old.items ++ escaped text.now) }
{
    for byte in text {
        push_byte(out, *byte)?;
    }
    Ok(())
}

fn push_byte(out: &mut Vec<u8>, byte: u8) -> Result<(), OutOfMemory>
    ensures { OnOk result (out.new.items ≡ out.old.items ++ escaped_byte byte) }
{
    if byte == b'&' {
        push_all(out, b"&amp;")
    } else if byte == b'<' {
        push_all(out, b"&lt;")
    } else if byte == b'>' {
        push_all(out, b"&gt;")
    } else if byte == b'"' {
        push_all(out, b"&quot;")
    } else if is_printing(byte) {
        push_all(out, &[byte])
    } else {
        let text = [b'\\', b'x', hex_digit(byte / 16), hex_digit(byte % 16)];
        push_all(out, &text)
    }
}

// Appends bytes of the program.
pub fn push_all(out: &mut Vec<u8>, bytes: &[u8]) -> Result<(), OutOfMemory>
    ensures { OnOk result (out.new.items ≡ out.old.items ++ bytes.now) }
{
    out.extend_from_slice(bytes)
}

fn is_printing(byte: u8) -> bool
    ensures { result ≡ is_printing byte }
{
    (0x20..=0x7e).contains(&byte)
}

fn hex_digit(digit: u8) -> u8
    requires { digit < 16 }
    ensures { result ≡ hex_digit digit }
{
    if digit < 10 {
        b'0' + digit
    } else {
        b'a' - 10 + digit
    }
}
