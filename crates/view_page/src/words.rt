// Words and parts of the lines of a report, as ranges of its text.

ghost use Rattle.std.specs.Prelude.{◌≡◌, ◌≤◌, length};
ghost use Rattle.view_page.specs.Pieces.{text_at, word_len};
ghost use Rattle.view_page.specs.Words as spec;

use report_read::{InodeHead, Span};

/// The range of the text, as far as the text reaches.
pub fn text_at(text: &[u8], span: Span) -> &[u8]
    ensures value { result.now ≡ text_at text.now span }
    ensures within { length result.now ≤ span.len }
{
    let from = text.len().min(span.at as usize);
    let rest = &text[from..];
    let len = rest.len().min(span.len as usize);
    &rest[..len]
}

// The length of the first word: how many bytes are before the first space.
pub fn word_len(bytes: &[u8]) -> usize
    ensures value { result ≡ word_len bytes.now }
    ensures within { result ≤ length bytes.now }
{
    for (i, byte) in bytes.iter().enumerate() {
        if *byte == b' ' {
            return i;
        }
    }
    bytes.len()
}

/// The first word of a line.
pub fn first_word(text: &[u8], span: Span) -> Span
    ensures { result ≡ spec.first_word text.now span }
{
    let bytes = text_at(text, span);
    Span {
        at: span.at,
        len: word_len(bytes) as u32,
    }
}

/// What follows the first word and its space.
pub fn after_word(text: &[u8], span: Span) -> Span
    ensures { result ≡ spec.after_word text.now span }
{
    let bytes = text_at(text, span);
    past(word_len(bytes) as u64 + 1, span)
}

fn past(n: u64, span: Span) -> Span
    requires { n ≤ 4294967296 }
    ensures { result ≡ spec.past n span }
{
    let at = u64::from(span.at) + n;
    Span {
        at: at.min(4_294_967_295) as u32,
        len: u64::from(span.len).saturating_sub(n) as u32,
    }
}

/// At most so many of the first bytes.
pub fn cut(most: u32, span: Span) -> Span
    ensures { result ≡ spec.cut most span }
{
    Span {
        at: span.at,
        len: span.len.min(most),
    }
}

/// The path, the third word of an inode's line.
pub fn path(text: &[u8], head: InodeHead) -> Span
    ensures { result ≡ spec.path text.now head }
{
    first_word(text, after_word(text, after_word(text, head.line)))
}
