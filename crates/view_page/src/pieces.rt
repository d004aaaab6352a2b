// The pieces of which a page is made.

ghost use Rattle.std.specs.Prelude.{◌≡◌, ◌++◌, OnOk};
ghost use Rattle.view_page.specs.Pieces as spec;

use crate::escape::push_text;
use crate::own::{Own, push_own};
use crate::words::{text_at, word_len};
use report_read::Span;
use report_text::push_number;
use std::alloc::AllocError as OutOfMemory;

/// A piece of a page.
#[derive(Clone, Copy)]
pub enum Piece {
    Own(Own),
    /// In decimal digits.
    Number(u64),
    /// A text of the report, escaped.
    Text(Span),
    /// The word of a line of the report that stands after so many spaces, escaped.
    Word(Span, u32),
    /// The word of an event's outcome that stands after so many spaces, escaped.
    Told(Span, u32),
}

/// Appends pieces of a page, with the texts of this report.
pub fn push_pieces(out: &mut Vec<u8>, text: &[u8], pieces: &[Piece]) -> Result<(), OutOfMemory>
    ensures { OnOk result (out.new.items ≡ out.old.items ++ spec.page_of text.now pieces.now) }
{
    for piece in pieces {
        push_piece(out, text, *piece)?;
    }
    Ok(())
}

// Appends one piece.
pub fn push_piece(out: &mut Vec<u8>, text: &[u8], piece: Piece) -> Result<(), OutOfMemory>
    ensures { OnOk result (out.new.items ≡ out.old.items ++ spec.bytes_of text.now piece) }
{
    match piece {
        Piece::Own(own) => push_own(out, own),
        Piece::Number(number) => push_number(out, number),
        Piece::Text(span) => push_text(out, text_at(text, span)),
        Piece::Word(span, spaces) => push_text(out, word_at(text_at(text, span), spaces)),
        Piece::Told(span, spaces) => {
            push_text(out, word_at(outcome_in(text_at(text, span)), spaces))
        }
    }
}

// The word after so many spaces.
fn word_at(line: &[u8], spaces: u32) -> &[u8]
    ensures { result.now ≡ spec.word_at spaces line.now }
{
    let mut left = spaces;
    for (at, byte) in line.iter().enumerate() {
        if left == 0 {
            return first_word(&line[at..]);
        }
        if *byte == b' ' {
            left -= 1;
        }
    }
    &line[line.len()..]
}

// What follows the first sign ` = ` of an event's line.
fn outcome_in(line: &[u8]) -> &[u8]
    ensures { result.now ≡ spec.outcome_in line.now }
{
    for (at, _) in line.iter().enumerate() {
        if let Some(outcome) = line[at..].strip_prefix(b" = ") {
            return outcome;
        }
    }
    &line[line.len()..]
}

fn first_word(line: &[u8]) -> &[u8]
    ensures { result.now ≡ spec.first_word line.now }
{
    &line[..word_len(line)]
}
