// The segments of strips in pieces.

ghost use Rattle.std.specs.Prelude.{◌≡◌, ◌++◌, OnOk};
ghost use Rattle.view_drawing.specs.Drawing as spec;

use crate::items::add;
use std::alloc::AllocError as OutOfMemory;
use view_journal::{Freshness, Strip};
use view_page::{Own, Piece};

/// Appends the part of a strip that shows one number.
pub fn push_segment(
    out: &mut Vec<Piece>,
    strip: Strip,
    x: u64,
    width: u64,
    shown: u64,
) -> Result<(), OutOfMemory>
    ensures { OnOk result
        (out.new.items ≡ out.old.items ++ spec.segment_pieces strip x width shown) }
{
    let pieces = [
        Piece::Own(segment_block(strip, shown)),
        Piece::Number(x),
        Piece::Own(Own::Width),
        Piece::Number(width),
        Piece::Own(Own::Close),
    ];
    add(out, &pieces)?;
    push_label(out, strip, x, width, shown)
}

fn segment_block(strip: Strip, shown: u64) -> Own
    ensures { result ≡ spec.segment_block strip shown }
{
    match strip {
        Strip::Content => Own::ContentBlock(fresh_of(shown)),
        _ => {
            if shown == 0 {
                Own::ZeroBlock(strip)
            } else {
                Own::CountBlock(strip)
            }
        }
    }
}

fn fresh_of(shown: u64) -> Freshness
    ensures { result ≡ spec.fresh_of shown }
{
    if shown == 0 {
        Freshness::NotHashed
    } else if shown == 1 {
        Freshness::AsHashed
    } else {
        Freshness::Written
    }
}

fn push_label(
    out: &mut Vec<Piece>,
    strip: Strip,
    x: u64,
    width: u64,
    shown: u64,
) -> Result<(), OutOfMemory>
    ensures { OnOk result
        (out.new.items ≡ out.old.items ++ spec.label_pieces strip x width shown) }
{
    match strip {
        Strip::Content => push_word(out, fresh_of(shown), x, width),
        _ => push_number_of(out, strip, x, shown),
    }
}

fn push_word(
    out: &mut Vec<Piece>,
    freshness: Freshness,
    x: u64,
    width: u64,
) -> Result<(), OutOfMemory>
    ensures { OnOk result (out.new.items ≡ out.old.items ++ spec.content_pieces freshness x width) }
{
    if width < room_for(freshness) {
        return Ok(());
    }
    let pieces = [
        Piece::Own(Own::ContentText),
        Piece::Number(x),
        Piece::Own(Own::ContentWord(freshness)),
    ];
    add(out, &pieces)
}

fn room_for(freshness: Freshness) -> u64
    ensures { result ≡ spec.room_for freshness }
{
    match freshness {
        Freshness::NotHashed => 64,
        Freshness::AsHashed => 58,
        Freshness::Written => 124,
    }
}

fn push_number_of(out: &mut Vec<Piece>, strip: Strip, x: u64, shown: u64) -> Result<(), OutOfMemory>
    ensures { OnOk result (out.new.items ≡ out.old.items ++ spec.number_pieces strip x shown) }
{
    if shown == 0 {
        return Ok(());
    }
    let pieces = [
        Piece::Own(Own::CountText(strip)),
        Piece::Number(x),
        Piece::Own(Own::Is),
        Piece::Number(shown),
        Piece::Own(Own::TextEnd),
    ];
    add(out, &pieces)
}
