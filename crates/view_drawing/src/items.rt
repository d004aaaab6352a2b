// The items of a drawing in pieces.

ghost use Rattle.std.specs.Prelude.{◌≡◌, ◌++◌, OnOk};
ghost use Rattle.view_drawing.specs.Drawing as spec;

use crate::segment::push_segment;
use report_read::{Deed, Event, Outcome, Placed, Span};
use std::alloc::AllocError as OutOfMemory;
use view_journal::{Area, Guide, Item, Look, Mark, Note};
use view_page::{Own, Piece, View};

/// Appends the pieces of an item.
pub fn push_item(out: &mut Vec<Piece>, view: View, item: Item) -> Result<(), OutOfMemory>
    ensures { OnOk result (out.new.items ≡ out.old.items ++ spec.item_pieces view item) }
{
    match item {
        Item::Block(look, area) => push_block(out, look, area),
        Item::Guide { guide, x, up, down } => push_guide(out, guide, x, up, down),
        Item::StripName(strip) => add(out, &[Piece::Own(Own::StripName(strip))]),
        Item::Segment {
            strip,
            x,
            width,
            shown,
        } => push_segment(out, strip, x, width, shown),
        Item::LaneName { y, task } => push_lane(out, y, task),
        Item::Mark {
            place,
            x,
            y,
            line,
            mark,
        } => push_mark(out, view, place, x, y, line, mark),
        Item::Axis {
            x,
            y,
            place,
            event,
            mark,
        } => push_axis(out, x, y, place, event, mark),
        Item::Flag {
            x,
            up,
            width,
            event,
            note,
        } => push_flag(out, x, up, width, event, note),
        Item::Gap { x, height, events } => push_gap(out, x, height, events),
    }
}

/// Appends pieces.
pub fn add(out: &mut Vec<Piece>, pieces: &[Piece]) -> Result<(), OutOfMemory>
    ensures { OnOk result (out.new.items ≡ out.old.items ++ pieces.now) }
{
    out.extend_from_slice(pieces)
}

fn push_block(out: &mut Vec<Piece>, look: Look, area: Area) -> Result<(), OutOfMemory>
    ensures { OnOk result (out.new.items ≡ out.old.items ++ spec.block_pieces look area) }
{
    let pieces = [
        Piece::Own(Own::Block(look)),
        Piece::Number(area.x),
        Piece::Own(Own::Y),
        Piece::Number(area.y),
        Piece::Own(Own::Width),
        Piece::Number(area.width),
        Piece::Own(Own::Height),
        Piece::Number(area.height),
        Piece::Own(Own::Close),
    ];
    add(out, &pieces)
}

fn push_guide(
    out: &mut Vec<Piece>,
    guide: Guide,
    x: u64,
    up: u64,
    down: u64,
) -> Result<(), OutOfMemory>
    ensures { OnOk result (out.new.items ≡ out.old.items ++ spec.guide_pieces guide x up down) }
{
    push_line(out, guide, x, up, down)?;
    push_parting_words(out, guide, x, down)
}

fn push_line(
    out: &mut Vec<Piece>,
    guide: Guide,
    x: u64,
    up: u64,
    down: u64,
) -> Result<(), OutOfMemory>
    ensures { OnOk result (out.new.items ≡ out.old.items ++ spec.line_pieces guide x up down) }
{
    let pieces = [
        Piece::Own(Own::Line(guide)),
        Piece::Number(x),
        Piece::Own(Own::UpFrom),
        Piece::Number(up),
        Piece::Own(Own::DownTo),
        Piece::Number(down),
        Piece::Own(Own::Close),
    ];
    add(out, &pieces)
}

fn push_parting_words(
    out: &mut Vec<Piece>,
    guide: Guide,
    x: u64,
    down: u64,
) -> Result<(), OutOfMemory>
    ensures { OnOk result (out.new.items ≡ out.old.items ++ spec.words_pieces guide x down) }
{
    match guide {
        Guide::Parting => {
            let pieces = [
                Piece::Own(Own::PartingText),
                Piece::Number(x),
                Piece::Own(Own::Y),
                Piece::Number(down),
                Piece::Own(Own::PartingWords),
            ];
            add(out, &pieces)
        }
        _ => Ok(()),
    }
}

fn push_lane(out: &mut Vec<Piece>, y: u64, task: u32) -> Result<(), OutOfMemory>
    ensures { OnOk result (out.new.items ≡ out.old.items ++ spec.lane_pieces y task) }
{
    let pieces = [
        Piece::Own(Own::LaneName),
        Piece::Number(y),
        Piece::Own(Own::TaskIs),
        Piece::Number(u64::from(task)),
        Piece::Own(Own::TextEnd),
    ];
    add(out, &pieces)
}

fn push_mark(
    out: &mut Vec<Piece>,
    view: View,
    place: u32,
    x: u64,
    y: u64,
    line: Span,
    mark: Mark,
) -> Result<(), OutOfMemory>
    ensures { OnOk result
        (out.new.items ≡ out.old.items ++ spec.mark_pieces view place x y line mark) }
{
    let pieces = [
        Piece::Own(Own::Group(view.side)),
        Piece::Number(view.inode),
        Piece::Own(Own::Place),
        Piece::Number(u64::from(place)),
        Piece::Own(Own::At),
        Piece::Number(x),
        Piece::Own(Own::Comma),
        Piece::Number(y),
        Piece::Own(Own::Title),
        Piece::Text(cut(line)),
        Piece::Own(Own::TitleEnd),
        Piece::Own(Own::Shape(mark)),
        Piece::Own(Own::GroupEnd),
    ];
    add(out, &pieces)
}

// As much of a line as a title has.
fn cut(line: Span) -> Span
    ensures { result ≡ spec.cut line }
{
    Span {
        at: line.at,
        len: line.len.min(1024),
    }
}

fn push_axis(
    out: &mut Vec<Piece>,
    x: u64,
    y: u64,
    place: u32,
    event: Event,
    mark: Mark,
) -> Result<(), OutOfMemory>
    ensures { OnOk result
        (out.new.items ≡ out.old.items ++ spec.axis_pieces x y place event mark) }
{
    push_place(out, x, y, place)?;
    push_slant(out, x, y, event.deed, mark)?;
    push_detail(out, event.line, event.deed, event.outcome)?;
    add(out, &[Piece::Own(Own::TextEnd)])
}

fn push_place(out: &mut Vec<Piece>, x: u64, y: u64, place: u32) -> Result<(), OutOfMemory>
    ensures { OnOk result (out.new.items ≡ out.old.items ++ spec.place_pieces x y place) }
{
    let pieces = [
        Piece::Own(Own::PlaceText),
        Piece::Number(x),
        Piece::Own(Own::Y),
        Piece::Number(y),
        Piece::Own(Own::Is),
        Piece::Number(u64::from(place)),
        Piece::Own(Own::TextEnd),
    ];
    add(out, &pieces)
}

fn push_slant(
    out: &mut Vec<Piece>,
    x: u64,
    y: u64,
    deed: Deed,
    mark: Mark,
) -> Result<(), OutOfMemory>
    ensures { OnOk result (out.new.items ≡ out.old.items ++ spec.slant_pieces x y deed mark) }
{
    let pieces = [
        Piece::Own(deed_text(mark)),
        Piece::Number(x),
        Piece::Own(Own::Comma),
        Piece::Number(y),
        Piece::Own(Own::Slant),
        Piece::Own(Own::DeedWord(deed)),
    ];
    add(out, &pieces)
}

fn deed_text(mark: Mark) -> Own
    ensures { result ≡ spec.deed_text mark }
{
    match mark {
        Mark::Violated | Mark::Refused | Mark::NotOpened | Mark::NotDone => Own::RedText,
        _ => Own::DeedText,
    }
}

fn push_detail(
    out: &mut Vec<Piece>,
    line: Span,
    deed: Deed,
    outcome: Outcome,
) -> Result<(), OutOfMemory>
    ensures { OnOk result
        (out.new.items ≡ out.old.items ++ spec.detail_pieces line deed outcome) }
{
    match deed {
        Deed::Count { kind, .. } => add(out, &[Piece::Own(Own::KindWord(kind))]),
        Deed::Check(_) => push_word(out, line, 4),
        Deed::SetAttr | Deed::RemoveAttr => push_word(out, line, 3),
        Deed::Read { from, .. } => push_range(out, from, bytes_read(outcome)),
        Deed::Write { from, len, .. } => push_range(out, from, len),
        Deed::Trunc { len, .. } => add(out, &[Piece::Number(u64::from(len))]),
        _ => Ok(()),
    }
}

fn push_word(out: &mut Vec<Piece>, line: Span, spaces: u32) -> Result<(), OutOfMemory>
    ensures { OnOk result (out.new.items ≡ out.old.items ++ spec.word_pieces line spaces) }
{
    let pieces = [Piece::Own(Own::Space), Piece::Word(cut(line), spaces)];
    add(out, &pieces)
}

fn push_range(out: &mut Vec<Piece>, from: u32, len: u32) -> Result<(), OutOfMemory>
    ensures { OnOk result (out.new.items ≡ out.old.items ++ spec.range_pieces from len) }
{
    let pieces = [
        Piece::Number(u64::from(from)),
        Piece::Own(Own::Plus),
        Piece::Number(u64::from(len)),
    ];
    add(out, &pieces)
}

fn bytes_read(outcome: Outcome) -> u32
    ensures { result ≡ spec.bytes_read outcome }
{
    match outcome {
        Outcome::Bytes(count) => count,
        _ => 0,
    }
}

fn push_flag(
    out: &mut Vec<Piece>,
    x: u64,
    up: u64,
    width: u64,
    event: Event,
    note: Note,
) -> Result<(), OutOfMemory>
    ensures { OnOk result
        (out.new.items ≡ out.old.items ++ spec.flag_pieces x up width event note) }
{
    push_banner(out, x, up, width, note)?;
    push_noted(out, event, note)?;
    add(out, &[Piece::Own(Own::TextEnd)])
}

fn push_banner(
    out: &mut Vec<Piece>,
    x: u64,
    up: u64,
    width: u64,
    note: Note,
) -> Result<(), OutOfMemory>
    ensures { OnOk result (out.new.items ≡ out.old.items ++ spec.banner_pieces x up width note) }
{
    let pieces = [
        Piece::Own(Own::FlagBlock(note)),
        Piece::Number(x),
        Piece::Own(Own::MinusY),
        Piece::Number(up),
        Piece::Own(Own::Width),
        Piece::Number(width),
        Piece::Own(Own::Close),
        Piece::Own(Own::FlagText(note)),
        Piece::Number(x),
        Piece::Own(Own::MinusY),
        Piece::Number(up),
        Piece::Own(Own::Is),
        Piece::Own(Own::FlagWords(note)),
    ];
    add(out, &pieces)
}

fn cause_of(placed: Placed) -> u32
    ensures { result ≡ spec.cause_of placed }
{
    match placed {
        Placed::NotMeasured => 1,
        Placed::Added | Placed::Already => 3,
    }
}

// After how many words of an outcome the cause of a denial stands.
fn cause_at(outcome: Outcome) -> u32
    ensures { result ≡ spec.cause_at outcome }
{
    match outcome {
        Outcome::Granted(grant) => cause_of(grant.placed),
        Outcome::Status => 1,
        _ => 0,
    }
}

fn push_cause(out: &mut Vec<Piece>, event: Event) -> Result<(), OutOfMemory>
    ensures { OnOk result (out.new.items ≡ out.old.items ++ spec.noted_pieces event Note.Denied) }
{
    add(
        out,
        &[Piece::Told(cut(event.line), cause_at(event.outcome))],
    )
}

fn push_noted(out: &mut Vec<Piece>, event: Event, note: Note) -> Result<(), OutOfMemory>
    ensures { OnOk result (out.new.items ≡ out.old.items ++ spec.noted_pieces event note) }
{
    match note {
        Note::ToMToU(entry) | Note::OpenWriters(entry) => {
            add(out, &[Piece::Number(u64::from(entry))])
        }
        Note::Added(entry) | Note::Already(entry) => add(out, &[Piece::Number(u64::from(entry))]),
        Note::Denied => push_cause(out, event),
        Note::Labelled | Note::Passed => Ok(()),
    }
}

fn push_gap(out: &mut Vec<Piece>, x: u64, height: u64, events: u64) -> Result<(), OutOfMemory>
    ensures { OnOk result (out.new.items ≡ out.old.items ++ spec.gap_pieces x height events) }
{
    let pieces = [
        Piece::Own(Own::GapGroup),
        Piece::Number(x),
        Piece::Own(Own::GapBlock),
        Piece::Number(height),
        Piece::Own(Own::GapText),
        Piece::Number(events),
        Piece::Own(Own::GapEnd),
    ];
    add(out, &pieces)
}
