// The program's own bytes of a drawing.

ghost use Rattle.std.specs.Prelude.{◌≡◌, ◌++◌, MatchOption, OnOk};
ghost use Rattle.view_page.specs.Own as spec;
ghost use Rattle.view_page.specs.declared.own.Own.TheVariants as variants;

use crate::escape::push_all;
use crate::rules::push_rules;
use crate::shape::shape;
use report_read::{Deed, Kind};
use std::alloc::AllocError as OutOfMemory;
use view_journal::{Freshness, Guide, Look, Mark, Note, Strip};

/// To which of two reports of a page a drawing belongs: its identifiers begin with nothing, `a-` or
/// `b-`.
#[derive(Clone, Copy)]
pub enum Side {
    Alone,
    First,
    Second,
}

/// The program's own bytes of a drawing.
#[derive(Clone, Copy)]
pub enum Own {
    /// A drawing begins, up to its width.
    Svg,
    SvgHeight,
    SvgBox,
    Space,
    SvgOpen,
    /// The rules of the classes begin.
    Style,
    StyleEnd,
    /// Before the y coordinate.
    Y,
    Width,
    Height,
    Close,
    /// Before the upper end of a line.
    UpFrom,
    DownTo,
    LaneName,
    TaskIs,
    TextEnd,
    Is,
    MinusY,
    /// Before the place of an event.
    Place,
    /// Before the coordinates of an event.
    At,
    Comma,
    /// The text that is shown when one points at the event begins.
    Title,
    TitleEnd,
    GroupEnd,
    PlaceText,
    /// The deed of an event begins, up to its coordinates.
    DeedText,
    RedText,
    Slant,
    Plus,
    /// Places that are not drawn, up to the x coordinate.
    GapGroup,
    GapBlock,
    GapText,
    GapEnd,
    ContentText,
    /// The words at the line where two journals part begin.
    PartingText,
    PartingWords,
    SvgEnd,
    /// The shape of a mark, around the point 0,0.
    Shape(Mark),
    /// A block begins, up to its x coordinate.
    Block(Look),
    /// A vertical line begins, up to its x coordinate.
    Line(Guide),
    /// The name of a strip.
    StripName(Strip),
    /// The block of a number in a strip begins.
    CountBlock(Strip),
    /// The line of a zero in a strip begins.
    ZeroBlock(Strip),
    /// The number in a strip begins.
    CountText(Strip),
    /// The block of the content begins.
    ContentBlock(Freshness),
    /// The word for the content.
    ContentWord(Freshness),
    /// The block of a flag begins.
    FlagBlock(Note),
    /// The text of a flag begins.
    FlagText(Note),
    /// The words of a flag.
    FlagWords(Note),
    /// The group of an event begins, up to the number of its inode.
    Group(Side),
    /// The word of a deed.
    DeedWord(Deed),
    /// How a file is opened.
    KindWord(Kind),
    /// The rules of the classes.
    Rules,
}

/// Appends the program's own bytes.
pub fn push_own(out: &mut Vec<u8>, own: Own) -> Result<(), OutOfMemory>
    ensures { OnOk result (out.new.items ≡ out.old.items ++ spec.own_bytes own) }
{
    match own_bytes(own) {
        Some(bytes) => push_all(out, bytes),
        None => push_rules(out),
    }
}

// Its bytes, or none for the rules, which are many texts.
fn own_bytes(own: Own) -> Option<&'static [u8]>
    ensures { MatchOption result (own ≡ variants.Rules)
        (λ bytes. bytes.now ≡ spec.own_bytes own) }
{
    Some(match own {
        Own::Svg => b"<svg xmlns=\"http://www.w3.org/2000/svg\" class=\"tl\" width=\"",
        Own::SvgHeight => b"\" height=\"",
        Own::SvgBox => b"\" viewBox=\"0 -",
        Own::Space => b" ",
        Own::SvgOpen => b"\">",
        Own::Style => b"<style>",
        Own::StyleEnd => b"</style>",
        Own::Y => b"\" y=\"",
        Own::Width => b"\" width=\"",
        Own::Height => b"\" height=\"",
        Own::Close => b"\"/>",
        Own::UpFrom => b" -",
        Own::DownTo => b"V",
        Own::LaneName => b"<text class=\"lane\" x=\"88\" y=\"",
        Own::TaskIs => b"\">task ",
        Own::TextEnd => b"</text>",
        Own::Is => b"\">",
        Own::MinusY => b"\" y=\"-",
        Own::Place => b"-e",
        Own::At => b"\" transform=\"translate(",
        Own::Comma => b",",
        Own::Title => b")\"><title>",
        Own::TitleEnd => b"</title>",
        Own::GroupEnd => b"</g>",
        Own::PlaceText => b"<text class=\"place\" dy=\"10\" x=\"",
        Own::DeedText => b"<text class=\"deed\" transform=\"translate(",
        Own::RedText => b"<text class=\"deed red\" transform=\"translate(",
        Own::Slant => b") translate(4 20) rotate(-52)\">",
        Own::Plus => b"+",
        Own::GapGroup => b"<g transform=\"translate(",
        Own::GapBlock => b")\"><rect class=\"gap\" x=\"8\" y=\"-2\" width=\"74\" height=\"",
        Own::GapText => b"\"/><text class=\"gap\" x=\"45\" y=\"30\">",
        Own::GapEnd => b"<tspan x=\"45\" dy=\"14\">not drawn</tspan></text></g>",
        Own::ContentText => b"<text class=\"in\" dx=\"4\" y=\"55\" x=\"",
        Own::PartingText => b"<text class=\"parts\" dx=\"4\" dy=\"112\" x=\"",
        Own::PartingWords => b"\">the journals part here</text>",
        Own::SvgEnd => b"</svg>\n",
        Own::Shape(mark) => shape(mark),
        Own::Block(x) => block(x),
        Own::Line(x) => line(x),
        Own::StripName(x) => strip_name(x),
        Own::CountBlock(x) => count_block(x),
        Own::ZeroBlock(x) => zero_block(x),
        Own::CountText(x) => count_text(x),
        Own::ContentBlock(x) => content_block(x),
        Own::ContentWord(x) => content_word(x),
        Own::FlagBlock(x) => flag_block(x),
        Own::FlagText(x) => flag_text(x),
        Own::FlagWords(x) => flag_words(x),
        Own::Group(x) => group(x),
        Own::DeedWord(x) => deed_word(x),
        Own::KindWord(x) => kind_word(x),
        Own::Rules => return None,
    })
}

fn block(x: Look) -> &'static [u8]
    ensures { result.now ≡ spec.block x }
{
    match x {
        Look::Lane => b"<rect class=\"l0\" x=\"",
        Look::OtherLane => b"<rect class=\"l1\" x=\"",
        Look::Differs => b"<rect class=\"differs\" x=\"",
        Look::Hashing => b"<rect class=\"hash\" x=\"",
        Look::Bar(Kind::Read) => b"<rect rx=\"3\" class=\"b-r\" x=\"",
        Look::Bar(Kind::Write) => b"<rect rx=\"3\" class=\"b-w\" x=\"",
        Look::Bar(Kind::ReadWrite) => b"<rect rx=\"3\" class=\"b-rw\" x=\"",
        Look::Bar(Kind::Exec) => b"<rect rx=\"3\" class=\"b-x\" x=\"",
        Look::StillOpen(Kind::Read) => b"<rect rx=\"3\" class=\"b-r still\" x=\"",
        Look::StillOpen(Kind::Write) => b"<rect rx=\"3\" class=\"b-w still\" x=\"",
        Look::StillOpen(Kind::ReadWrite) => b"<rect rx=\"3\" class=\"b-rw still\" x=\"",
        Look::StillOpen(Kind::Exec) => b"<rect rx=\"3\" class=\"b-x still\" x=\"",
    }
}

fn line(x: Guide) -> &'static [u8]
    ensures { result.now ≡ spec.line x }
{
    match x {
        Guide::Write => b"<path class=\"g-w\" d=\"M",
        Guide::Violation => b"<path class=\"g-v\" d=\"M",
        Guide::Denial => b"<path class=\"g-d\" d=\"M",
        Guide::Added => b"<path class=\"g-a\" d=\"M",
        Guide::Parting => b"<path class=\"g-p\" d=\"M",
    }
}

fn strip_name(x: Strip) -> &'static [u8]
    ensures { result.now ≡ spec.strip_name x }
{
    match x {
        Strip::Readers => b"<text class=\"strip\" x=\"88\" y=\"11\">readers</text>",
        Strip::Writers => b"<text class=\"strip\" x=\"88\" y=\"26\">writers</text>",
        Strip::Execs => b"<text class=\"strip\" x=\"88\" y=\"41\">execs</text>",
        Strip::Content => b"<text class=\"strip\" x=\"88\" y=\"56\">content</text>",
    }
}

fn count_block(x: Strip) -> &'static [u8]
    ensures { result.now ≡ spec.count_block x }
{
    match x {
        Strip::Readers => b"<rect class=\"n-r\" y=\"1\" height=\"12\" x=\"",
        Strip::Writers => b"<rect class=\"n-w\" y=\"16\" height=\"12\" x=\"",
        Strip::Execs => b"<rect class=\"n-x\" y=\"31\" height=\"12\" x=\"",
        Strip::Content => b"<rect class=\"n-c\" y=\"46\" height=\"12\" x=\"",
    }
}

fn zero_block(x: Strip) -> &'static [u8]
    ensures { result.now ≡ spec.zero_block x }
{
    match x {
        Strip::Readers => b"<rect class=\"zero\" y=\"12\" height=\"1\" x=\"",
        Strip::Writers => b"<rect class=\"zero\" y=\"27\" height=\"1\" x=\"",
        Strip::Execs => b"<rect class=\"zero\" y=\"42\" height=\"1\" x=\"",
        Strip::Content => b"<rect class=\"zero\" y=\"57\" height=\"1\" x=\"",
    }
}

fn count_text(x: Strip) -> &'static [u8]
    ensures { result.now ≡ spec.count_text x }
{
    match x {
        Strip::Readers => b"<text class=\"in\" dx=\"4\" y=\"10\" x=\"",
        Strip::Writers => b"<text class=\"in\" dx=\"4\" y=\"25\" x=\"",
        Strip::Execs => b"<text class=\"in\" dx=\"4\" y=\"40\" x=\"",
        Strip::Content => b"<text class=\"in\" dx=\"4\" y=\"55\" x=\"",
    }
}

fn content_block(x: Freshness) -> &'static [u8]
    ensures { result.now ≡ spec.content_block x }
{
    match x {
        Freshness::NotHashed => b"<rect class=\"c-n\" y=\"46\" height=\"12\" x=\"",
        Freshness::AsHashed => b"<rect class=\"c-h\" y=\"46\" height=\"12\" x=\"",
        Freshness::Written => b"<rect class=\"c-w\" y=\"46\" height=\"12\" x=\"",
    }
}

fn content_word(x: Freshness) -> &'static [u8]
    ensures { result.now ≡ spec.content_word x }
{
    match x {
        Freshness::NotHashed => b"\">not hashed</text>",
        Freshness::AsHashed => b"\">as hashed</text>",
        Freshness::Written => b"\">written since hashed</text>",
    }
}

fn flag_block(x: Note) -> &'static [u8]
    ensures { result.now ≡ spec.flag_block x }
{
    match x {
        Note::ToMToU(_) => b"<rect class=\"f-v\" rx=\"2\" height=\"14\" x=\"",
        Note::OpenWriters(_) => b"<rect class=\"f-v\" rx=\"2\" height=\"14\" x=\"",
        Note::Denied => b"<rect class=\"f-d\" rx=\"2\" height=\"14\" x=\"",
        Note::Labelled => b"<rect class=\"f-l\" rx=\"2\" height=\"14\" x=\"",
        Note::Added(_) => b"<rect class=\"f-a\" rx=\"2\" height=\"14\" x=\"",
        Note::Already(_) => b"<rect class=\"f-o\" rx=\"2\" height=\"14\" x=\"",
        Note::Passed => b"<rect class=\"f-p\" rx=\"2\" height=\"14\" x=\"",
    }
}

fn flag_text(x: Note) -> &'static [u8]
    ensures { result.now ≡ spec.flag_text x }
{
    match x {
        Note::ToMToU(_) => b"<text class=\"f-v\" dx=\"5\" dy=\"11\" x=\"",
        Note::OpenWriters(_) => b"<text class=\"f-v\" dx=\"5\" dy=\"11\" x=\"",
        Note::Denied => b"<text class=\"f-d\" dx=\"5\" dy=\"11\" x=\"",
        Note::Labelled => b"<text class=\"f-l\" dx=\"5\" dy=\"11\" x=\"",
        Note::Added(_) => b"<text class=\"f-a\" dx=\"5\" dy=\"11\" x=\"",
        Note::Already(_) => b"<text class=\"f-o\" dx=\"5\" dy=\"11\" x=\"",
        Note::Passed => b"<text class=\"f-p\" dx=\"5\" dy=\"11\" x=\"",
    }
}

fn flag_words(x: Note) -> &'static [u8]
    ensures { result.now ≡ spec.flag_words x }
{
    match x {
        Note::ToMToU(_) => b"ToMToU = entry ",
        Note::OpenWriters(_) => b"open-writers = entry ",
        Note::Denied => b"",
        Note::Labelled => b"labelled",
        Note::Added(_) => b"entry ",
        Note::Already(_) => b"already entry ",
        Note::Passed => b"pass",
    }
}

fn group(x: Side) -> &'static [u8]
    ensures { result.now ≡ spec.group x }
{
    match x {
        Side::Alone => b"<g class=\"e\" id=\"i",
        Side::First => b"<g class=\"e\" id=\"a-i",
        Side::Second => b"<g class=\"e\" id=\"b-i",
    }
}

fn deed_word(x: Deed) -> &'static [u8]
    ensures { result.now ≡ spec.deed_word x }
{
    match x {
        Deed::Birth => b"birth",
        Deed::Count { .. } => b"count",
        Deed::Check(_) => b"check",
        Deed::Take(_) => b"take",
        Deed::Chunk(_) => b"chunk",
        Deed::Finish(_) => b"finish",
        Deed::Read { .. } => b"read ",
        Deed::Write { .. } => b"write ",
        Deed::Trunc { .. } => b"trunc ",
        Deed::SetAttr => b"set-attr",
        Deed::RemoveAttr => b"remove-attr",
        Deed::SetMeta => b"set-meta",
        Deed::Close(_) => b"close",
        Deed::CloseTake(_) => b"close-take",
        Deed::CloseChunk(_) => b"close-chunk",
        Deed::CloseFinish(_) => b"close-finish",
    }
}

fn kind_word(x: Kind) -> &'static [u8]
    ensures { result.now ≡ spec.kind_word x }
{
    match x {
        Kind::Read => b" r",
        Kind::Write => b" w",
        Kind::ReadWrite => b" rw",
        Kind::Exec => b" x",
    }
}
