// The section of an inode in a page.

ghost use Rattle.std.specs.Prelude.{◌≡◌, ◌<◌, length, OnOk};
ghost use Rattle.view_page.specs.Parts.{Pushed};
ghost use Rattle.view_pages.specs.Section as spec;

use report_read::{Event, Inode, InodeHead, Span};
use std::alloc::{AllocError as OutOfMemory, Global};
use view_drawing::push_inode;
use view_journal::Window;
use view_overview::push_overview;
use view_page::{
    Part, Section, Side, View, after_word, by_count, cut, first_word, path, push_more, push_parts,
};
use view_plan::{Grade, count};
use view_sentences::push_sentences;

/// What a section has of a journal that isn't drawn whole.
#[derive(Clone, Copy)]
pub enum Detail {
    /// An overview, and windows.
    Overview,
    /// Windows.
    Windows,
}

// A journal of at most as many events is drawn whole.
const MOST_WHOLE: usize = 120;

// No more attributes of an inode are shown.
const MOST_ATTRS: usize = 8;

// A text that is shown up to its first `most` bytes, and more of it when one points at it.
fn push_titled(out: &mut Vec<u8>, text: &[u8], most: u32, span: Span) -> Result<(), OutOfMemory>
    ensures { OnOk result
        (Pushed text.now out.old.items out.new.items (spec.titled most span)) }
{
    let parts = [
        Part::Text(cut(1024, span)),
        Part::Section(Section::Shown),
        Part::Text(cut(most, span)),
    ];
    push_parts(out, text, &parts)
}

// How many events a journal has.
fn push_length(out: &mut Vec<u8>, text: &[u8], n: u64) -> Result<(), OutOfMemory>
    ensures { OnOk result
        (Pushed text.now out.old.items out.new.items (spec.length_of n)) }
{
    let parts = [
        Part::Section(Section::Length),
        Part::Number(n),
        by_count(
            n,
            Part::Section(Section::Event),
            Part::Section(Section::Events),
        ),
    ];
    push_parts(out, text, &parts)
}

/// Appends the heading of a section, but for its end.
pub fn push_heading(
    out: &mut Vec<u8>,
    text: &[u8],
    number: u64,
    events: u64,
    head: InodeHead,
) -> Result<(), OutOfMemory>
    ensures { OnOk result
        (Pushed text.now out.old.items out.new.items (spec.heading text.now number events head)) }
{
    let before = [
        Part::Section(Section::Inode),
        Part::Number(number),
        Part::Section(Section::Path),
    ];
    push_parts(out, text, &before)?;
    push_titled(out, text, 80, path(text, head))?;
    push_length(out, text, events)
}

fn push_attr(out: &mut Vec<u8>, text: &[u8], line: Span) -> Result<(), OutOfMemory>
    ensures { OnOk result
        (Pushed text.now out.old.items out.new.items (spec.attr text.now line)) }
{
    let value = after_word(text, line);
    let parts = [
        Part::Section(Section::Attr),
        Part::Text(cut(1024, value)),
        Part::Section(Section::Shown),
        Part::Text(cut(80, first_word(text, line))),
        Part::Section(Section::AttrIs),
        Part::Text(cut(18, value)),
        Part::Section(Section::Code),
    ];
    push_parts(out, text, &parts)
}

fn push_attrs(out: &mut Vec<u8>, text: &[u8], lines: &[Span]) -> Result<(), OutOfMemory>
    ensures { OnOk result
        (Pushed text.now out.old.items out.new.items (spec.attrs text.now lines.now)) }
{
    for line in &lines[..lines.len().min(MOST_ATTRS)] {
        push_attr(out, text, *line)?;
    }
    Ok(())
}

fn push_counts(out: &mut Vec<u8>, text: &[u8], head: InodeHead) -> Result<(), OutOfMemory>
    ensures { OnOk result (Pushed text.now out.old.items out.new.items (spec.counts head)) }
{
    let parts = [
        Part::Section(Section::AtEnd),
        Part::Number(u64::from(head.writers)),
        Part::Section(Section::Readers),
        Part::Number(u64::from(head.readers)),
        Part::Section(Section::Execs),
        Part::Number(u64::from(head.execs)),
    ];
    push_parts(out, text, &parts)
}

/// Appends the line of the state at the end: counts, digest in force, attributes.
pub fn push_at_end(
    out: &mut Vec<u8>,
    text: &[u8],
    head: InodeHead,
    attrs: &[Span],
) -> Result<(), OutOfMemory>
    ensures { OnOk result
        (Pushed text.now out.old.items out.new.items (spec.at_end text.now head attrs.now)) }
{
    let more = attrs.len().saturating_sub(MOST_ATTRS) as u64;
    push_counts(out, text, head)?;
    push_parts(out, text, &[Part::Section(Section::Force)])?;
    push_titled(out, text, 23, after_word(text, head.force))?;
    push_parts(out, text, &[Part::Section(Section::Code)])?;
    push_attrs(out, text, attrs)?;
    push_more(
        out,
        text,
        Part::Section(Section::More),
        more,
        Part::Section(Section::MoreAttrs),
    )?;
    push_parts(out, text, &[Part::Section(Section::ParaEnd)])
}

/// Appends the drawing of these windows of a journal. `differs` are the places whose columns are
/// marked.
pub fn push_drawing(
    alloc: Global,
    out: &mut Vec<u8>,
    text: &[u8],
    view: View,
    journal: &[Event],
    windows: &[Window],
    differs: &[u32],
) -> Result<(), OutOfMemory>
    requires { length journal.now < 4294967296 }
    ensures { OnOk result (Pushed text.now out.old.items out.new.items
        (spec.drawing view journal.now windows.now differs.now)) }
{
    push_parts(out, text, &[Part::Section(Section::Wide)])?;
    push_inode(alloc, out, text, view, journal, windows, differs)?;
    push_parts(out, text, &[Part::Section(Section::WideEnd)])
}

/// Appends that the inode of this number isn't drawn.
pub fn push_not_drawn(out: &mut Vec<u8>, text: &[u8], number: u64) -> Result<(), OutOfMemory>
    ensures { OnOk result (Pushed text.now out.old.items out.new.items (spec.not_drawn number)) }
{
    let parts = [
        Part::Section(Section::NotDrawn),
        Part::Number(number),
        Part::Section(Section::NotDrawnEnd),
    ];
    push_parts(out, text, &parts)
}

// The overview of a journal that isn't drawn whole.
fn push_long_overview(
    alloc: Global,
    out: &mut Vec<u8>,
    text: &[u8],
    journal: &[Event],
    windows: &[Window],
) -> Result<(), OutOfMemory>
    requires { length journal.now < 4294967296 }
    ensures { OnOk result (Pushed text.now out.old.items out.new.items
        (spec.long_overview journal.now windows.now)) }
{
    if journal.len() > MOST_WHOLE {
        push_overview(alloc, out, text, journal, windows)
    } else {
        push_parts(out, text, &[])
    }
}

fn push_overview_if(
    alloc: Global,
    out: &mut Vec<u8>,
    text: &[u8],
    detail: Detail,
    journal: &[Event],
    windows: &[Window],
) -> Result<(), OutOfMemory>
    requires { length journal.now < 4294967296 }
    ensures { OnOk result (Pushed text.now out.old.items out.new.items
        (spec.overview_if detail journal.now windows.now)) }
{
    match detail {
        Detail::Overview => push_long_overview(alloc, out, text, journal, windows),
        Detail::Windows => push_parts(out, text, &[]),
    }
}

// The drawing of these windows, or that there is none.
fn push_windows(
    alloc: Global,
    out: &mut Vec<u8>,
    text: &[u8],
    view: View,
    windows: &[Window],
    journal: &[Event],
) -> Result<(), OutOfMemory>
    requires { length journal.now < 4294967296 }
    ensures { OnOk result (Pushed text.now out.old.items out.new.items
        (spec.windows_drawn view windows.now journal.now)) }
{
    if windows.is_empty() {
        push_not_drawn(out, text, view.inode)
    } else {
        push_drawing(alloc, out, text, view, journal, windows, &[])
    }
}

fn push_drawn_by(
    alloc: Global,
    out: &mut Vec<u8>,
    text: &[u8],
    detail: Detail,
    view: View,
    windows: &[Window],
    journal: &[Event],
) -> Result<(), OutOfMemory>
    requires { length journal.now < 4294967296 }
    ensures { OnOk result (Pushed text.now out.old.items out.new.items
        (spec.drawn_by text.now detail view windows.now journal.now)) }
{
    push_overview_if(alloc, out, text, detail, journal, windows)?;
    push_windows(alloc, out, text, view, windows, journal)?;
    push_sentences(alloc, out, text, view, journal, windows)
}

// The overview, the drawing and the sentences of a journal with more than its birth.
fn push_drawn(
    alloc: Global,
    out: &mut Vec<u8>,
    text: &[u8],
    detail: Detail,
    view: View,
    windows: &[Window],
    journal: &[Event],
) -> Result<(), OutOfMemory>
    ensures { OnOk result (Pushed text.now out.old.items out.new.items
        (spec.drawn text.now detail view windows.now journal.now)) }
{
    if journal.len() < 2 {
        push_parts(out, text, &[Part::Section(Section::Birth)])
    } else if journal.len() < 4_294_967_296 {
        push_drawn_by(alloc, out, text, detail, view, windows, journal)
    } else {
        push_not_drawn(out, text, view.inode)
    }
}

/// Appends how many events of a journal are violations, and how many others are denials or labels.
pub fn push_marked(out: &mut Vec<u8>, text: &[u8], journal: &[Event]) -> Result<(), OutOfMemory>
    ensures { OnOk result (Pushed text.now out.old.items out.new.items
        (spec.marked journal.now)) }
{
    let violations = count(Grade::Violated, journal);
    let marked = count(Grade::Marked, journal);
    let denials = marked.saturating_sub(violations);
    push_marked_by(out, text, violations, denials)
}

fn push_violations(out: &mut Vec<u8>, text: &[u8], n: u64) -> Result<(), OutOfMemory>
    ensures { OnOk result
        (Pushed text.now out.old.items out.new.items (spec.violations n)) }
{
    let after = by_count(
        n,
        Part::Section(Section::Violation),
        Part::Section(Section::Violations),
    );
    push_more(out, text, Part::Section(Section::Bad), n, after)
}

fn push_marked_by(
    out: &mut Vec<u8>,
    text: &[u8],
    violations: u64,
    denials: u64,
) -> Result<(), OutOfMemory>
    ensures { OnOk result (Pushed text.now out.old.items out.new.items
        (spec.marked_by violations denials)) }
{
    push_violations(out, text, violations)?;
    push_more(
        out,
        text,
        Part::Section(Section::Bad),
        denials,
        Part::Section(Section::Denials),
    )
}

/// The view of an inode whose identifiers begin so.
pub fn view_of(side: Side, number: u64) -> View
    ensures { result ≡ spec.view_of side number }
{
    View {
        side,
        inode: number,
        parts: None,
    }
}

fn push_section_by(
    alloc: Global,
    out: &mut Vec<u8>,
    text: &[u8],
    detail: Detail,
    view: View,
    windows: &[Window],
    head: InodeHead,
    attrs: &[Span],
    journal: &[Event],
) -> Result<(), OutOfMemory>
    ensures { OnOk result (Pushed text.now out.old.items out.new.items
        (spec.section_by text.now detail view windows.now head attrs.now journal.now)) }
{
    push_heading(out, text, view.inode, journal.len() as u64, head)?;
    push_marked(out, text, journal)?;
    push_parts(out, text, &[Part::Section(Section::Close)])?;
    push_drawn(alloc, out, text, detail, view, windows, journal)?;
    push_at_end(out, text, head, attrs)
}

/// Appends the section of an inode: its heading, the drawing of these windows of its journal, and
/// its state at the end.
pub fn push_section(
    alloc: Global,
    out: &mut Vec<u8>,
    text: &[u8],
    detail: Detail,
    view: View,
    windows: &[Window],
    inode: &Inode,
) -> Result<(), OutOfMemory>
    ensures { OnOk result (Pushed text.now out.old.items out.new.items
        (spec.section_of text.now detail view windows.now inode.now)) }
{
    push_section_by(
        alloc,
        out,
        text,
        detail,
        view,
        windows,
        inode.head,
        &inode.attrs,
        &inode.events,
    )
}
