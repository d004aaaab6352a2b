// The sentences below a drawing.

ghost use Rattle.std.specs.Prelude.{◌≡◌, ◌≤◌, ◌<◌, length, Some, OnOk};
ghost use Rattle.std.specs.List.{flat_map};
ghost use Rattle.view_page.specs.Parts.{Pushed};
ghost use Rattle.view_sentences.specs.Sentences as spec;

use crate::alike::is_drawn;
use crate::said::{is_denied, push_said};
use crate::tales::told_places;
use report_read::{Event, Outcome};
use std::alloc::{AllocError as OutOfMemory, Global};
use view_journal::Window;
use view_page::{Part, Table, Told, View, push_more, push_parts};

// At most as many events have a sentence.
const MOST_TOLD: u64 = 20;

fn colour_of(outcome: Outcome) -> Told
    ensures { result ≡ spec.colour_of outcome }
{
    match outcome {
        Outcome::Granted(grant) => {
            if is_denied(grant.verdict) {
                Told::Bad
            } else {
                Told::Plain
            }
        }
        Outcome::LabelledDropped => Told::Plain,
        Outcome::Bytes(_) => Told::Stale,
        _ => Told::Bad,
    }
}

// The event, with a link if it is drawn.
fn push_event_link(
    out: &mut Vec<u8>,
    text: &[u8],
    drawn: bool,
    view: View,
    place: u32,
) -> Result<(), OutOfMemory>
    ensures { OnOk result
        (Pushed text.now out.old.items out.new.items (spec.event_link drawn view place)) }
{
    if !drawn {
        return push_parts(
            out,
            text,
            &[Part::Told(Told::Event), Part::Number(u64::from(place))],
        );
    }
    let parts = [
        Part::Table(Table::Link),
        Part::Side(view.side),
        Part::Table(Table::I),
        Part::Number(view.inode),
        Part::Table(Table::E),
        Part::Number(u64::from(place)),
        Part::Table(Table::Shown),
        Part::Told(Told::Event),
        Part::Number(u64::from(place)),
        Part::Table(Table::LinkEnd),
    ];
    push_parts(out, text, &parts)
}

fn push_sentence_by(
    alloc: Global,
    out: &mut Vec<u8>,
    text: &[u8],
    view: View,
    journal: &[Event],
    windows: &[Window],
    place: u32,
    event: Event,
) -> Result<(), OutOfMemory>
    requires within { place ≤ length journal.now }
    requires few { length journal.now < 4294967296 }
    ensures { OnOk result (Pushed text.now out.old.items out.new.items
        (spec.sentence_by text.now view journal.now windows.now place (Some event))) }
{
    let drawn = is_drawn(windows, place);
    push_parts(out, text, &[Part::Told(colour_of(event.outcome))])?;
    push_event_link(out, text, drawn, view, place)?;
    push_parts(out, text, &[Part::Told(Told::Is)])?;
    push_said(alloc, out, text, journal, place as usize, event)?;
    push_parts(out, text, &[Part::Told(Told::ItemEnd)])
}

// The sentence of the event at a place.
fn push_sentence(
    alloc: Global,
    out: &mut Vec<u8>,
    text: &[u8],
    view: View,
    journal: &[Event],
    windows: &[Window],
    place: u32,
) -> Result<(), OutOfMemory>
    requires { length journal.now < 4294967296 }
    ensures { OnOk result (Pushed text.now out.old.items out.new.items
        (spec.sentence text.now view journal.now windows.now place)) }
{
    match journal.get(place as usize) {
        Some(event) => push_sentence_by(alloc, out, text, view, journal, windows, place, *event),
        None => push_parts(out, text, &[]),
    }
}

fn push_each(
    alloc: Global,
    out: &mut Vec<u8>,
    text: &[u8],
    view: View,
    journal: &[Event],
    windows: &[Window],
    places: &[u32],
) -> Result<(), OutOfMemory>
    requires { length journal.now < 4294967296 }
    ensures { OnOk result (Pushed text.now out.old.items out.new.items
        (flat_map (spec.sentence text.now view journal.now windows.now) places.now)) }
{
    for place in places {
        push_sentence(alloc, out, text, view, journal, windows, *place)?;
    }
    Ok(())
}

fn push_list_of(
    alloc: Global,
    out: &mut Vec<u8>,
    text: &[u8],
    view: View,
    journal: &[Event],
    windows: &[Window],
    places: &[u32],
    n: u64,
) -> Result<(), OutOfMemory>
    requires { length journal.now < 4294967296 }
    ensures { OnOk result (Pushed text.now out.old.items out.new.items
        (spec.list_of text.now view journal.now windows.now places.now n)) }
{
    push_parts(out, text, &[Part::Told(Told::List)])?;
    push_each(alloc, out, text, view, journal, windows, places)?;
    push_more(
        out,
        text,
        Part::Told(Told::MoreItems),
        n.saturating_sub(MOST_TOLD),
        Part::Told(Told::MoreItemsEnd),
    )?;
    push_parts(out, text, &[Part::Told(Told::ListEnd)])
}

fn push_list_by(
    alloc: Global,
    out: &mut Vec<u8>,
    text: &[u8],
    view: View,
    journal: &[Event],
    windows: &[Window],
    places: &[u32],
    n: u64,
) -> Result<(), OutOfMemory>
    requires { length journal.now < 4294967296 }
    ensures { OnOk result (Pushed text.now out.old.items out.new.items
        (spec.list_by text.now view journal.now windows.now places.now n)) }
{
    if n == 0 {
        push_parts(out, text, &[])
    } else {
        push_list_of(alloc, out, text, view, journal, windows, places, n)
    }
}

/// Appends the sentences of a journal; events of the windows have a link.
pub fn push_sentences(
    alloc: Global,
    out: &mut Vec<u8>,
    text: &[u8],
    view: View,
    journal: &[Event],
    windows: &[Window],
) -> Result<(), OutOfMemory>
    requires { length journal.now < 4294967296 }
    ensures { OnOk result (Pushed text.now out.old.items out.new.items
        (spec.sentences text.now view journal.now windows.now)) }
{
    let tales = told_places(alloc, journal)?;
    let n = tales.n;
    push_list_by(alloc, out, text, view, journal, windows, &tales.places, n)
}
