// The lines of a journal.

ghost use Rattle.std.specs.Prelude.{◌≡◌, ◌∷◌, ◌++◌, OnOk};
ghost use Rattle.text_forms.specs.Words.{text_of};
ghost use Rattle.report_events.specs.Texts.{line_text};
ghost use Rattle.report_events.specs.Words.{event_lines, event_words, who_word};

use crate::deeds::push_deed;
use crate::push::push_number;
use crate::tolds::push_told;
use inode_events::{Deed, Event};
use inode_meta::{Template, Who};
use std::alloc::AllocError as OutOfMemory;

/// Prints the events of a journal, one line each. `default` is the template of a measurement whose
/// rule names none; `grows` says whether the run can append rules.
pub fn push_events(
    out: &mut Vec<u8>,
    default: Template,
    grows: bool,
    events: &[Event],
) -> Result<(), OutOfMemory>
    ensures { OnOk result (out.new.items
        ≡ out.old.items ++ text_of (event_lines default grows 0 events.now)) }
{
    for (place, event) in events.iter().enumerate() {
        push_event(out, default, grows, place as u64, event)?;
    }
    Ok(())
}

// Prints an event: its place, the step that made it, its deed and its outcome.
fn push_event(
    out: &mut Vec<u8>,
    default: Template,
    grows: bool,
    place: u64,
    event: &Event,
) -> Result<(), OutOfMemory>
    ensures { OnOk result (out.new.items
        ≡ out.old.items ++ line_text (event_words default grows place event.now)) }
{
    push_number(out, place)?;
    out.extend_from_slice(b" ")?;
    if let Deed::Birth = event.deed {
        return out.extend_from_slice(b"birth\n");
    }
    push_who(out, event.who)?;
    out.extend_from_slice(b" ")?;
    push_deed(out, default, grows, &event.deed)?;
    out.extend_from_slice(b" = ")?;
    push_told(out, &event.told)?;
    out.extend_from_slice(b"\n")
}

/// Prints a step as `TASK.CALL.STEP`.
pub fn push_who(out: &mut Vec<u8>, who: Who) -> Result<(), OutOfMemory>
    ensures { OnOk result (out.new.items ≡ out.old.items ++ who_word who) }
{
    push_number(out, u64::from(who.task))?;
    out.extend_from_slice(b".")?;
    push_number(out, u64::from(who.call))?;
    out.extend_from_slice(b".")?;
    push_number(out, u64::from(who.step))
}
