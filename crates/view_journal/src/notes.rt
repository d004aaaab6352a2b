// The mark of an event, and what it is marked with.

ghost use Rattle.std.specs.Prelude.{◌≡◌, ◌++◌, [], ◌∷◌, OnOk};
ghost use Rattle.view_journal.specs.Notes as spec;

use crate::kinds::{Mark, Note};
use report_read::{Deed, Event, Grant, Outcome, Placed, Verdict};
use std::alloc::AllocError as OutOfMemory;

/// The mark of an event.
pub fn mark_of(event: Event) -> Mark
    ensures { result ≡ spec.mark_of event }
{
    mark_by(event.deed, event.outcome)
}

fn mark_by(deed: Deed, outcome: Outcome) -> Mark
    ensures { result ≡ spec.mark_by deed outcome }
{
    match deed {
        Deed::Birth => Mark::Birth,
        Deed::Count { .. } => count_mark(outcome),
        Deed::Check(_) => check_mark(outcome),
        Deed::Take(_) | Deed::Finish(_) => take_mark(outcome),
        Deed::Chunk(_) | Deed::CloseChunk(_) => Mark::Chunk,
        Deed::Read { .. } => Mark::Read,
        Deed::Write { .. } => done_mark(Mark::Write, outcome),
        Deed::Trunc { .. } => done_mark(Mark::Trunc, outcome),
        Deed::SetAttr | Deed::RemoveAttr => done_mark(Mark::SetAttr, outcome),
        Deed::SetMeta => done_mark(Mark::SetMeta, outcome),
        Deed::Close(_) => Mark::Closed,
        Deed::CloseTake(_) => close_mark(outcome),
        Deed::CloseFinish(_) => Mark::Finished,
    }
}

fn granted_mark(grant: Grant) -> Mark
    ensures { result ≡ spec.granted_mark grant }
{
    if grant.admitted {
        Mark::Granted
    } else {
        Mark::Refused
    }
}

fn done_mark(mark: Mark, outcome: Outcome) -> Mark
    ensures { result ≡ spec.done_mark mark outcome }
{
    match outcome {
        Outcome::Done => mark,
        _ => Mark::NotDone,
    }
}

fn take_mark(outcome: Outcome) -> Mark
    ensures { result ≡ spec.take_mark outcome }
{
    match outcome {
        Outcome::Granted(grant) => granted_mark(grant),
        _ => Mark::Begun,
    }
}

fn count_mark(outcome: Outcome) -> Mark
    ensures { result ≡ spec.count_mark outcome }
{
    match outcome {
        Outcome::Held => Mark::Opened,
        _ => Mark::NotOpened,
    }
}

fn check_mark(outcome: Outcome) -> Mark
    ensures { result ≡ spec.check_mark outcome }
{
    match outcome {
        Outcome::Quiet => Mark::Checked,
        _ => Mark::Violated,
    }
}

fn close_mark(outcome: Outcome) -> Mark
    ensures { result ≡ spec.close_mark outcome }
{
    match outcome {
        Outcome::Begun => Mark::Begun,
        _ => Mark::Closed,
    }
}

/// Appends what an event is marked with, in the order in which its flags stand.
pub fn push_notes(out: &mut Vec<Note>, event: Event) -> Result<(), OutOfMemory>
    ensures { OnOk result (out.new.items ≡ out.old.items ++ spec.notes event) }
{
    push_by(out, event.deed, event.outcome)
}

fn push_by(out: &mut Vec<Note>, deed: Deed, outcome: Outcome) -> Result<(), OutOfMemory>
    ensures { OnOk result (out.new.items ≡ out.old.items ++ spec.notes_by deed outcome) }
{
    match (deed, outcome) {
        (_, Outcome::ToMToU(entry)) => push(out, Note::ToMToU(entry)),
        (_, Outcome::OpenWriters(entry)) => push(out, Note::OpenWriters(entry)),
        (_, Outcome::Granted(grant)) => push_grant(out, grant),
        (_, Outcome::LabelledDropped) => push(out, Note::Labelled),
        (Deed::Count { .. }, Outcome::NotFound | Outcome::TextBusy) => push(out, Note::Denied),
        (Deed::SetAttr | Deed::RemoveAttr | Deed::SetMeta, outcome) => push_refused(out, outcome),
        _ => Ok(()),
    }
}

fn push_refused(out: &mut Vec<Note>, outcome: Outcome) -> Result<(), OutOfMemory>
    ensures { OnOk result (out.new.items
        ≡ out.old.items ++ spec.flag_notes Note.Denied (spec.is_refused_change outcome)) }
{
    match outcome {
        Outcome::Done => Ok(()),
        _ => push(out, Note::Denied),
    }
}

fn push_grant(out: &mut Vec<Note>, grant: Grant) -> Result<(), OutOfMemory>
    ensures { OnOk result (out.new.items ≡ out.old.items ++ spec.grant_notes grant) }
{
    push_placed(out, grant.placed, grant.entry)?;
    push_verdict(out, grant.verdict)?;
    if grant.labelled {
        push(out, Note::Labelled)
    } else {
        Ok(())
    }
}

fn push_placed(out: &mut Vec<Note>, placed: Placed, entry: u32) -> Result<(), OutOfMemory>
    ensures { OnOk result (out.new.items ≡ out.old.items ++ spec.placed_notes placed entry) }
{
    match placed {
        Placed::NotMeasured => Ok(()),
        Placed::Added => push(out, Note::Added(entry)),
        Placed::Already => push(out, Note::Already(entry)),
    }
}

fn push_verdict(out: &mut Vec<Note>, verdict: Verdict) -> Result<(), OutOfMemory>
    ensures { OnOk result (out.new.items ≡ out.old.items ++ spec.verdict_notes verdict) }
{
    match verdict {
        Verdict::NotAppraised => Ok(()),
        Verdict::Pass => push(out, Note::Passed),
        Verdict::Deny => push(out, Note::Denied),
    }
}

fn push(out: &mut Vec<Note>, note: Note) -> Result<(), OutOfMemory>
    ensures { OnOk result (out.new.items ≡ out.old.items ++ note ∷ []) }
{
    out.push(note)?;
    Ok(())
}
