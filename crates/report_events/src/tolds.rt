// The words of an event's outcome.

ghost use Rattle.std.specs.Prelude.{◌≡◌, ◌++◌, OnOk};
ghost use Rattle.std.specs.List.{join_with_byte};
ghost use Rattle.report_events.specs.Texts.{admitted_text, placed_text, verdict_text};
ghost use Rattle.report_events.specs.Words.{told_words};

use crate::acts::push_flag;
use crate::push::{push_number, push_numbered, push_pair};
use ima_templates::Placed;
use inode_events::{Grant, Told};
use label_values::Verdict;
use std::alloc::AllocError as OutOfMemory;

pub fn push_told(out: &mut Vec<u8>, told: &Told) -> Result<(), OutOfMemory>
    ensures { OnOk result
        (out.new.items ≡ out.old.items ++ join_with_byte 32 (told_words told.now)) }
{
    match told {
        Told::Image(_) => out.extend_from_slice(b"image"),
        Told::Held => out.extend_from_slice(b"held"),
        Told::NotFound => out.extend_from_slice(b"notfound"),
        Told::TextBusy => out.extend_from_slice(b"textbusy"),
        Told::Quiet => out.extend_from_slice(b"quiet"),
        Told::OpenWriters(place) => push_numbered(out, b"open-writers", *place),
        Told::ToMToU(place) => push_numbered(out, b"tomtou", *place),
        Told::Begun => out.extend_from_slice(b"begun"),
        Told::Grant(grant) => push_grant(out, *grant),
        Told::More => out.extend_from_slice(b"more"),
        Told::Last => out.extend_from_slice(b"last"),
        Told::Read { n, .. } => push_number(out, u64::from(*n)),
        Told::Done => out.extend_from_slice(b"done"),
        Told::TooBig => out.extend_from_slice(b"toobig"),
        Told::EvmName => out.extend_from_slice(b"evmname"),
        Told::NotAdmin => out.extend_from_slice(b"notadmin"),
        Told::TooLong => out.extend_from_slice(b"toolong"),
        Told::Invalid => out.extend_from_slice(b"invalid"),
        Told::NoData => out.extend_from_slice(b"nodata"),
        Told::Status(status) => push_pair(out, b"status", status.word().as_bytes()),
        Told::Dropped => out.extend_from_slice(b"dropped"),
        Told::LabelledDropped => out.extend_from_slice(b"labelled dropped"),
        Told::Nothing => out.extend_from_slice(b"nothing"),
    }
}

fn push_grant(out: &mut Vec<u8>, grant: Grant) -> Result<(), OutOfMemory>
    ensures { OnOk result (out.new.items ≡ out.old.items
        ++ (placed_text grant.placed ++ verdict_text grant.verdict
        ++ admitted_text grant.admitted grant.labelled)) }
{
    push_placed(out, grant.placed)?;
    push_verdict(out, grant.verdict)?;
    push_admitted(out, grant.admitted, grant.labelled)
}

fn push_placed(out: &mut Vec<u8>, placed: Option<Placed>) -> Result<(), OutOfMemory>
    ensures { OnOk result (out.new.items ≡ out.old.items ++ placed_text placed) }
{
    let (word, place) = match placed {
        Some(Placed::Added(place)) => (b"added ".as_slice(), place),
        Some(Placed::Already(place)) => (b"already ".as_slice(), place),
        None => return Ok(()),
    };
    out.extend_from_slice(word)?;
    push_number(out, place)?;
    out.extend_from_slice(b" ")
}

fn push_verdict(out: &mut Vec<u8>, verdict: Option<Verdict>) -> Result<(), OutOfMemory>
    ensures { OnOk result (out.new.items ≡ out.old.items ++ verdict_text verdict) }
{
    match verdict {
        Some(Verdict::Pass) => out.extend_from_slice(b"pass "),
        Some(Verdict::Deny(cause)) => {
            out.extend_from_slice(b"deny ")?;
            out.extend_from_slice(cause.word().as_bytes())?;
            out.extend_from_slice(b" ")
        }
        None => Ok(()),
    }
}

fn push_admitted(out: &mut Vec<u8>, admitted: bool, labelled: bool) -> Result<(), OutOfMemory>
    ensures { OnOk result (out.new.items ≡ out.old.items ++ admitted_text admitted labelled) }
{
    out.extend_from_slice(if admitted {
        b"admitted".as_slice()
    } else {
        b"refused"
    })?;
    push_flag(out, b" labelled", labelled)
}
