// The words of an event's deed.

ghost use Rattle.std.specs.Prelude.{◌≡◌, [], ◌∷◌, ◌++◌, OnOk, codes};
ghost use Rattle.std.specs.List.{join_with_byte};
ghost use Rattle.policy_rules.specs.ValueTexts.{func_word};
ghost use Rattle.report_events.specs.Texts.{acts_text, rules_text};
ghost use Rattle.report_events.specs.Words.{change_words, deed_words, how_words, length_word};

use crate::acts::{push_acts, push_rules};
use crate::push::{push_number, push_numbered, push_numbers, push_pair};
use inode_events::{BoxedValue, Change, Deed, How};
use inode_meta::Template;
use policy_rules::{Action, Func};
use std::alloc::AllocError as OutOfMemory;
use std::io::Write;

// Prints a deed. `default` is the template of a measurement whose rule names none; `grows` says
// whether the run can append rules.
pub fn push_deed(
    out: &mut Vec<u8>,
    default: Template,
    grows: bool,
    deed: &Deed,
) -> Result<(), OutOfMemory>
    ensures text { OnOk result (out.new.items
        ≡ out.old.items ++ join_with_byte 32 (deed_words default grows deed.now)) }
{
    match deed {
        Deed::Birth => out.extend_from_slice(b"birth"),
        Deed::Count { how } => push_count(out, *how),
        Deed::Check {
            file,
            func,
            action,
            rules,
        } => push_check(out, default, grows, *file, *func, action, *rules),
        Deed::Take { file } => push_numbered(out, b"take", *file),
        Deed::Chunk { file } => push_numbered(out, b"chunk", *file),
        Deed::Finish { file } => push_numbered(out, b"finish", *file),
        Deed::Read { file, from, len } => push_numbers(out, b"read", &[*file, *from, *len]),
        Deed::Write { file, from, bytes } => {
            push_numbers(
                out,
                b"write",
                &[*file, *from, bytes.as_slice().len() as u64],
            )
        }
        Deed::Trunc { file, len } => push_numbers(out, b"trunc", &[*file, *len]),
        Deed::SetAttr { name, value, .. } => push_set_attr(out, name.as_slice(), value),
        Deed::SetMeta { change } => push_change(out, *change),
        Deed::Close { file } => push_numbered(out, b"close", *file),
        Deed::CloseTake { file } => push_numbered(out, b"close-take", *file),
        Deed::CloseChunk { file } => push_numbered(out, b"close-chunk", *file),
        Deed::CloseFinish { file } => push_numbered(out, b"close-finish", *file),
        Deed::Post(sem) => push_numbered(out, b"post", u64::from(*sem)),
        Deed::Wait(sem) => push_numbered(out, b"wait", u64::from(*sem)),
    }
}

fn push_count(out: &mut Vec<u8>, how: How) -> Result<(), OutOfMemory>
    ensures { OnOk result (out.new.items
        ≡ out.old.items ++ join_with_byte 32 (codes "count" ∷ how_words how)) }
{
    out.extend_from_slice(b"count ")?;
    out.extend_from_slice(how_text(how).as_bytes())
}

fn push_check(
    out: &mut Vec<u8>,
    default: Template,
    grows: bool,
    file: u64,
    func: Func,
    action: &Action,
    rules: u64,
) -> Result<(), OutOfMemory>
    ensures { OnOk result (out.new.items ≡ out.old.items ++ join_with_byte 32
        (deed_words default grows (Deed.Check file func action.now rules))) }
{
    push_numbered(out, b"check", file)?;
    out.extend_from_slice(b" ")?;
    out.extend_from_slice(func.word().as_bytes())?;
    push_rules(out, grows, rules)?;
    push_acts(out, default, action)
}

fn push_set_attr(out: &mut Vec<u8>, name: &[u8], value: &BoxedValue) -> Result<(), OutOfMemory>
    ensures { OnOk result (out.new.items ≡ out.old.items ++ join_with_byte 32
        (codes "set-attr" ∷ name.now ∷ length_word value.now ∷ [])) }
{
    push_pair(out, b"set-attr", name)?;
    out.extend_from_slice(b" ")?;
    push_length(out, value)
}

fn how_text(how: How) -> &'static str
    ensures { result.now ≡ join_with_byte 32 (how_words how) }
{
    match how {
        How::Read { create: true } => "r create",
        How::Read { create: false } => "r",
        How::Write {
            read: true,
            create: true,
        } => "rw create",
        How::Write {
            read: true,
            create: false,
        } => "rw",
        How::Write {
            read: false,
            create: true,
        } => "w create",
        How::Write {
            read: false,
            create: false,
        } => "w",
        How::Exec => "x",
    }
}

// Prints the length of the new value, or a dash if the attribute is removed.
fn push_length(out: &mut Vec<u8>, value: &BoxedValue) -> Result<(), OutOfMemory>
    ensures { OnOk result (out.new.items ≡ out.old.items ++ length_word value.now) }
{
    match value.get() {
        Some(value) => push_number(out, value.as_slice().len() as u64),
        None => out.extend_from_slice(b"-"),
    }
}

// Prints a change of metadata, with a mode in octal.
fn push_change(out: &mut Vec<u8>, change: Change) -> Result<(), OutOfMemory>
    ensures { OnOk result (out.new.items
        ≡ out.old.items ++ join_with_byte 32 (codes "set-meta" ∷ change_words change)) }
{
    match change {
        Change::Mode(mode) => match write!(out, "set-meta mode {mode:o}") {
            Ok(()) => Ok(()),
            Err(_) => Err(OutOfMemory),
        },
        Change::Owner { uid, gid } => push_numbers(
            out,
            b"set-meta owner",
            &[u64::from(uid), u64::from(gid)],
        ),
    }
}
