// The lines of the calls that name a file.

ghost use Rattle.std.specs.Prelude.{◌≡◌, [], ◌∷◌, ◌++◌, map, Some, None, OnOk};
ghost use Rattle.call_steps.specs.declared.call.Call.TheVariants as call;
ghost use Rattle.call_steps.specs.events.declared.deed.Change.TheVariants as change;
ghost use Rattle.call_lines.specs.Arguments.{way_words};
ghost use Rattle.call_lines.specs.Calls.{call_line};
ghost use Rattle.call_lines.specs.Form.{path_at};
ghost use Rattle.call_lines.specs.Lines.{spaced, words_text};

use crate::pushed::{push_number, push_octal, push_one, push_value, push_word};
use call_steps::events::{Change, How};
use std::alloc::AllocError as OutOfMemory;
use xattr_store::Bytes;

// The path of the file of this number; empty if there is no such file.
fn path_at<'a>(paths: &[&'a [u8]], inode: u32) -> &'a [u8]
    ensures { result.now ≡ path_at (map (λ p. p.now) paths.now) inode }
{
    match paths.get(inode as usize) {
        Some(path) => path,
        None => b"",
    }
}

// Appends the line of a word and a file.
pub fn push_named(
    out: &mut Vec<u8>,
    head: &[u8],
    paths: &[&[u8]],
    inode: u32,
) -> Result<(), OutOfMemory>
    ensures { OnOk result (out.new.items ≡ out.old.items
        ++ words_text (head.now ∷ path_at (map (λ p. p.now) paths.now) inode ∷ [])) }
{
    out.extend_from_slice(head)?;
    push_word(out, path_at(paths, inode))
}

pub fn push_open(
    out: &mut Vec<u8>,
    paths: &[&[u8]],
    fd: u8,
    inode: u32,
    how: How,
    trunc: bool,
) -> Result<(), OutOfMemory>
    ensures { OnOk result (out.new.items ≡ out.old.items
        ++ words_text (call_line (map (λ p. p.now) paths.now) (call.Open fd inode how trunc))) }
{
    push_one(out, b"open", fd)?;
    push_word(out, path_at(paths, inode))?;
    out.extend_from_slice(way_text(how))?;
    out.extend_from_slice(if trunc { b" trunc" } else { b"" })
}

fn way_text(how: How) -> &'static [u8]
    ensures { result.now ≡ spaced (way_words how) }
{
    match how {
        How::Read { create: true } => b" r create",
        How::Read { create: false } => b" r",
        How::Write {
            read: true,
            create: true,
        } => b" rw create",
        How::Write {
            read: true,
            create: false,
        } => b" rw",
        How::Write {
            read: false,
            create: true,
        } => b" w create",
        How::Write {
            read: false,
            create: false,
        } => b" w",
        How::Exec => b"",
    }
}

pub fn push_exec(out: &mut Vec<u8>, paths: &[&[u8]], run: u8, inode: u32) -> Result<(), OutOfMemory>
    ensures { OnOk result (out.new.items ≡ out.old.items
        ++ words_text (call_line (map (λ p. p.now) paths.now) (call.Exec run inode))) }
{
    push_one(out, b"exec", run)?;
    push_word(out, path_at(paths, inode))
}

// Appends the line that sets an attribute, or that removes it if there is no value.
pub fn push_attr(
    out: &mut Vec<u8>,
    paths: &[&[u8]],
    inode: u32,
    name: &[u8],
    value: &Option<Bytes>,
) -> Result<(), OutOfMemory>
    ensures { OnOk result (out.new.items ≡ out.old.items
        ++ words_text (call_line (map (λ p. p.now) paths.now)
        (call.SetAttr inode name.now value.now))) }
{
    match value {
        Some(value) => push_set(out, paths, inode, name, value),
        None => push_removed(out, paths, inode, name),
    }
}

fn push_set(
    out: &mut Vec<u8>,
    paths: &[&[u8]],
    inode: u32,
    name: &[u8],
    value: &Bytes,
) -> Result<(), OutOfMemory>
    ensures { OnOk result (out.new.items ≡ out.old.items
        ++ words_text (call_line (map (λ p. p.now) paths.now)
        (call.SetAttr inode name.now (Some value.now)))) }
{
    push_named(out, b"setxattr", paths, inode)?;
    push_word(out, name)?;
    push_value(out, b" ", value.as_slice())
}

fn push_removed(
    out: &mut Vec<u8>,
    paths: &[&[u8]],
    inode: u32,
    name: &[u8],
) -> Result<(), OutOfMemory>
    ensures { OnOk result (out.new.items ≡ out.old.items
        ++ words_text (call_line (map (λ p. p.now) paths.now)
        (call.SetAttr inode name.now None))) }
{
    push_named(out, b"removexattr", paths, inode)?;
    push_word(out, name)
}

// Appends the line that sets the mode or the owner of a file.
pub fn push_change(
    out: &mut Vec<u8>,
    paths: &[&[u8]],
    inode: u32,
    change: &Change,
) -> Result<(), OutOfMemory>
    ensures { OnOk result (out.new.items ≡ out.old.items
        ++ words_text (call_line (map (λ p. p.now) paths.now)
        (call.SetMeta inode change.now))) }
{
    match change {
        Change::Mode(mode) => push_mode(out, paths, inode, *mode),
        Change::Owner { uid, gid } => push_owner(out, paths, inode, *uid, *gid),
    }
}

fn push_mode(out: &mut Vec<u8>, paths: &[&[u8]], inode: u32, mode: u16) -> Result<(), OutOfMemory>
    ensures { OnOk result (out.new.items ≡ out.old.items
        ++ words_text (call_line (map (λ p. p.now) paths.now)
        (call.SetMeta inode (change.Mode mode)))) }
{
    push_named(out, b"chmod", paths, inode)?;
    push_octal(out, b" ", mode)
}

fn push_owner(
    out: &mut Vec<u8>,
    paths: &[&[u8]],
    inode: u32,
    uid: u32,
    gid: u32,
) -> Result<(), OutOfMemory>
    ensures { OnOk result (out.new.items ≡ out.old.items
        ++ words_text (call_line (map (λ p. p.now) paths.now)
        (call.SetMeta inode (change.Owner uid gid)))) }
{
    push_named(out, b"chown", paths, inode)?;
    push_number(out, b" ", u64::from(uid))?;
    push_number(out, b" ", u64::from(gid))
}
