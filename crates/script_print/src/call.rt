// The canonical line of a call.

ghost use Rattle.std.specs.Prelude.{◌≡◌, [], ◌∷◌, ◌++◌, codes, decimal, map, OnOk};
ghost use Rattle.policy_text.specs.Spelling.{rule_words};
ghost use Rattle.call_lines.specs.Calls.{call_line};
ghost use Rattle.call_lines.specs.Form.{hex_text, mapping_word};
ghost use Rattle.call_lines.specs.Lines.{words_text};
ghost use Rattle.call_lines.specs.Rules.{HasReadRule, IsReadRule};

use crate::named::{push_attr, push_change, push_exec, push_named, push_open};
use crate::pushed::{push_number, push_one, push_value};
use call_steps::Call;
use policy_text::{Rule, print_rule};
use std::alloc::{AllocError as OutOfMemory, Global};

// Appends the canonical line of a call without its newline, if the files have these paths.
pub fn push_call(
    alloc: Global,
    out: &mut Vec<u8>,
    paths: &[&[u8]],
    call: &Call,
) -> Result<(), OutOfMemory>
    ensures text { OnOk result (out.new.items
        ≡ out.old.items ++ words_text (call_line (map (λ p. p.now) paths.now) call.now)) }
    ensures rule { OnOk result (HasReadRule call.now) }
{
    match call {
        Call::Open {
            fd,
            inode,
            how,
            trunc,
        } => push_open(out, paths, *fd, *inode, *how, *trunc),
        Call::Read { fd, from, len } => push_three(out, b"read", *fd, *from, *len),
        Call::Write { fd, from, bytes } => push_write(out, *fd, *from, bytes.as_slice()),
        Call::Ftruncate { fd, len } => push_two(out, b"ftruncate", *fd, *len),
        Call::Close { fd } => push_one(out, b"close", *fd),
        Call::Mmap { map, fd, exec } => push_mmap(out, *map, *fd, *exec),
        Call::Mread { map, from, len } => push_three(out, b"mread", *map, *from, *len),
        Call::Munmap { map } => push_one(out, b"munmap", *map),
        Call::Exec { run, inode } => push_exec(out, paths, *run, *inode),
        Call::Endexec { run } => push_one(out, b"endexec", *run),
        Call::SetAttr { inode, name, value } => {
            push_attr(out, paths, *inode, name.as_slice(), value.get())
        }
        Call::SetMeta { inode, change } => push_change(out, paths, *inode, change),
        Call::Post { sem } => push_one(out, b"post", *sem),
        Call::Wait { sem } => push_one(out, b"wait", *sem),
        Call::AddRule { rule } => push_added(alloc, out, rule.get()),
        Call::Module { inode } => push_named(out, b"module", paths, *inode),
        Call::Firmware { inode } => push_named(out, b"firmware", paths, *inode),
    }
}

fn push_two(out: &mut Vec<u8>, head: &[u8], number: u8, len: u64) -> Result<(), OutOfMemory>
    ensures { OnOk result (out.new.items ≡ out.old.items
        ++ words_text (head.now ∷ decimal number ∷ decimal len ∷ [])) }
{
    push_one(out, head, number)?;
    push_number(out, b" ", len)
}

fn push_three(
    out: &mut Vec<u8>,
    head: &[u8],
    number: u8,
    from: u64,
    len: u64,
) -> Result<(), OutOfMemory>
    ensures { OnOk result (out.new.items ≡ out.old.items
        ++ words_text (head.now ∷ decimal number ∷ decimal from ∷ decimal len ∷ [])) }
{
    push_two(out, head, number, from)?;
    push_number(out, b" ", len)
}

fn push_write(out: &mut Vec<u8>, fd: u8, from: u64, bytes: &[u8]) -> Result<(), OutOfMemory>
    ensures { OnOk result (out.new.items ≡ out.old.items
        ++ words_text (codes "write" ∷ decimal fd ∷ decimal from ∷ hex_text bytes.now ∷ [])) }
{
    push_two(out, b"write", fd, from)?;
    push_value(out, b" ", bytes)
}

fn push_mmap(out: &mut Vec<u8>, map: u8, fd: u8, exec: bool) -> Result<(), OutOfMemory>
    ensures { OnOk result (out.new.items ≡ out.old.items
        ++ words_text (codes "mmap" ∷ decimal map ∷ decimal fd ∷ mapping_word exec ∷ [])) }
{
    push_two(out, b"mmap", map, u64::from(fd))?;
    out.extend_from_slice(if exec { b" exec" } else { b" read" })
}

fn push_added(alloc: Global, out: &mut Vec<u8>, rule: &Rule) -> Result<(), OutOfMemory>
    ensures text { OnOk result (
        out.new.items ≡ out.old.items ++ words_text (codes "addrule" ∷ rule_words rule.now)) }
    ensures rule { OnOk result (IsReadRule rule.now) }
{
    out.extend_from_slice(b"addrule ")?;
    print_rule(alloc, rule, out)
}
