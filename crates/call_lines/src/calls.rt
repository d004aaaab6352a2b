//! The rows of the table: the forms of the words of each line, and the call that they make.

ghost use Rattle.std.specs.Prelude.{map};
ghost use Rattle.std.specs.Option.{option_copied};
ghost use Rattle.script_words.specs.Gives.{LineGives};
ghost use Rattle.call_lines.specs.declared.table.CallWord.TheVariants as word;
ghost use Rattle.call_lines.specs.Calls.{added_rule, call_of, line_call};

use crate::arguments::{Alone, Forms, Then, Way};
use crate::form::{Descriptor, Id, Mapping, Mode, Name, Offset, Path, Portion, Small, Value};
use crate::paths::Paths;
use crate::table::CallWord;
use call_steps::events::{BoxedBytes, BoxedValue, Change};
use call_steps::{BoxedRule, Call};
use inode_pages::MOST_BYTES;
use script_words::{LineErr, rule_of};
use std::alloc::Global;

type One<A> = Then<A, Alone>;

type Two<A, B> = Then<A, Then<B, Alone>>;

type Three<A, B, C> = Then<A, Then<B, Then<C, Alone>>>;

// The most bytes that one call writes, and the most to which an attribute is set.
const WRITE: usize = MOST_BYTES as usize;

const SET: usize = 8192;

/// The call of a line, by its first word, the text after it, the words of that text, and the paths
/// of the files.
pub fn call_of(
    alloc: Global,
    word: CallWord,
    text: Option<&[u8]>,
    words: &[&[u8]],
    paths: &Paths,
) -> Result<Call, LineErr>
    ensures { LineGives result
        (call_of word (option_copied text.entry) (map (λ w. w.now) words.now) paths.now) }
{
    match word {
        CallWord::Open => open_of(alloc, paths, words),
        CallWord::Read => read_of(alloc, paths, words),
        CallWord::Write => write_of(alloc, paths, words),
        CallWord::Ftruncate => ftruncate_of(alloc, paths, words),
        CallWord::Close => close_of(alloc, paths, words),
        CallWord::Mmap => mmap_of(alloc, paths, words),
        CallWord::Mread => mread_of(alloc, paths, words),
        CallWord::Munmap => munmap_of(alloc, paths, words),
        CallWord::Exec => exec_of(alloc, paths, words),
        CallWord::Endexec => endexec_of(alloc, paths, words),
        CallWord::SetAttr => setxattr_of(alloc, paths, words),
        CallWord::RemoveAttr => removexattr_of(alloc, paths, words),
        CallWord::Chmod => chmod_of(alloc, paths, words),
        CallWord::Chown => chown_of(alloc, paths, words),
        CallWord::Post => post_of(alloc, paths, words),
        CallWord::Wait => wait_of(alloc, paths, words),
        CallWord::AddRule => added_rule(alloc, text),
        CallWord::Module => module_of(alloc, paths, words),
        CallWord::Firmware => firmware_of(alloc, paths, words),
    }
}

fn added_rule(alloc: Global, text: Option<&[u8]>) -> Result<Call, LineErr>
    ensures { LineGives result (added_rule (option_copied text.entry)) }
{
    let rule = rule_of(alloc, text)?;
    let rule = BoxedRule::new(alloc, rule)?;
    Ok(Call::AddRule { rule })
}

fn open_of(alloc: Global, paths: &Paths, words: &[&[u8]]) -> Result<Call, LineErr>
    ensures { LineGives result (line_call word.Open paths.now (map (λ w. w.now) words.now)) }
{
    let (fd, (inode, (how, trunc))) = <Then<Descriptor, Then<Path, Way>>>::read(
        alloc, paths, words,
    )?;
    Ok(Call::Open {
        fd,
        inode,
        how,
        trunc,
    })
}

fn read_of(alloc: Global, paths: &Paths, words: &[&[u8]]) -> Result<Call, LineErr>
    ensures { LineGives result (line_call word.Read paths.now (map (λ w. w.now) words.now)) }
{
    let (fd, (from, (len, ()))) = <Three<Descriptor, Offset, Portion>>::read(alloc, paths, words)?;
    Ok(Call::Read { fd, from, len })
}

fn write_of(alloc: Global, paths: &Paths, words: &[&[u8]]) -> Result<Call, LineErr>
    ensures { LineGives result (line_call word.Write paths.now (map (λ w. w.now) words.now)) }
{
    let (fd, (from, (bytes, ()))) = <Three<Descriptor, Offset, Value<1, WRITE>>>::read(
        alloc, paths, words,
    )?;
    let bytes = BoxedBytes::new(alloc, bytes)?;
    Ok(Call::Write { fd, from, bytes })
}

fn ftruncate_of(alloc: Global, paths: &Paths, words: &[&[u8]]) -> Result<Call, LineErr>
    ensures { LineGives result (line_call word.Ftruncate paths.now (map (λ w. w.now) words.now)) }
{
    let (fd, (len, ())) = <Two<Descriptor, Offset>>::read(alloc, paths, words)?;
    Ok(Call::Ftruncate { fd, len })
}

fn close_of(alloc: Global, paths: &Paths, words: &[&[u8]]) -> Result<Call, LineErr>
    ensures { LineGives result (line_call word.Close paths.now (map (λ w. w.now) words.now)) }
{
    let (fd, ()) = <One<Descriptor>>::read(alloc, paths, words)?;
    Ok(Call::Close { fd })
}

fn mmap_of(alloc: Global, paths: &Paths, words: &[&[u8]]) -> Result<Call, LineErr>
    ensures { LineGives result (line_call word.Mmap paths.now (map (λ w. w.now) words.now)) }
{
    let (map, (fd, (exec, ()))) = <Three<Small, Descriptor, Mapping>>::read(alloc, paths, words)?;
    Ok(Call::Mmap { map, fd, exec })
}

fn mread_of(alloc: Global, paths: &Paths, words: &[&[u8]]) -> Result<Call, LineErr>
    ensures { LineGives result (line_call word.Mread paths.now (map (λ w. w.now) words.now)) }
{
    let (map, (from, (len, ()))) = <Three<Small, Offset, Portion>>::read(alloc, paths, words)?;
    Ok(Call::Mread { map, from, len })
}

fn munmap_of(alloc: Global, paths: &Paths, words: &[&[u8]]) -> Result<Call, LineErr>
    ensures { LineGives result (line_call word.Munmap paths.now (map (λ w. w.now) words.now)) }
{
    let (map, ()) = <One<Small>>::read(alloc, paths, words)?;
    Ok(Call::Munmap { map })
}

fn exec_of(alloc: Global, paths: &Paths, words: &[&[u8]]) -> Result<Call, LineErr>
    ensures { LineGives result (line_call word.Exec paths.now (map (λ w. w.now) words.now)) }
{
    let (run, (inode, ())) = <Two<Small, Path>>::read(alloc, paths, words)?;
    Ok(Call::Exec { run, inode })
}

fn endexec_of(alloc: Global, paths: &Paths, words: &[&[u8]]) -> Result<Call, LineErr>
    ensures { LineGives result (line_call word.Endexec paths.now (map (λ w. w.now) words.now)) }
{
    let (run, ()) = <One<Small>>::read(alloc, paths, words)?;
    Ok(Call::Endexec { run })
}

fn setxattr_of(alloc: Global, paths: &Paths, words: &[&[u8]]) -> Result<Call, LineErr>
    ensures { LineGives result (line_call word.SetAttr paths.now (map (λ w. w.now) words.now)) }
{
    let (inode, (name, (value, ()))) = <Three<Path, Name, Value<0, SET>>>::read(
        alloc, paths, words,
    )?;
    let value = BoxedValue::new(alloc, Some(value))?;
    Ok(Call::SetAttr { inode, name, value })
}

fn removexattr_of(alloc: Global, paths: &Paths, words: &[&[u8]]) -> Result<Call, LineErr>
    ensures { LineGives result (line_call word.RemoveAttr paths.now (map (λ w. w.now) words.now)) }
{
    let (inode, (name, ())) = <Two<Path, Name>>::read(alloc, paths, words)?;
    let value = BoxedValue::new(alloc, None)?;
    Ok(Call::SetAttr { inode, name, value })
}

fn chmod_of(alloc: Global, paths: &Paths, words: &[&[u8]]) -> Result<Call, LineErr>
    ensures { LineGives result (line_call word.Chmod paths.now (map (λ w. w.now) words.now)) }
{
    let (inode, (mode, ())) = <Two<Path, Mode>>::read(alloc, paths, words)?;
    let change = Change::Mode(mode);
    Ok(Call::SetMeta { inode, change })
}

fn chown_of(alloc: Global, paths: &Paths, words: &[&[u8]]) -> Result<Call, LineErr>
    ensures { LineGives result (line_call word.Chown paths.now (map (λ w. w.now) words.now)) }
{
    let (inode, (uid, (gid, ()))) = <Three<Path, Id, Id>>::read(alloc, paths, words)?;
    let change = Change::Owner { uid, gid };
    Ok(Call::SetMeta { inode, change })
}

fn post_of(alloc: Global, paths: &Paths, words: &[&[u8]]) -> Result<Call, LineErr>
    ensures { LineGives result (line_call word.Post paths.now (map (λ w. w.now) words.now)) }
{
    let (sem, ()) = <One<Small>>::read(alloc, paths, words)?;
    Ok(Call::Post { sem })
}

fn wait_of(alloc: Global, paths: &Paths, words: &[&[u8]]) -> Result<Call, LineErr>
    ensures { LineGives result (line_call word.Wait paths.now (map (λ w. w.now) words.now)) }
{
    let (sem, ()) = <One<Small>>::read(alloc, paths, words)?;
    Ok(Call::Wait { sem })
}

fn module_of(alloc: Global, paths: &Paths, words: &[&[u8]]) -> Result<Call, LineErr>
    ensures { LineGives result (line_call word.Module paths.now (map (λ w. w.now) words.now)) }
{
    let (inode, ()) = <One<Path>>::read(alloc, paths, words)?;
    Ok(Call::Module { inode })
}

fn firmware_of(alloc: Global, paths: &Paths, words: &[&[u8]]) -> Result<Call, LineErr>
    ensures { LineGives result (line_call word.Firmware paths.now (map (λ w. w.now) words.now)) }
{
    let (inode, ()) = <One<Path>>::read(alloc, paths, words)?;
    Ok(Call::Firmware { inode })
}
