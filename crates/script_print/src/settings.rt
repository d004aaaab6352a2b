// The lines of settings and file systems.

ghost use Rattle.std.specs.Prelude.{◌≡◌, ◌++◌, codes, flat_map, OnOk};
ghost use Rattle.text_forms.specs.FileSystems.{magic_text, uuid_text};
ghost use Rattle.call_lines.specs.Lines.{line_text, lines_text};
ghost use Rattle.script_spelling.specs.Spelling.{evm_lines, format_word, key_lines, lock_lines, name_line, setting_lines, super_line, versions_word};

use crate::pushed::{push_line, push_value_line, push_word};
use policy_text::Super;
use script_text::Script;
use std::alloc::AllocError as OutOfMemory;
use std::io::Write;
use text_forms::{FsUuid, Magic};
use xattr_store::Bytes;

pub fn push_settings(out: &mut Vec<u8>, script: &Script) -> Result<(), OutOfMemory>
    ensures { OnOk result (
        out.new.items ≡ out.old.items ++ lines_text (setting_lines script.now)) }
{
    push_line(out, b"imakern", b"1")?;
    push_line(out, b"hash", script.hash.name().as_bytes())?;
    push_line(out, b"template", script.template.word().as_bytes())?;
    push_value_line(out, b"boot", script.boot.as_slice())?;
    push_line(out, b"appraise", script.mode.word().as_bytes())
}

pub fn push_evm(out: &mut Vec<u8>, script: &Script) -> Result<(), OutOfMemory>
    ensures { OnOk result (out.new.items ≡ out.old.items ++ lines_text (evm_lines script.now)) }
{
    push_key(out, &script.key)?;
    push_names(out, &script.added)?;
    push_lock(out, script.locked)?;
    push_line(out, b"evm_format", format_word(script.format))
}

fn push_key(out: &mut Vec<u8>, key: &Option<Bytes>) -> Result<(), OutOfMemory>
    ensures { OnOk result (out.new.items ≡ out.old.items ++ lines_text (key_lines key.now)) }
{
    match key {
        Some(key) => push_value_line(out, b"evm", key.as_slice()),
        None => Ok(()),
    }
}

fn push_names(out: &mut Vec<u8>, names: &[Bytes]) -> Result<(), OutOfMemory>
    ensures { OnOk result (
        out.new.items ≡ out.old.items ++ flat_map (λ w. line_text (name_line w)) names.now) }
{
    for name in names {
        push_line(out, b"evm_xattrs", name.as_slice())?;
    }
    Ok(())
}

fn push_lock(out: &mut Vec<u8>, locked: bool) -> Result<(), OutOfMemory>
    ensures { OnOk result (out.new.items ≡ out.old.items ++ lines_text (lock_lines locked)) }
{
    if locked {
        push_line(out, b"evm_xattrs", b".")?;
    }
    Ok(())
}

fn format_word(format: u8) -> &'static [u8]
    ensures { result.now ≡ format_word format }
{
    if format == 2 { b"2" } else { b"1" }
}

pub fn push_supers(out: &mut Vec<u8>, supers: &[Super]) -> Result<(), OutOfMemory>
    ensures { OnOk result (
        out.new.items ≡ out.old.items ++ flat_map (λ s. line_text (super_line s)) supers.now) }
{
    for fs in supers {
        push_super(out, fs)?;
    }
    Ok(())
}

fn push_super(out: &mut Vec<u8>, fs: &Super) -> Result<(), OutOfMemory>
    ensures { OnOk result (out.new.items ≡ out.old.items ++ line_text (super_line fs.now)) }
{
    push_magic(out, fs.magic)?;
    push_uuid(out, fs.uuid)?;
    out.extend_from_slice(b" name=")?;
    out.extend_from_slice(fs.name.as_slice())?;
    push_word(out, versions_word(fs.versions))?;
    out.push(b'\n')?;
    Ok(())
}

fn push_magic(out: &mut Vec<u8>, magic: u64) -> Result<(), OutOfMemory>
    ensures { OnOk result (
        out.new.items ≡ out.old.items ++ (codes "fs magic=" ++ magic_text magic)) }
{
    match write!(out, "fs magic={}", Magic(magic)) {
        Ok(()) => Ok(()),
        Err(_) => Err(OutOfMemory),
    }
}

fn push_uuid(out: &mut Vec<u8>, uuid: u128) -> Result<(), OutOfMemory>
    ensures { OnOk result (
        out.new.items ≡ out.old.items ++ (codes " uuid=" ++ uuid_text uuid)) }
{
    match write!(out, " uuid={}", FsUuid(uuid)) {
        Ok(()) => Ok(()),
        Err(_) => Err(OutOfMemory),
    }
}

fn versions_word(versions: bool) -> &'static [u8]
    ensures { result.now ≡ versions_word versions }
{
    if versions { b"versions" } else { b"noversions" }
}
