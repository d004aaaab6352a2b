// The output lines of each file.
ghost use Rattle.std.specs.Prelude.{◌≡◌, ◌++◌, flat_map, IfOk, OnOk};
ghost use Rattle.std.specs.Option.{option_copied};
ghost use Rattle.script_text.specs.Files.{setup_of};
ghost use Rattle.label_text.specs.Labels.{file_lines, hmac_line, label_answer, line_under, value_line};

use crate::seal::sealed_attrs;
use evm_verify::Evm;
use script_scene::evm_of;
use script_text::{FileBlock, Script};
use std::alloc::{AllocError as OutOfMemory, Global};

/// A line with the label of each file that is present and, if the script has a key, one with its
/// HMAC.
pub fn label_text(alloc: Global, script: &Script) -> Result<Vec<u8>, OutOfMemory>
    ensures { IfOk result (λ text. text.items ≡ label_answer script.now) }
{
    let evm = evm_of(alloc, script)?;
    let mut text = Vec::new(alloc);
    for file in &script.files {
        push_file(alloc, &mut text, &evm, script, file)?;
    }
    Ok(text)
}

fn push_file(
    alloc: Global,
    text: &mut Vec<u8>,
    evm: &Evm,
    script: &Script,
    file: &FileBlock,
) -> Result<(), OutOfMemory>
    requires { evm.now ≡ setup_of script.now }
    ensures { OnOk result (text.new.items ≡ text.old.items ++ file_lines script.now file.now) }
{
    if !file.image.present {
        return Ok(());
    }
    let path = file.path.as_slice();
    let attrs = sealed_attrs(evm, script.hash, file)?;
    push_under(alloc, text, path, "security.ima", attrs.label())?;
    push_hmac(alloc, text, script, path, attrs.hmac())
}

fn push_hmac(
    alloc: Global,
    text: &mut Vec<u8>,
    script: &Script,
    path: &[u8],
    hmac: Option<&[u8]>,
) -> Result<(), OutOfMemory>
    ensures { OnOk result (text.new.items
        ≡ text.old.items ++ hmac_line script.now.key path.now (option_copied hmac.entry)) }
{
    match &script.key {
        Some(_) => push_under(alloc, text, path, "security.evm", hmac),
        None => Ok(()),
    }
}

fn push_under(
    alloc: Global,
    text: &mut Vec<u8>,
    path: &[u8],
    name: &str,
    value: Option<&[u8]>,
) -> Result<(), OutOfMemory>
    ensures { OnOk result (text.new.items
        ≡ text.old.items ++ line_under path.now name.now (option_copied value.entry)) }
{
    match value {
        Some(value) => push_value(alloc, text, path, name, value),
        None => Ok(()),
    }
}

fn push_value(
    alloc: Global,
    text: &mut Vec<u8>,
    path: &[u8],
    name: &str,
    value: &[u8],
) -> Result<(), OutOfMemory>
    ensures { OnOk result (text.new.items
        ≡ text.old.items ++ value_line path.now name.now value.now) }
{
    let digits = hex::encode(alloc, value)?;
    let line = format!(in alloc; " {name}={digits}\n")?;
    text.extend_from_slice(path)?;
    text.extend_from_slice(line.as_bytes())
}
