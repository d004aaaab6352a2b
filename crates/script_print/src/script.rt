//! The canonical text of a script.

ghost use Rattle.std.specs.Prelude.{◌≡◌, ◌++◌, IfOk, Ok, OnOk};
ghost use Rattle.std.specs.List.{AllByRecursion};
ghost use Rattle.call_lines.specs.Lines.{lines_text};
ghost use Rattle.script_text.specs.Grammar.{script_of};
ghost use Rattle.script_spelling.specs.Rules.{AreReadRules, IsReadRule};
ghost use Rattle.script_spelling.specs.Spelling.{script_text, system_lines, work_lines};

use crate::calls::{paths_of, push_ending, push_rules, push_tasks};
use crate::files::push_files;
use crate::settings::{push_evm, push_settings, push_supers};
use script_text::Script;
use std::alloc::{AllocError as OutOfMemory, Global};

/// The canonical text of a script, which is read as the same script: all settings except an absent
/// key, with the `boot` digest among them, and then the sections in order. Values are spelled as
/// `hex:` in lower case, and the attributes of a sealed file as attributes, without a `seal`.
pub fn print(alloc: Global, script: &Script) -> Result<Vec<u8>, OutOfMemory>
    ensures text { IfOk result (λ v. v.items ≡ script_text script.now) }
    ensures again { IfOk result (λ v. script_of v.items ≡ Ok script.now) }
{
    script.keeps();
    let mut out = Vec::new(alloc);
    push_system(&mut out, script)?;
    push_work(alloc, &mut out, script)?;
    Ok(out)
}

// Appends the sections of settings, file systems and files.
fn push_system(out: &mut Vec<u8>, script: &Script) -> Result<(), OutOfMemory>
    ensures { OnOk result (
        out.new.items ≡ out.old.items ++ lines_text (system_lines script.now)) }
{
    push_settings(out, script)?;
    push_evm(out, script)?;
    push_supers(out, &script.supers)?;
    push_files(out, &script.files)
}

// Appends the sections of rules and tasks, and the ending.
fn push_work(alloc: Global, out: &mut Vec<u8>, script: &Script) -> Result<(), OutOfMemory>
    ensures text { OnOk result (
        out.new.items ≡ out.old.items ++ lines_text (work_lines script.now)) }
    ensures rules { OnOk result (AllByRecursion IsReadRule script.now.rules) }
    ensures tasks { OnOk result (AllByRecursion AreReadRules script.now.tasks) }
{
    push_rules(alloc, out, script.rules.rules())?;
    let paths = paths_of(alloc, &script.files)?;
    push_tasks(alloc, out, &paths, &script.tasks)?;
    push_ending(out, &script.ending)
}
