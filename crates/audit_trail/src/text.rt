// The trail as a text.

ghost use Rattle.std.specs.Prelude.{◌≡◌, ◌++◌, length, List, IfOk, OnOk};
ghost use Rattle.report_text.specs.Words.{Line};
ghost use Rattle.script_scene.specs.Scene.{IsForFiles, scene_of};
ghost use Rattle.world_model.specs.model.events.forms.Words.{text_of};
ghost use Rattle.world_model.specs.model.rules.Policy.{rules_in};
ghost use Rattle.audit_trail.specs.Sites.{AreLegal, ArePlaced, lines_from};
ghost use Rattle.audit_trail.specs.Trail.{IsOfRun, trail_lines, trail_text};

use crate::journals::push_inodes;
use crate::site::Context;
use inode_events::EndedInode;
use policy_text::Policy;
use report_text::push_numbers;
use rule_match::Index;
use run_model::{Ended, RuleEntry};
use script_scene::settings_of;
use script_text::Script;
use std::alloc::{AllocError as OutOfMemory, Global};

// The trail of these inodes: how many records there are, the records, and `end`.
fn trail_by(
    alloc: Global,
    context: &Context<'_>,
    inodes: &[EndedInode],
) -> Result<Vec<u8>, OutOfMemory>
    requires placed { ArePlaced context.now }
    requires legal { AreLegal context.now inodes.now }
    ensures { IfOk result (λ text. text.items
        ≡ text_of (trail_lines (lines_from context.now 0 inodes.now))) }
{
    let mut lines = Vec::new(alloc);
    let count = push_inodes(alloc, &mut lines, context, inodes)?;
    trail_with(alloc, count, lines.as_slice())
}

// The trail of so many records, whose lines are these.
fn trail_with(alloc: Global, count: u64, lines: &[u8]) -> Result<Vec<u8>, OutOfMemory>
    ensures { (ls : List Line) → count ≡ length ls → lines.now ≡ text_of ls
        → IfOk result (λ text. text.items ≡ text_of (trail_lines ls)) }
{
    let mut out = Vec::new(alloc);
    push_trail(&mut out, count, lines)?;
    Ok(out)
}

// Appends how many records there are, the records, and `end`.
fn push_trail(out: &mut Vec<u8>, count: u64, lines: &[u8]) -> Result<(), OutOfMemory>
    ensures { (ls : List Line) → count ≡ length ls → lines.now ≡ text_of ls
        → OnOk result (out.new.items ≡ out.old.items ++ text_of (trail_lines ls)) }
{
    push_numbers(out, b"trail", &[count])?;
    out.extend_from_slice(b"\n")?;
    out.extend_from_slice(lines)?;
    out.extend_from_slice(b"end\n")
}

// Appends the rules of these entries.
fn append_all(rules: &mut Index, appended: &[RuleEntry]) -> Result<(), OutOfMemory>
    ensures { OnOk result (rules.new ≡ rules.old ++ rules_in appended.now) }
{
    for entry in appended {
        rules.append(&entry.rule)?;
    }
    Ok(())
}

// All rules of a run, with an index: those of the script, followed by the appended ones.
fn rules_of(alloc: Global, base: &Policy, appended: &[RuleEntry]) -> Result<Index, OutOfMemory>
    ensures { IfOk result (λ rules. rules ≡ base.now ++ rules_in appended.now) }
{
    let mut rules = Index::start(alloc, base.copy()?)?;
    append_all(&mut rules, appended)?;
    Ok(rules)
}

/// The audit trail of a run of the script, given what the run left: `trail` with the number of its
/// records, the records, and `end`.
///
/// There is a record for each check and each of the families `audit` and `hash`, if the line that
/// decides for the family asks for it: `audit` shows the digest of the content at the check, by the
/// algorithm that the label there names, and `hash` the label that the kernel would write for it.
/// In a journal the records are in the order of the checks. What a task read after its check isn't
/// claimed.
pub fn trail(alloc: Global, script: &Script, ended: &Ended) -> Result<Vec<u8>, OutOfMemory>
    requires { (for_files : IsForFiles script.now)
        → IsOfRun (scene_of script.now for_files) script.now.ending ended.now }
    ensures { IfOk result (λ text. (for_files : IsForFiles script.now)
        → text.items ≡ trail_text (scene_of script.now for_files) ended.now) }
{
    script.keeps();
    let settings = settings_of(alloc, script)?;
    let rules = rules_of(alloc, &script.rules, ended.rules.as_slice())?;
    let context = Context {
        settings: &settings,
        tasks: script.tasks.as_slice(),
        files: script.files.as_slice(),
        supers: script.supers.as_slice(),
        rules: &rules,
    };
    trail_by(alloc, &context, ended.inodes.as_slice())
}
