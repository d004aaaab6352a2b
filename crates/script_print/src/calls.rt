// The lines of rules and tasks, and the ending.

ghost use Rattle.std.specs.Prelude.{◌≡◌, ◌++◌, ◌∷◌, [], codes, decimal, flat_map, map, IfOk, OnOk};
ghost use Rattle.std.specs.List.{AllByRecursion};
ghost use Rattle.call_lines.specs.Calls.{call_line};
ghost use Rattle.call_lines.specs.Lines.{line_text, lines_text};
ghost use Rattle.call_lines.specs.Rules.{HasReadRule, IsReadRule};
ghost use Rattle.script_text.specs.Forms.{path_of_block};
ghost use Rattle.script_spelling.specs.Rules.{AreReadRules};
ghost use Rattle.script_spelling.specs.Spelling.{ending_line, rule_line, task_line, task_lines};

use crate::call::push_call;
use crate::pushed::push_number;
use call_steps::{Call, Ending};
use inode_meta::Cred;
use policy_text::{Rule, print_rule};
use script_text::{FileBlock, TaskBlock};
use std::alloc::{AllocError as OutOfMemory, Global};

/// The paths of the files.
pub fn paths_of<'a>(alloc: Global, files: &'a [FileBlock]) -> Result<Vec<&'a [u8]>, OutOfMemory>
    ensures { IfOk result (λ v. map (λ p. p.now) v.items ≡ map path_of_block files.now) }
{
    let mut paths = Vec::new(alloc);
    for file in files {
        paths.push(file.path.as_slice())?;
    }
    Ok(paths)
}

pub fn push_rules(alloc: Global, out: &mut Vec<u8>, rules: &[Rule]) -> Result<(), OutOfMemory>
    ensures text { OnOk result (
        out.new.items ≡ out.old.items ++ flat_map (λ r. line_text (rule_line r)) rules.now) }
    ensures rules { OnOk result (AllByRecursion IsReadRule rules.now) }
{
    for rule in rules {
        push_rule(alloc, out, rule)?;
    }
    Ok(())
}

fn push_rule(alloc: Global, out: &mut Vec<u8>, rule: &Rule) -> Result<(), OutOfMemory>
    ensures text { OnOk result (
        out.new.items ≡ out.old.items ++ line_text (rule_line rule.now)) }
    ensures rule { OnOk result (IsReadRule rule.now) }
{
    out.extend_from_slice(b"rule ")?;
    print_rule(alloc, rule, out)?;
    out.push(b'\n')?;
    Ok(())
}

pub fn push_tasks(
    alloc: Global,
    out: &mut Vec<u8>,
    paths: &[&[u8]],
    tasks: &[TaskBlock],
) -> Result<(), OutOfMemory>
    ensures text { OnOk result (
        out.new.items ≡ out.old.items
        ++ flat_map (λ t. lines_text (task_lines (map (λ p. p.now) paths.now) t)) tasks.now) }
    ensures rules { OnOk result (AllByRecursion AreReadRules tasks.now) }
{
    for task in tasks {
        push_task(alloc, out, paths, task)?;
    }
    Ok(())
}

fn push_task(
    alloc: Global,
    out: &mut Vec<u8>,
    paths: &[&[u8]],
    task: &TaskBlock,
) -> Result<(), OutOfMemory>
    ensures text { OnOk result (out.new.items
        ≡ out.old.items ++ lines_text (task_lines (map (λ p. p.now) paths.now) task.now)) }
    ensures rules { OnOk result (AreReadRules task.now) }
{
    push_cred(out, &task.cred)?;
    push_calls(alloc, out, paths, task.calls.as_slice())
}

fn push_cred(out: &mut Vec<u8>, cred: &Cred) -> Result<(), OutOfMemory>
    ensures { OnOk result (out.new.items ≡ out.old.items ++ line_text (task_line cred.now)) }
{
    push_number(out, b"task uid=", u64::from(cred.uid))?;
    push_number(out, b" euid=", u64::from(cred.euid))?;
    push_number(out, b" gid=", u64::from(cred.gid))?;
    push_number(out, b" egid=", u64::from(cred.egid))?;
    out.extend_from_slice(if cred.admin { b" admin\n" } else { b"\n" })
}

fn push_calls(
    alloc: Global,
    out: &mut Vec<u8>,
    paths: &[&[u8]],
    calls: &[Call],
) -> Result<(), OutOfMemory>
    ensures text { OnOk result (
        out.new.items ≡ out.old.items
        ++ flat_map (λ c. line_text (call_line (map (λ p. p.now) paths.now) c)) calls.now) }
    ensures rules { OnOk result (AllByRecursion HasReadRule calls.now) }
{
    for call in calls {
        push_call(alloc, out, paths, call)?;
        out.push(b'\n')?;
    }
    Ok(())
}

pub fn push_ending(out: &mut Vec<u8>, ending: &Ending) -> Result<(), OutOfMemory>
    ensures { OnOk result (out.new.items ≡ out.old.items ++ line_text (ending_line ending.now)) }
{
    match ending {
        Ending::Schedule(turns) => push_schedule(out, turns.as_slice()),
        Ending::Rounds => out.extend_from_slice(b"rounds\n"),
        Ending::Threads(n) => {
            push_number(out, b"threads ", u64::from(*n))?;
            out.push(b'\n')?;
            Ok(())
        }
    }
}

fn push_schedule(out: &mut Vec<u8>, turns: &[u32]) -> Result<(), OutOfMemory>
    ensures { OnOk result (out.new.items
        ≡ out.old.items ++ line_text (codes "schedule" ∷ map decimal turns.now)) }
{
    out.extend_from_slice(b"schedule")?;
    push_turns(out, turns)?;
    out.push(b'\n')?;
    Ok(())
}

fn push_turns(out: &mut Vec<u8>, turns: &[u32]) -> Result<(), OutOfMemory>
    ensures { OnOk result (
        out.new.items ≡ out.old.items ++ flat_map (λ t. 32 ∷ decimal t) turns.now) }
{
    for turn in turns {
        push_number(out, b" ", u64::from(*turn))?;
    }
    Ok(())
}
