// The start of a script's run.

ghost use Rattle.std.specs.Prelude.{IfOk};
ghost use Rattle.script_start.specs.Started.{HasStarted};

use crate::from_blocks::new_tasks;
use call_steps::Ending;
use script_scene::{ScriptParts, parts_of};
use script_text::Script;
use std::alloc::{AllocError as OutOfMemory, Global};
use task_core::{Task, World};

/// The world of a script and its tasks before their first turn, and the ending that says how they
/// run.
pub fn started(alloc: Global, script: Script) -> Result<(World, Vec<Task>, Ending), OutOfMemory>
    ensures { IfOk result (λ r. HasStarted script r.0 r.1.items r.2) }
{
    script.keeps();
    let ScriptParts {
        settings,
        boot,
        inodes,
        places,
        supers,
        rules,
        tasks: blocks,
        ending,
    } = parts_of(alloc, script)?;
    let count = blocks.len() as u32;
    let (world, passes) = World::start(
        alloc, settings, boot, inodes, supers, places, rules, count,
    )?;
    let tasks = new_tasks(alloc, blocks, passes)?;
    Ok((world, tasks, ending))
}
