// The table.

ghost use Rattle.std.specs.Prelude.{◌≡◌, ◌++◌, IfOk, OnOk};
ghost use Rattle.kernel_read.specs.Lines.{table_text};
ghost use Rattle.kernel_read.specs.Table.{calls_of, loads_text};

use crate::lines::push_tasks;
use crate::places::places;
use report_text::push_numbers;
use run_model::Ended;
use script_text::Script;
use std::alloc::{AllocError as OutOfMemory, Global};

/// The table of the kernel's reads of a run of the script: `loads` with the number of its lines, a
/// line for each answered call by which the kernel reads a module or a firmware file, and `end`.
pub fn loads(alloc: Global, script: &Script, ended: &Ended) -> Result<Vec<u8>, OutOfMemory>
    ensures { IfOk result (λ text. text.items ≡ loads_text (calls_of script.now) ended.now) }
{
    let tasks = script.tasks.as_slice();
    let inodes = ended.inodes.as_slice();
    let rows = places(alloc, tasks, inodes)?;
    let mut lines = Vec::new(alloc);
    let count = push_tasks(
        &mut lines,
        tasks,
        ended.tasks.as_slice(),
        rows.as_slice(),
        inodes,
    )?;
    let mut out = Vec::new(alloc);
    push_table(&mut out, count, lines.as_slice())?;
    Ok(out)
}

// Prints how many lines there are, the lines, and `end`.
fn push_table(out: &mut Vec<u8>, count: u64, lines: &[u8]) -> Result<(), OutOfMemory>
    ensures { OnOk result (out.new.items ≡ out.old.items ++ table_text count lines.now) }
{
    push_numbers(out, b"loads", &[count])?;
    out.extend_from_slice(b"\n")?;
    out.extend_from_slice(lines)?;
    out.extend_from_slice(b"end\n")
}
