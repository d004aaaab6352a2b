// The line that names the first fault of a text of lines.
ghost use Rattle.std.specs.Prelude.{◌≡◌, IfOk};
ghost use Rattle.ima_top.specs.commands.BadLine.{bad_line};

use script_text::Fault;
use std::alloc::{AllocError as OutOfMemory, Global};

/// The fault as a line `line L: CAUSE`, with the number of the bad line and the cause.
pub fn bad_line(alloc: Global, fault: Fault) -> Result<Vec<u8>, OutOfMemory>
    ensures { IfOk result (λ line. line.items ≡ bad_line fault) }
{
    let line = format!(in alloc; "line {}: {}\n", fault.line, fault.cause)?;
    Ok(line.into_bytes())
}
