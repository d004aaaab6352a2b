//! The top call of the program: from the words of the command line and the bytes of the input to
//! the bytes of the output and the exit status.
//!
//! [`serve`] is generic over the outside world, so its contract is about the bytes that a source
//! gives and that sinks take. It states the same of every command, in three terms: whether the
//! command reads its input, what refuses an input, and what is an output for it
//! (`specs/commands/Table.antt`). The crate `command_line` defines which command the words name.
//! Each command has a file `src/commands/NAME.rt`, its definitions in `specs/commands/Name.antt`,
//! and a row in each table of `src/commands.rt` and `specs/commands/Table.antt`.
#![tactic(auto)]

mod commands;
mod not_done;
mod status;
mod top;

pub use command_line::Command;
pub use script_run::{Live, Name, Task, Turn, World, started};
pub use status::{DONE, OUT_OF_MEMORY, READ_FAULT, REFUSED, STUCK, TOO_LONG, USAGE, WRITE_FAULT};
pub use top::{MOST_INPUT, serve};
