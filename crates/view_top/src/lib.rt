//! The call that the program `imakern_view` makes: from the words of the command line and the bytes
//! of a report to the bytes of a page and the exit status.
//!
//! [`serve_view`] is generic over the outside world, so its contract is about the bytes that a
//! source gives and that sinks take. `specs/Words.antt` says what the words ask for,
//! `specs/Answer.antt` what the answer to an input is, and `specs/Served.antt` what each status
//! says of them.
#![tactic(auto)]

mod answer;
mod command;
mod not_done;
mod status;
mod top;

pub use command::{Asked, Command, command_of};
pub use status::{
    DONE, NO_PLACE, OUT_OF_MEMORY, READ_FAULT, REFUSED, TOO_LONG, USAGE, WRITE_FAULT,
};
pub use top::{MOST_INPUT, serve_view};
