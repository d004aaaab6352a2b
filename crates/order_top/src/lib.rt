//! The call that the program `imakern_orders` makes: from the words of the command line and the
//! bytes of a script to the rows of its orders and the exit status.
//!
//! [`serve`] is generic over the outside world, so its contract is about the bytes that a source
//! gives and that sinks take. `specs/Served.antt` says what each status says of them. The rows are
//! those of a part of `order_runs`, sorted (`sorting.rt`) and printed (`text.rt`).
#![tactic(auto)]

mod not_done;
mod sorting;
mod status;
mod text;
mod top;
mod words;

pub use order_runs as runs;
pub use status::{
    DONE, OUT_OF_MEMORY, READ_FAULT, REFUSED, TOO_LONG, TOO_MANY, USAGE, WRITE_FAULT,
};
pub use top::{MOST_INPUT, serve};
