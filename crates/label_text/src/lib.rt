//! The output of the command `label`: for each file of a script the two values that a seal would
//! write on it, in hexadecimal, as `evmctl` shows them.
#![tactic(auto)]

mod seal;
mod text;

pub use text::label_text;
