//! What all texts made of lines of words share, scripts and list texts alike: reading them, and the
//! causes for which a line is refused.
//!
//! A text is lines, each ended by a newline; empty lines and lines that begin with `#` are skipped.
//! A line is words separated by single spaces. [`read_text`] reads a text by any [`Grammar`], which
//! says how a line changes the state before it.
#![tactic(auto)]

mod fault;
mod line;
mod numbers;
mod read;
mod rule;
mod value;

pub use fault::{Fault, LineCause, LineErr, ScriptErr};
pub use line::{cut, cut_line, fields, is_skipped};
pub use numbers::{
    descriptor_of, id_of, ino_of, mode_of, offset_of, place_among, portion_of, small_of,
};
pub use read::{Grammar, read_text};
pub use rule::rule_of;
pub use value::{content_of, value_of};
