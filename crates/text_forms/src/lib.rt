//! The text forms that policies, scripts and measurement lists share, for reading and for printing.
//!
//! A text consists of lines. A line consists of tokens separated by blanks ([`Tokens`]) or of words
//! separated by single spaces ([`words`]). A number consists of digits ([`number_of`],
//! [`short_number_of`]). What a word means can stand in a table ([`look_up`]). The definitions are
//! in `specs/`, and the lemmas in `proofs/` show that printed text can be read back.
#![tactic(auto)]

mod file_system;
mod numbers;
mod path;
mod table;
mod tokens;
mod word;

pub use file_system::{FsUuid, Magic, magic_of, uuid_of};
pub use numbers::{is_short_numeral, number_of, short_number_of};
pub use path::is_path;
pub use table::look_up;
pub use tokens::Tokens;
pub use word::{is_word, words};
