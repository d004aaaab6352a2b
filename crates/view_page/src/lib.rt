//! Pages as bytes.
//!
//! A page is a list of parts ([`Part`]): the program's own bytes, numbers, texts of the report, and
//! the pieces of drawings ([`Piece`]), which are of the same three kinds. [`push_text`] is the only
//! way by which a text of the report gets in: each of its bytes is escaped.
#![tactic(auto)]

mod escape;
mod html;
pub mod law;
mod look;
mod own;
mod part;
mod pieces;
mod rules;
mod shape;
mod told;
mod view;
mod words;

pub use escape::{push_all, push_text};
pub use html::{Frame, Section, Table};
pub use own::{Own, Side};
pub use part::{Part, by_count, push_more, push_parts};
pub use pieces::{Piece, push_pieces};
pub use rules::push_rules;
pub use std::alloc::AllocError as OutOfMemory;
pub use told::{Overview, Told};
pub use view::View;
pub use words::{after_word, cut, first_word, path, text_at};
