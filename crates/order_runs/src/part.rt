//! Some of a play's orders.

use crate::play::Play;

/// The orders of a play that begin with the same turns.
#[derive(Drop)]
pub struct Part {
    /// The play.
    pub play: Play,
    /// The first turns. If there are none, the part is the whole.
    pub first: Vec<u32>,
}
