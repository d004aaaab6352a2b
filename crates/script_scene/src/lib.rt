//! What a script sets up for a run: the scene that the definitions of runs refer to, and the parts
//! with which a world starts.
#![tactic(auto)]

mod parts;
mod settings;

pub use parts::{ScriptParts, parts_of};
pub use settings::{boot_entry, evm_of, settings_of};
