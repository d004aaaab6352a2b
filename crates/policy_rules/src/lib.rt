//! IMA policy rules as values: the access that is asked about, the action that answers it, and the
//! rules with their keys (Documentation/ABI/testing/ima_policy).
//!
//! Each key has one row in `specs/Key.antt`: its name, the actions that can have it, how its value
//! is read and spelled, and the test of an access by it. The grammar of lines is in `policy_text`.
#![tactic(auto)]

mod access;
mod condition;
mod key;
mod policy;
mod rule;
mod values;
mod words;

pub use access::{Access, Action, MAY_APPEND, MAY_EXEC, MAY_READ, MAY_WRITE, Purpose, Super};
pub use inode_meta as meta;
pub use key::{Key, is_unsupported_key, key_of};
pub use policy::{Policy, RULES};
pub use rule::{Act, Func, IdTest, MaskTest, Rule};
pub use std::alloc::AllocError as OutOfMemory;
pub use values::{
    act_of, algos_of, func_of, id_of, is_unsupported_template, is_unsupported_type, mask_of,
    template_of,
};
pub use words::mask_bits_word;
