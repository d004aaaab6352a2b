//! IMA policy rules as text: they are parsed, printed canonically, and parsed again as the same
//! rules (Documentation/ABI/testing/ima_policy).
//!
//! A policy consists of lines, and a rule is one line: an action, then conditions and options in
//! any order. The grammar is in `specs/Grammar.antt`, independent of the parser and the printer;
//! what it says of a key stands in the key's row (`policy_rules`).
#![tactic(auto)]

mod fault;
mod line;
mod read;
mod write;

pub use fault::{Fault, PolicyErr, RuleCause};
pub use policy_rules::{
    Access, Act, Action, Func, IdTest, Key, MAY_APPEND, MAY_EXEC, MAY_READ, MAY_WRITE, MaskTest,
    Policy, Purpose, RULES, Rule, Super, template_of,
};
pub use read::{parse, parse_rule};
pub use std::alloc::AllocError as OutOfMemory;
pub use write::{print, print_rule};
