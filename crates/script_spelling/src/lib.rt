//! The canonical text of a script, line by line, each line by its words, and how such lines are
//! read back.
//!
//! `specs/Spelling` defines the text. The laws are lemmas of `proofs/`: the lines of a text that is
//! put together from words are those that it was put together from, and the settings and the paths
//! are read as they were written. `script_print` prints the text; `load_gen` makes texts that are
//! read.
#![tactic(auto)]
