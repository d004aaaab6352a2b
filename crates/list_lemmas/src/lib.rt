//! Lemmas on lists alone.
#![tactic(auto)]
