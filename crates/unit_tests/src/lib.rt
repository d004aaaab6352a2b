//! Tests of what no case of `worked_runs` holds or shows: vectors of digests, HMACs and registers;
//! streams; records, labels and comments; the texts of scripts that are made and printed, and a
//! command line with an empty word; and that what a caller pushed on a shared list stays there.
//!
//! `worked_cases` calls `hold`. The tests are plain functions, since a crate that has test
//! functions is proved twice and is a program of its own. They add their cases to a list, whose
//! lines `hold` prints: each call that may fail is a branch of the proof. Their tables are statics:
//! some constants that hold references, such as rows with an `Option` of a text, are built anew
//! wherever they are borrowed, and each part is a step of the proof.
#![tactic(auto)]

mod cases;
mod checks;
mod command_words;
mod digests;
mod entries;
mod growing;
mod hashing;
mod labels;
mod lists;
mod macs;
mod policies;
mod registers;
mod script_generating;
mod script_printing;
mod streams;

use crate::cases::Cases;
use std::alloc::Global;
use std::io;

/// Prints a line for each case, and returns whether all hold.
pub fn hold(rt: &HostRuntime) -> io::Result<bool> {
    let mut cases = Cases::new(rt.alloc());
    try_all(rt.alloc(), &mut cases);
    cases.hold(rt)
}

fn try_all(alloc: Global, cases: &mut Cases) {
    digests::try_all(alloc, cases);
    hashing::try_all(alloc, cases);
    macs::try_all(cases);
    try_single(alloc, cases);
    lists::try_all(alloc, cases);
    streams::try_all(alloc, cases);
    script_generating::try_all(alloc, cases);
    script_printing::try_all(alloc, cases);
    command_words::try_all(alloc, cases);
}

// Cases that are alone in their families.
fn try_single(alloc: Global, cases: &mut Cases) {
    cases.add("two extends", "both banks", registers::are_extended(alloc));
    cases.add(
        "a label",
        "a SHA-1 that ends in zeros",
        labels::is_written(),
    );
    cases.add(
        "a policy",
        "a comment of any bytes",
        policies::is_read(alloc),
    );
}
