//! Worked orders: `order_top::serve` on sources and sinks in memory, with the scripts of
//! `worked_cases/data/orders`.
//!
//! The stored answers come from `bench/orders.py`, which runs every order of a script by
//! `imakern run` and makes the rows of the reports; `bench/orders.py IMAKERN store` writes scripts
//! and answers anew. The answers for the orders that begin with some turns are added here, and have
//! to be the whole.
#![tactic(auto)]

mod answers;
mod faults;
mod parts;

use crate::answers::answers;
use order_top::{DONE, REFUSED, TOO_MANY, USAGE};
use std::{fs, io};
use worked_calls::{Call, all_hold, row};

// The names of the scripts.
static SCRIPTS: [&str; 8] = [
    "no_task",
    "opens",
    "opens_without_a_rule",
    "reader_and_writer",
    "two_files",
    "stuck_pair",
    "rule_beside_a_check",
    "labels_at_two_closes",
];

// The words that ask for the parts of which a script's orders consist.
static PARTS: [(&str, &[&str]); 6] = [
    ("reader_and_writer", &["100000 0", "100000 1"]),
    (
        "reader_and_writer",
        &["100000 0.0", "100000 0.1", "100000 1.0", "100000 1.1"],
    ),
    (
        "reader_and_writer",
        &[
            "100000 0",
            "100000 1.0",
            "100000 1.1.0.0",
            "100000 1.1.0.1",
            "100000 1.1.1",
        ],
    ),
    ("two_files", &["100000 0", "100000 1", "100000 2"]),
    ("rule_beside_a_check", &["100000 0", "100000 1"]),
    (
        "labels_at_two_closes",
        &["100000 0.0", "100000 0.1", "100000 1.0", "100000 1.1"],
    ),
];

// What is told of words that are none of the forms.
const FORMS: &str = "usage: imakern_orders [N [FIRST]]\n";

// The answer that has no row.
const NO_ROWS: &str = "imakern orders 1\norders 0 outcomes 0\nend\n";

// Words, the script, the status, the output and what is told.
static WORDS: [(&str, &str, u8, &str, &str); 31] = [
    ("0", "opens", USAGE, "", FORMS),
    ("01", "opens", USAGE, "", FORMS),
    ("10000001", "opens", USAGE, "", FORMS),
    ("-1", "opens", USAGE, "", FORMS),
    ("1000 0 1", "opens", USAGE, "", FORMS),
    ("x 0", "opens", USAGE, "", FORMS),
    ("0 0", "opens", USAGE, "", FORMS),
    ("1000 00", "opens", USAGE, "", FORMS),
    ("1000 0.01", "opens", USAGE, "", FORMS),
    ("1000 .", "opens", USAGE, "", FORMS),
    ("1000 .0", "opens", USAGE, "", FORMS),
    ("1000 0.", "opens", USAGE, "", FORMS),
    ("1000 0..0", "opens", USAGE, "", FORMS),
    ("1000 0,1", "opens", USAGE, "", FORMS),
    ("1000 4294967296", "opens", USAGE, "", FORMS),
    ("1000 4294967295", "opens", DONE, NO_ROWS, ""),
    ("1000 2", "opens", DONE, NO_ROWS, ""),
    ("1000 0.2", "opens", DONE, NO_ROWS, ""),
    ("1000 0", "no_task", DONE, NO_ROWS, ""),
    ("1000 0", "stuck_pair", DONE, NO_ROWS, ""),
    ("1 0.2.0.0", "opens", DONE, NO_ROWS, ""),
    ("1", "stuck_pair", DONE, "stuck_pair", ""),
    ("1", "no_task", DONE, "no_task", ""),
    ("1", "opens", TOO_MANY, "", "more than 1 moments\n"),
    ("2 0", "opens", TOO_MANY, "", "more than 2 moments\n"),
    (
        "5",
        "reader_and_writer",
        TOO_MANY,
        "",
        "more than 5 moments\n",
    ),
    ("1", "cut", REFUSED, "", "line 4: no-end\n"),
    ("1 0", "cut", REFUSED, "", "line 4: no-end\n"),
    ("10000000", "opens", DONE, "opens", ""),
    ("1000000", "opens", DONE, "opens", ""),
    ("1000 0", "cut", REFUSED, "", "line 4: no-end\n"),
];

/// Prints a line for each case, and returns whether all hold.
pub fn hold(rt: &HostRuntime) -> io::Result<bool> {
    let mut all = rows_hold(rt)?;
    all &= all_words_hold(rt)?;
    all &= all_parts_hold(rt)?;
    all &= faults_hold(rt)?;
    Ok(all)
}

// Whether each script has its stored answer.
fn rows_hold(rt: &HostRuntime) -> io::Result<bool> {
    let mut all = true;
    for name in &SCRIPTS {
        all &= script_holds(rt, name)?;
    }
    Ok(all)
}

// Whether the script of this name has its stored answer.
fn script_holds(rt: &HostRuntime, name: &str) -> io::Result<bool> {
    let (script, rows) = texts_of(rt, name)?;
    let wanted = (DONE, rows.as_bytes(), "");
    let well = answers(rt.alloc(), Call::sound("", script.as_bytes()), wanted);
    row(rt, "rows", name, well)
}

// Whether all words have their outcomes.
fn all_words_hold(rt: &HostRuntime) -> io::Result<bool> {
    let mut all = true;
    for case in &WORDS {
        all &= words_hold(rt, case)?;
    }
    Ok(all)
}

// Whether the words have this outcome on the script.
fn words_hold(rt: &HostRuntime, case: &(&str, &str, u8, &str, &str)) -> io::Result<bool> {
    let (words, name, status, out, note) = *case;
    let script = text_of(rt, name, "script")?;
    let out = output(rt, out)?;
    let wanted = (status, out.as_bytes(), note);
    let well = answers(rt.alloc(), Call::sound(words, script.as_bytes()), wanted);
    row(rt, name, words, well)
}

// The output that is meant: one that is a script's name is its stored answer.
fn output(rt: &HostRuntime, out: &str) -> io::Result<String> {
    if SCRIPTS.contains(&out) {
        return text_of(rt, out, "orders");
    }
    Ok(String::from_str(rt.alloc(), out)?)
}

// Whether the answers for parts add up.
fn all_parts_hold(rt: &HostRuntime) -> io::Result<bool> {
    let mut all = true;
    for (name, parts) in &PARTS {
        all &= parts_hold(rt, name, parts)?;
    }
    Ok(all)
}

// Whether the answers for these parts add up.
fn parts_hold(rt: &HostRuntime, name: &str, parts: &[&str]) -> io::Result<bool> {
    let (script, whole) = texts_of(rt, name)?;
    let well = parts::add_up(rt.alloc(), script.as_bytes(), whole.as_str(), parts)?;
    row(rt, name, "parts add up", well)
}

// The script of this name and its stored answer.
fn texts_of(rt: &HostRuntime, name: &str) -> io::Result<(String, String)> {
    let script = text_of(rt, name, "script")?;
    let orders = text_of(rt, name, "orders")?;
    Ok((script, orders))
}

// The text of the file of this name and ending.
fn text_of(rt: &HostRuntime, name: &str, ending: &str) -> io::Result<String> {
    let file = format!(in rt.alloc(); "orders/{name}.{ending}")?;
    fs::read_to_string(rt, file.as_str())
}

// Tries streams that fail, the longest input, and the longest word.
fn faults_hold(rt: &HostRuntime) -> io::Result<bool> {
    let (script, whole) = texts_of(rt, "opens")?;
    let tried = faults::tried(rt.alloc(), script.as_bytes(), whole.as_bytes());
    all_hold(rt, "faults", &tried)
}
