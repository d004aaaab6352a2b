//! Worked pages: `serve_view` on sources and sinks in memory, with the reports of
//! `worked_cases/data/views`.
//!
//! The reports are those of `examples/`, except for `hostile.report`, whose names of files and
//! attributes would be tags if they weren't escaped, `busy.report`, and `race_swapped.report`,
//! which is that of `examples/race.script` with the schedule `0 0 1 0 0 0 1 1 0`. `bench/pages.py`
//! compares the copies, and writes the stored pages anew; `bench/look` shows them. Each report is
//! also cut after each of its bytes: what is left is refused with its first bad line.
#![tactic(auto)]

mod answers;
mod cuts;

use crate::answers::answer;
use std::{fs, io};
use view_top::{NO_PLACE, REFUSED, USAGE};
use worked_calls::row;

// The names of the reports.
static REPORTS: [&str; 23] = [
    "addrule",
    "appraise",
    "busy",
    "chown",
    "create",
    "cron",
    "evm",
    "firmware",
    "fix",
    "ftruncate",
    "hostile",
    "log",
    "measure",
    "mmap",
    "module",
    "noversions",
    "pcr",
    "race",
    "setxattr",
    "six_orders",
    "stuck",
    "template",
    "tomtou",
];

// The words of other pages, the reports that they read, and the names of the stored pages.
static OTHERS: [(&str, &[&str], &str); 7] = [
    ("pair", &["race", "race_swapped"], "pair_race.html"),
    ("pair", &["race", "tomtou"], "pair_race_tomtou.html"),
    ("pair", &["race", "race"], "pair_same.html"),
    ("inode 0", &["race"], "inode_race.html"),
    ("inode 0 2 5", &["race"], "places_race.html"),
    ("svg 0", &["race"], "race.svg"),
    ("svg 0 2 5", &["race"], "places_race.svg"),
];

// What is told of words that are none of the forms.
const FORMS: &str = "usage: imakern_view page | pair | inode I [A B] | svg I [A B]\n";

// Words for which there is no page of the report of `race`, the status, and what is told.
static REFUSALS: [(&str, u8, &str); 20] = [
    ("", USAGE, FORMS),
    ("pages", USAGE, FORMS),
    ("page 0", USAGE, FORMS),
    ("pair 0", USAGE, FORMS),
    ("-", USAGE, FORMS),
    ("inode", USAGE, FORMS),
    ("inode 00", USAGE, FORMS),
    ("inode +0", USAGE, FORMS),
    ("inode 0 1", USAGE, FORMS),
    ("inode 0 1 2 3", USAGE, FORMS),
    ("svg", USAGE, FORMS),
    ("svg 0 0x1 2", USAGE, FORMS),
    ("pair", REFUSED, "line 31: bad-line\n"),
    ("inode 1", NO_PLACE, "no such place\n"),
    ("inode 4294967296", NO_PLACE, "no such place\n"),
    ("inode 99999999999999999999999", NO_PLACE, "no such place\n"),
    ("inode 0 3 2", NO_PLACE, "no such place\n"),
    ("inode 0 0 1000", NO_PLACE, "no such place\n"),
    ("svg 1", NO_PLACE, "no such place\n"),
    ("svg 0 0 99", NO_PLACE, "no such place\n"),
];

/// Prints a line for each case, and returns whether all hold.
pub fn hold(rt: &HostRuntime) -> io::Result<bool> {
    let mut all = pages_hold(rt)?;
    all &= cut_reports_are_refused(rt)?;
    all &= others_hold(rt)?;
    all &= refusals_hold(rt)?;
    Ok(all)
}

// The page of each report.
fn pages_hold(rt: &HostRuntime) -> io::Result<bool> {
    let mut all = true;
    for name in &REPORTS {
        all &= page_of_report_holds(rt, name)?;
    }
    Ok(all)
}

fn page_of_report_holds(rt: &HostRuntime, name: &str) -> io::Result<bool> {
    let text = report(rt, name)?;
    let page = format!(in rt.alloc(); "{name}.html")?;
    page_holds(rt, "page", &text, page.as_str())
}

fn cut_reports_are_refused(rt: &HostRuntime) -> io::Result<bool> {
    let mut all = true;
    for name in &REPORTS {
        all &= cut_report_is_refused(rt, name)?;
    }
    Ok(all)
}

fn cut_report_is_refused(rt: &HostRuntime, name: &str) -> io::Result<bool> {
    let text = report(rt, name)?;
    let refused = cuts::are_refused(rt.alloc(), &text)?;
    row(rt, name, "is refused if it is cut", refused)
}

fn others_hold(rt: &HostRuntime) -> io::Result<bool> {
    let mut all = true;
    for other in &OTHERS {
        all &= other_holds(rt, other)?;
    }
    Ok(all)
}

fn other_holds(rt: &HostRuntime, other: &(&str, &[&str], &str)) -> io::Result<bool> {
    let text = reports(rt, other.1)?;
    page_holds(rt, other.0, &text, other.2)
}

fn refusals_hold(rt: &HostRuntime) -> io::Result<bool> {
    let text = report(rt, "race")?;
    all_refusals_hold(rt, &text)
}

fn all_refusals_hold(rt: &HostRuntime, text: &[u8]) -> io::Result<bool> {
    let mut all = true;
    for refusal in &REFUSALS {
        all &= refusal_holds(rt, text, refusal)?;
    }
    Ok(all)
}

fn refusal_holds(rt: &HostRuntime, text: &[u8], refusal: &(&str, u8, &str)) -> io::Result<bool> {
    let got = answer(rt.alloc(), refusal.0, text)?;
    row(
        rt,
        "refused",
        refusal.0,
        got.is((refusal.1, b"", refusal.2)),
    )
}

// The texts of the reports of these names, one after another.
fn reports(rt: &HostRuntime, names: &[&str]) -> io::Result<Vec<u8>> {
    let mut text = Vec::new(rt.alloc());
    for name in names {
        text.extend_from_slice(&report(rt, name)?)?;
    }
    Ok(text)
}

// The text of the report of this name.
fn report(rt: &HostRuntime, name: &str) -> io::Result<Vec<u8>> {
    let file = format!(in rt.alloc(); "{name}.report")?;
    bytes_of(rt, file.as_str())
}

// The bytes of the file of this name.
fn bytes_of(rt: &HostRuntime, file: &str) -> io::Result<Vec<u8>> {
    let path = format!(in rt.alloc(); "views/{file}")?;
    fs::read(rt, path.as_str())
}

// Compares the page with the stored one, and prints a line.
fn page_holds(rt: &HostRuntime, words: &str, text: &[u8], page: &str) -> io::Result<bool> {
    let stored = bytes_of(rt, page)?;
    let got = answer(rt.alloc(), words, text)?;
    row(rt, words, page, got.is((0, &stored, "")))
}
