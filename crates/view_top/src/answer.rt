// The answer to an input.

ghost use Rattle.std.specs.Prelude.{◌≡◌, ◌≢◌, ◌≤◌, ◌<◌, ◌^◌, ◌+◌, length, option_map, All, IfErr, IfOk, IfSome};
ghost use Rattle.view_top.specs.Answer as spec;
ghost use Rattle.view_top.specs.Answer.{Answers};
ghost use Rattle.view_top.specs.Limits.{most_input};
ghost use Rattle.view_top.specs.NotDone.{not_done_status};
ghost use Rattle.view_top.specs.Statuses as exit;
ghost use Rattle.view_top.specs.Words.{AsksForInode};
ghost use Rattle.view_pages.specs.journals.reading.Report.{HasShortJournals};

use crate::command::{Asked, Command};
use crate::not_done::NotDone;
use report_read::{Event, Inode, ReadErr, Report, read};
use report_text::push_number;
use std::alloc::{AllocError as OutOfMemory, Global};
use view_drawing::svg;
use view_journal::Window;
use view_pages::{push_inode_page, push_page, push_pair};

// The most places of a range that is asked for.
const MOST_PLACES: u32 = 1_000;

/// The answer to the input: a page, or why there is none.
pub fn answer(alloc: Global, command: Command, input: &[u8]) -> Result<Vec<u8>, NotDone>
    requires { length input.now ≤ most_input }
    ensures answer { Answers result (spec.answer_of command input.now) }
    ensures placed { IfErr result (λ why. not_done_status why ≡ exit.no_place
        → AsksForInode command) }
{
    match read(alloc, input, more(command)) {
        Ok(reports) => drawn(alloc, command, input, &reports),
        Err(ReadErr::Refused(line)) => Err(NotDone::Refused(bad_line(alloc, line)?)),
        Err(ReadErr::OutOfMemory) => Err(NotDone::OutOfMemory),
    }
}

// How many reports are read after the first.
fn more(command: Command) -> u32
    ensures { result ≡ spec.more command }
{
    match command {
        Command::Pair => 1,
        Command::Page | Command::Inode(_) | Command::Svg(_) => 0,
    }
}

fn bad_line(alloc: Global, number: u32) -> Result<Vec<u8>, OutOfMemory>
    ensures { IfOk result (λ line. line.items ≡ spec.bad_line number) }
{
    let mut line = Vec::new(alloc);
    line.extend_from_slice(b"line ")?;
    push_number(&mut line, u64::from(number))?;
    line.extend_from_slice(b": bad-line\n")?;
    Ok(line)
}

// What the command draws of the reports that the text is.
fn drawn(
    alloc: Global,
    command: Command,
    text: &[u8],
    reports: &[Report],
) -> Result<Vec<u8>, NotDone>
    requires count { length reports.now ≡ spec.more command + 1 }
    requires short { All HasShortJournals reports.now }
    ensures answer { Answers result (spec.drawn command text.now reports.now) }
    ensures placed { IfErr result (λ why. not_done_status why ≡ exit.no_place
        → AsksForInode command) }
{
    match command {
        Command::Page => page(alloc, text, reports),
        Command::Pair => pair(alloc, text, reports),
        Command::Inode(asked) => inode_page(alloc, text, asked, reports),
        Command::Svg(asked) => drawing(alloc, text, asked, reports),
    }
}

fn page(alloc: Global, text: &[u8], reports: &[Report]) -> Result<Vec<u8>, NotDone>
    requires { length reports.now ≡ 1 }
    ensures answer { Answers result (spec.page text.now reports.now) }
    ensures placed { IfErr result (λ why. not_done_status why ≢ exit.no_place) }
{
    let [report, ..] = reports else {
        unreachable!();
    };
    let mut out = Vec::new(alloc);
    push_page(alloc, &mut out, text, report)?;
    Ok(out)
}

fn pair(alloc: Global, text: &[u8], reports: &[Report]) -> Result<Vec<u8>, NotDone>
    requires { length reports.now ≡ 2 }
    ensures answer { Answers result (spec.pair text.now reports.now) }
    ensures placed { IfErr result (λ why. not_done_status why ≢ exit.no_place) }
{
    let [first, second, ..] = reports else {
        unreachable!();
    };
    let mut out = Vec::new(alloc);
    push_pair(alloc, &mut out, text, first, second)?;
    Ok(out)
}

// The inode that is asked for, if it is there and its journal has the places.
fn inode_asked<'r>(asked: Asked, reports: &'r [Report]) -> Option<&'r Inode>
    requires { All HasShortJournals reports.now }
    ensures inode { option_map (λ i. i.now) result ≡ spec.inode_asked asked reports.now }
    ensures short { IfSome result (λ i. length i.now.events < 2 ^ 32) }
{
    match reports {
        [] => None,
        [report, ..] => {
            let inode = report.inodes.get(asked.inode as usize)?;
            if has_places(&inode.events, asked.range) {
                Some(inode)
            } else {
                None
            }
        }
    }
}

// Whether the journal has the places, if some are asked for, and they aren't too many.
fn has_places(journal: &[Event], range: Option<Window>) -> bool
    ensures { result ≡ spec.has_places journal.now range }
{
    match range {
        Some(range) => {
            range.first <= range.last
                && (range.last as usize) < journal.len()
                && range.last - range.first < MOST_PLACES
        }
        None => true,
    }
}

fn inode_page(
    alloc: Global,
    text: &[u8],
    asked: Asked,
    reports: &[Report],
) -> Result<Vec<u8>, NotDone>
    requires { All HasShortJournals reports.now }
    ensures { Answers result (spec.inode_page text.now asked reports.now) }
{
    match inode_asked(asked, reports) {
        Some(inode) => {
            let mut out = Vec::new(alloc);
            let number = u64::from(asked.inode);
            push_inode_page(alloc, &mut out, text, number, inode, asked.range)?;
            Ok(out)
        }
        None => Err(NotDone::NoPlace),
    }
}

fn drawing(alloc: Global, text: &[u8], asked: Asked, reports: &[Report]) -> Result<Vec<u8>, NotDone>
    requires { All HasShortJournals reports.now }
    ensures { Answers result (spec.drawing text.now asked reports.now) }
{
    match inode_asked(asked, reports) {
        Some(inode) => {
            let number = u64::from(asked.inode);
            Ok(svg(alloc, text, number, &inode.events, asked.range)?)
        }
        None => Err(NotDone::NoPlace),
    }
}
