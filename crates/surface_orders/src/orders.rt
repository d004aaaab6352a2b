// Orders of the steps of scripts, their outcomes, and their rows.

ghost use Rattle.std.specs.Prelude.{◌-◌, ◌<◌, ◌≤◌, ◌^◌, length};
ghost use Rattle.order_top.specs.runs.Plays.{IsSchedule};
ghost use Rattle.order_top.specs.runs.outcomes.scripts.Limits.{most_turns};

use inode_events::{EndedInode, Told, labels, templates};
use order_top::runs;
use order_top::runs::outcomes::counts;
use order_top::runs::{outcomes, sights};
use std::alloc::{AllocError as OutOfMemory, Global};

// ---- order_counts

pub fn order_new(alloc: Global, order: counts::Order) -> (counts::Order, Vec<u32>) {
    (counts::Order::new(alloc), order.into_vec())
}

pub fn order_read<'a>(order: &'a counts::Order, other: &counts::Order) -> (&'a [u32], bool) {
    (order.as_slice(), order.comes_before(other))
}

pub fn order_then(
    alloc: Global,
    order: &counts::Order,
    task: u32,
) -> [Result<counts::Order, OutOfMemory>; 2] {
    [order.copy(alloc), order.then(alloc, task)]
}

pub fn counted_then(
    alloc: Global,
    counted: &counts::Counted,
    task: u32,
) -> [Result<counts::Counted, OutOfMemory>; 2] {
    let _: counts::Order = counted.order;
    let _: u128 = counted.count;
    [counted.copy(alloc), counted.then(alloc, task)]
}

pub fn counted_join(
    alloc: Global,
    a: &counts::Counted,
    b: &counts::Counted,
) -> Result<Option<counts::Counted>, OutOfMemory> {
    a.join(alloc, b)
}

// ---- order_outcomes

pub fn verdict_of(inodes: &[EndedInode], task: usize, call: usize) -> Option<labels::Verdict> {
    outcomes::verdict_of(inodes, task, call)
}

pub fn place_told(told: &Told) -> Option<u64> {
    outcomes::place_told(told)
}

pub fn listed_of(
    alloc: Global,
    list: &[templates::Entry],
    inodes: &[EndedInode],
    task: usize,
    call: usize,
) -> Result<Option<bool>, OutOfMemory> {
    outcomes::listed_of(alloc, list, inodes, task, call)
}

pub fn ended_read(
    alloc: Global,
    ended: &run_model::Ended,
) -> (outcomes::Made, Result<xattr_store::Bytes, OutOfMemory>) {
    (outcomes::made_of(ended), outcomes::outcome_of(alloc, ended))
}

pub fn is_same(a: outcomes::Made, b: outcomes::Made) -> bool {
    let _: u128 = a.events;
    let _: u128 = a.replies;
    a.is_same(b)
}

// ---- order_sights and order_runs

pub fn read(alloc: Global, text: xattr_store::Bytes) -> Result<runs::Play, script_text::ScriptErr>
    requires { length text < 2 ^ 32 - 1 }
{
    runs::Play::read(alloc, text)
}

pub fn tasks(play: &runs::Play) -> u32 {
    play.tasks()
}

pub fn sight(
    alloc: Global,
    play: &runs::Play,
    turns: &counts::Order,
    a: &sights::Sight,
    b: &sights::Sight,
) -> (
    Result<sights::Sight, OutOfMemory>,
    u64,
    Result<bool, OutOfMemory>,
)
    requires { IsSchedule play.now turns.now }
{
    (
        play.sight(alloc, turns),
        a.mark(),
        sights::are_alike(alloc, a, b),
    )
}

pub fn rows_of(
    alloc: Global,
    part: &runs::Part,
    most: usize,
) -> Result<Vec<runs::Row>, runs::Stopped>
    requires { length part.now.first.items ≤ most_turns }
{
    let _: runs::Play = part.play;
    let _: Vec<u32> = part.first;
    runs::rows_of(alloc, part, most)
}

pub fn rows(row: &runs::Row, stopped: runs::Stopped) {
    let _: counts::Counted = row.counted;
    let _: xattr_store::Bytes = row.outcome;
    let _: u32 = runs::MOST_TURNS;
    match stopped {
        runs::Stopped::TooMany | runs::Stopped::OutOfMemory => {}
    }
}

// ---- order_top

pub fn serve<S: ima_io::Source, K: ima_io::Sink, N: ima_io::Sink>(
    alloc: Global,
    words: &[String],
    script: &mut S,
    out: &mut K,
    note: &mut N,
) -> u8 {
    order_top::serve(alloc, words, script, out, note)
}
