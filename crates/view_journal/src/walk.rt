// A walk over a journal, event by event.

ghost use Rattle.std.specs.Prelude.{◌≡◌, ◌<◌, ◌^◌, slice_get, OnOk};
ghost use Rattle.view_journal.specs.Files as files;
ghost use Rattle.view_journal.specs.State as state;
ghost use Rattle.view_journal.specs.Walk as spec;
ghost use Rattle.view_journal.specs.WalkView.{walk_of};

use crate::kinds::{Collection, Freshness};
use report_read::{Deed, Event, Kind, Outcome};
use std::alloc::{AllocError as OutOfMemory, Global};

/// What the strips show after an event.
#[derive(Clone, Copy)]
pub struct State {
    pub readers: u64,
    pub writers: u64,
    pub execs: u64,
    pub freshness: Freshness,
}

/// A walk over a journal, event by event.
#[derive(Drop)]
pub struct Walk {
    // For each place, the kind of the file that its event opened, while that file is open.
    held: Vec<Option<Kind>>,
    readers: u64,
    writers: u64,
    execs: u64,
    collecting: Option<Collection>,
    freshness: Freshness,
}

impl Walk {
    /// Before the first event.
    pub fn new(alloc: Global) -> Walk
        ensures { walk_of result ≡ spec.start }
    {
        Walk {
            held: Vec::new(alloc),
            readers: 0,
            writers: 0,
            execs: 0,
            collecting: None,
            freshness: Freshness::NotHashed,
        }
    }

    /// What the strips show after the last event.
    pub fn state(&self) -> State
        ensures { result ≡ spec.state_of (walk_of self.now) }
    {
        State {
            readers: self.readers,
            writers: self.writers,
            execs: self.execs,
            freshness: self.freshness,
        }
    }

    /// For each place, the kind of the file that its event opened, while that file is open.
    pub fn held(&self) -> &[Option<Kind>]
        ensures { result.now ≡ (walk_of self.now).held }
    {
        &self.held
    }

    /// Goes on over one more event.
    pub fn step(&mut self, event: Event) -> Result<(), OutOfMemory>
        requires { spec.IsSmall (walk_of self.old) }
        ensures { OnOk result (walk_of self.new ≡ spec.walked event (walk_of self.old)) }
    {
        let drop = dropped(event.deed, event.outcome);
        let gone = kind_at(&self.held, drop);
        let new = opened(event.deed, event.outcome);
        clear(&mut self.held, drop);
        self.held.push(new)?;
        self.readers = recounted(passes_reader(gone), passes_reader(new), self.readers);
        self.writers = recounted(passes_writer(gone), passes_writer(new), self.writers);
        self.execs = recounted(passes_exec(gone), passes_exec(new), self.execs);
        self.freshness = freshness_after(
            event.deed,
            event.outcome,
            self.collecting,
            self.freshness,
        );
        self.collecting = collecting_after(event.deed, event.outcome, self.collecting);
        Ok(())
    }
}

// The file that the event drops.
pub(crate) fn dropped(deed: Deed, outcome: Outcome) -> Option<u32>
    ensures { result ≡ files.dropped deed outcome }
{
    match (deed, outcome) {
        (Deed::Close(file), Outcome::Dropped) => Some(file),
        (Deed::CloseTake(file), Outcome::Dropped) => Some(file),
        (Deed::CloseFinish(file), Outcome::Dropped) => Some(file),
        (Deed::CloseFinish(file), Outcome::LabelledDropped) => Some(file),
        _ => None,
    }
}

// The kind of the file that the event opens.
pub(crate) fn opened(deed: Deed, outcome: Outcome) -> Option<Kind>
    ensures { result ≡ files.opened deed outcome }
{
    match (deed, outcome) {
        (Deed::Count { kind, .. }, Outcome::Held) => Some(kind),
        _ => None,
    }
}

// The kind of a file, while it is open.
fn kind_at(held: &[Option<Kind>], file: Option<u32>) -> Option<Kind>
    ensures { result ≡ spec.kind_at held.now file }
{
    match file {
        Some(file) => kind_in(held, file as usize),
        None => None,
    }
}

fn kind_in(held: &[Option<Kind>], file: usize) -> Option<Kind>
    ensures { result ≡ spec.joined (slice_get held.now file) }
{
    match held.get(file) {
        Some(kind) => *kind,
        None => None,
    }
}

// The file isn't open any more.
#[tactic(auto, using(std::proofs::lemmas::List::set_past))]
fn clear(held: &mut [Option<Kind>], file: Option<u32>)
    ensures { held.new ≡ spec.cleared held.old file }
{
    if let Some(file) = file {
        let place = file as usize;
        if place < held.len() {
            held[place] = None;
        }
    }
}

fn passes_reader(kind: Option<Kind>) -> bool
    ensures { result ≡ spec.passes files.is_reader kind }
{
    match kind {
        Some(kind) => is_reader(kind),
        None => false,
    }
}

/// Whether a file of this kind counts as a reader.
pub fn is_reader(kind: Kind) -> bool
    ensures { result ≡ files.is_reader kind }
{
    match kind {
        Kind::Read | Kind::Exec => true,
        Kind::Write | Kind::ReadWrite => false,
    }
}

fn passes_writer(kind: Option<Kind>) -> bool
    ensures { result ≡ spec.passes files.is_writer kind }
{
    match kind {
        Some(kind) => is_writer(kind),
        None => false,
    }
}

/// Whether a file of this kind counts as a writer.
pub fn is_writer(kind: Kind) -> bool
    ensures { result ≡ files.is_writer kind }
{
    match kind {
        Kind::Write | Kind::ReadWrite => true,
        Kind::Read | Kind::Exec => false,
    }
}

fn passes_exec(kind: Option<Kind>) -> bool
    ensures { result ≡ spec.passes files.is_exec kind }
{
    match kind {
        Some(kind) => is_exec(kind),
        None => false,
    }
}

fn is_exec(kind: Kind) -> bool
    ensures { result ≡ files.is_exec kind }
{
    match kind {
        Kind::Exec => true,
        Kind::Read | Kind::Write | Kind::ReadWrite => false,
    }
}

// A count after a file that counts was dropped, and another one opened.
fn recounted(drop: bool, new: bool, count: u64) -> u64
    requires { count < 2 ^ 63 }
    ensures { result ≡ spec.recounted drop new count }
{
    let count = if drop { count.saturating_sub(1) } else { count };
    if new { count + 1 } else { count }
}

fn begun() -> Option<Collection>
    ensures { result ≡ state.begun }
{
    Some(Collection {
        pieces: 0,
        complete: false,
        hit: false,
    })
}

fn more(complete: bool, collecting: Option<Collection>) -> Option<Collection>
    requires { spec.pieces_of collecting < 2 ^ 63 }
    ensures { result ≡ state.one_more complete collecting }
{
    let Collection { pieces, hit, .. } = collecting?;
    Some(Collection {
        pieces: pieces + 1,
        complete,
        hit,
    })
}

// After a change from this offset on.
fn touched(from: u32, collecting: Option<Collection>) -> Option<Collection>
    requires { spec.pieces_of collecting < 2 ^ 48 }
    ensures { result ≡ state.touched from collecting }
{
    let Collection {
        pieces,
        complete,
        hit,
    } = collecting?;
    Some(Collection {
        pieces,
        complete,
        hit: hit || (complete || u64::from(from) < 4096 * pieces),
    })
}

fn collecting_after(
    deed: Deed,
    outcome: Outcome,
    collecting: Option<Collection>,
) -> Option<Collection>
    requires { spec.pieces_of collecting < 2 ^ 48 }
    ensures { result ≡ state.collecting_after deed outcome collecting }
{
    match (deed, outcome) {
        (Deed::Take(_), Outcome::Begun) => begun(),
        (Deed::CloseTake(_), Outcome::Begun) => begun(),
        (Deed::Chunk(_), Outcome::More) => more(false, collecting),
        (Deed::Chunk(_), Outcome::Last) => more(true, collecting),
        (Deed::CloseChunk(_), Outcome::More) => more(false, collecting),
        (Deed::CloseChunk(_), Outcome::Last) => more(true, collecting),
        (Deed::Finish(_), _) => None,
        (Deed::CloseFinish(_), _) => None,
        (Deed::Write { from, .. }, Outcome::Done) => touched(from, collecting),
        (Deed::Trunc { len, .. }, Outcome::Done) => touched(len, collecting),
        _ => collecting,
    }
}

fn hashed(collecting: Option<Collection>) -> Freshness
    ensures { result ≡ state.hashed collecting }
{
    match collecting {
        Some(collection) => {
            if collection.hit {
                Freshness::Written
            } else {
                Freshness::AsHashed
            }
        }
        None => Freshness::Written,
    }
}

fn written(freshness: Freshness) -> Freshness
    ensures { result ≡ state.written freshness }
{
    match freshness {
        Freshness::NotHashed => Freshness::NotHashed,
        Freshness::AsHashed | Freshness::Written => Freshness::Written,
    }
}

fn freshness_after(
    deed: Deed,
    outcome: Outcome,
    collecting: Option<Collection>,
    freshness: Freshness,
) -> Freshness
    ensures { result ≡ state.freshness_after deed outcome collecting freshness }
{
    match (deed, outcome) {
        (Deed::Finish(_), _) => hashed(collecting),
        (Deed::CloseFinish(_), Outcome::LabelledDropped) => hashed(collecting),
        (Deed::Write { .. }, Outcome::Done) => written(freshness),
        (Deed::Trunc { .. }, Outcome::Done) => written(freshness),
        _ => freshness,
    }
}

/// Whether the event is a write or a truncation that was done.
pub fn is_write(deed: Deed, outcome: Outcome) -> bool
    ensures { result ≡ state.is_write deed outcome }
{
    match (deed, outcome) {
        (Deed::Write { .. }, Outcome::Done) => true,
        (Deed::Trunc { .. }, Outcome::Done) => true,
        _ => false,
    }
}
