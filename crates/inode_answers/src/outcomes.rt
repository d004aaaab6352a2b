// What the parts of an inode's state make of a call.
ghost use Rattle.std.specs.Prelude.{◌≡◌, Bool, ℕ, Option, ◌+◌, ◌*◌, nat_le, List, Some, length, is_err, true, IfOk, OnErr};
ghost use Rattle.inode_answers.specs.Answers.{IsPlaced, IsWrote, counted_told, found_told, piece_told};
ghost use Rattle.inode_events.specs.Checks.{appraises};
ghost use Rattle.inode_events.specs.Files.{creates};
ghost use Rattle.inode_events.specs.Grants.{admits, is_mend, placed_if_measured};
ghost use Rattle.inode_events.specs.Inode.{Inode as AnyInode};
ghost use Rattle.inode_events.specs.Integrity.{Collection as AnyCollection};
ghost use Rattle.inode_events.specs.Says.{check_told, chunk_told, count_told, place_of};
ghost use Rattle.inode_pages.specs.Content.{piece_bytes};

use crate::answers::{Counted, Found, Piece, Wrote};
use ima_templates::Placed;
use inode_events::{How, Settings};
use inode_meta::Mode;
use inode_pages::{PAGE_SIZE, PageErr};
use label_values::{Mend, Verdict};
use policy_rules::Action;
use std::alloc::AllocError as OutOfMemory;

/// Whether the open creates an absent file.
pub fn creates(how: How) -> bool
    ensures { result ≡ creates how }
{
    match how {
        How::Read { create } | How::Write { create, .. } => create,
        How::Exec => false,
    }
}

/// The result of a count whose event would be at `place`, by the number of writers and executions.
pub fn counted(how: How, is_there: bool, writers: u64, execs: u64, place: u64) -> Counted
    ensures told { counted_told result ≡ count_told how is_there writers execs }
    ensures place { IsPlaced place result }
{
    let is_busy = match how {
        How::Read { .. } => false,
        How::Write { .. } => execs > 0,
        How::Exec => writers > 0,
    };
    if !is_there && !creates(how) {
        Counted::NotFound
    } else if is_busy {
        Counted::TextBusy
    } else {
        Counted::Held(place)
    }
}

/// The result of a write or truncation, by that of the change of the content.
pub fn wrote(changed: Result<(), PageErr>) -> Result<Wrote, OutOfMemory>
    ensures ok { IfOk result (λ w. IsWrote changed w) }
    ensures err { OnErr result (is_err changed ≡ true) }
{
    match changed {
        Ok(()) => Ok(Wrote::Done),
        Err(PageErr::TooBig) => Ok(Wrote::TooBig),
        Err(PageErr::OutOfMemory) => Err(OutOfMemory),
    }
}

/// The violation that a check finds, with 0 for its place in the measurement list.
pub fn found(writing: bool, measure: bool, readers: u64, writers: u64, must: bool) -> Found
    ensures { found_told result ≡ check_told writing measure readers writers must 0 }
{
    if writing && readers > 0 && must {
        Found::ToMToU(0)
    } else if !writing && measure && writers > 0 {
        Found::OpenWriters(0)
    } else {
        Found::Quiet
    }
}

/// The same violation at this place of the measurement list.
pub fn found_at(found: Found, place: u64) -> Found
    ensures { (writing measure must : Bool) (readers writers : ℕ)
        → found_told found ≡ check_told writing measure readers writers must 0
        → found_told result ≡ check_told writing measure readers writers must place }
{
    match found {
        Found::Quiet => Found::Quiet,
        Found::OpenWriters(_) => Found::OpenWriters(place),
        Found::ToMToU(_) => Found::ToMToU(place),
    }
}

/// The place of an entry in the measurement list.
pub fn place_of(placed: Placed) -> u64
    ensures { result ≡ place_of placed }
{
    match placed {
        Placed::Added(place) | Placed::Already(place) => place,
    }
}

// Whether the piece with this number, counted from 0, is the last of a content of this size.
fn is_last(size: u64, piece: u64) -> bool
    ensures { result ≡ nat_le size (piece_bytes * (piece + 1)) }
{
    size.saturating_sub(1) / PAGE_SIZE as u64 <= piece
}

/// The piece with this number, counted from 0, of a content of this size.
pub fn piece_of(size: u64, piece: u64) -> Piece
    ensures { (o : Option AnyCollection) (c : AnyCollection) (bytes : List ℕ) → o ≡ Some c
        → piece ≡ c.pieces → size ≡ length bytes → chunk_told bytes o ≡ Some (piece_told result) }
{
    if is_last(size, piece) {
        Piece::Last
    } else {
        Piece::More
    }
}

/// Whether the file is appraised: the rules ask for it, and the mode isn't off.
pub fn appraises(settings: &Settings, action: &Action) -> bool
    ensures { (inode : AnyInode) → settings.now ≡ inode.settings
        → result ≡ appraises inode action.now }
{
    action.appraise && !matches!(settings.mode, Mode::Off)
}

/// Whether the mode admits a file with this verdict.
pub fn admits(mode: Mode, verdict: Option<Verdict>) -> bool
    ensures { result ≡ admits mode verdict }
{
    match (mode, verdict) {
        (Mode::Enforce, Some(verdict)) => matches!(verdict, Verdict::Pass),
        _ => true,
    }
}

/// Whether anything is mended.
pub fn is_mend(mend: Mend) -> bool
    ensures { result ≡ is_mend mend }
{
    !matches!(mend, Mend::Nothing)
}

/// Where the entry stands, if the action measures.
pub fn placed_if_measured(action: &Action, placed: Placed) -> Option<Placed>
    ensures { result ≡ placed_if_measured action.now placed }
{
    if action.measure { Some(placed) } else { None }
}
