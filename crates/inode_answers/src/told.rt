// The outcomes that the events of an inode tell, by the results of its calls.

ghost use Rattle.std.specs.Prelude.{◌≡◌, Some};
ghost use Rattle.inode_answers.specs.Answers.{counted_told, finished_told, found_told, piece_told, set_told, wrote_told};
ghost use Rattle.inode_events.specs.Says.{status_told};
ghost use Rattle.inode_events.specs.declared.told.Told.{Told as AnyTold};

use crate::answers::{Counted, Found, Piece, Set, Wrote};
use inode_events::Told;
use inode_meta::EvmStatus;

/// The outcome of counting the opens of a file.
pub fn counted_told(answer: Counted) -> Told
    ensures { result ≡ counted_told answer }
{
    match answer {
        Counted::Held(_) => Told::Held,
        Counted::NotFound => Told::NotFound,
        Counted::TextBusy => Told::TextBusy,
    }
}

/// The outcome of a change of attributes or metadata that isn't blocked.
pub fn set_outcome(answer: Set) -> Told
    ensures { (t : AnyTold) → set_told answer ≡ Some t → result ≡ t }
{
    match answer {
        Set::Done => Told::Done,
        Set::Blocked => Told::Nothing,
        Set::NotFound => Told::NotFound,
        Set::EvmName => Told::EvmName,
        Set::NotAdmin => Told::NotAdmin,
        Set::TooLong => Told::TooLong,
        Set::Invalid => Told::Invalid,
        Set::NoData => Told::NoData,
        Set::Status(status) => Told::Status(status),
    }
}

/// The outcome of a change of attributes or metadata. `None` means that it is blocked.
pub fn set_told(answer: Set) -> Option<Told>
    ensures { result ≡ set_told answer }
{
    Some(match answer {
        Set::Blocked => return None,
        Set::Done => Told::Done,
        Set::NotFound => Told::NotFound,
        Set::EvmName => Told::EvmName,
        Set::NotAdmin => Told::NotAdmin,
        Set::TooLong => Told::TooLong,
        Set::Invalid => Told::Invalid,
        Set::NoData => Told::NoData,
        Set::Status(status) => Told::Status(status),
    })
}

/// The result of a change, by what EVM says of it.
pub fn by_status(answer: Result<(), EvmStatus>) -> Set
    ensures { set_told result ≡ Some (status_told answer) }
{
    match answer {
        Ok(()) => Set::Done,
        Err(status) => Set::Status(status),
    }
}

/// The outcome of a write or truncation.
pub fn wrote_told(answer: Wrote) -> Told
    ensures { result ≡ wrote_told answer }
{
    match answer {
        Wrote::Done => Told::Done,
        Wrote::TooBig => Told::TooBig,
    }
}

/// The outcome of reading a piece of a collection.
pub fn piece_told(answer: Piece) -> Told
    ensures { result ≡ piece_told answer }
{
    match answer {
        Piece::More => Told::More,
        Piece::Last => Told::Last,
    }
}

/// The outcome of a check.
pub fn found_told(answer: Found) -> Told
    ensures { result ≡ found_told answer }
{
    match answer {
        Found::Quiet => Told::Quiet,
        Found::OpenWriters(place) => Told::OpenWriters(place),
        Found::ToMToU(place) => Told::ToMToU(place),
    }
}

/// The outcome of the end of a close.
pub fn finished_told(labelled: bool) -> Told
    ensures { result ≡ finished_told labelled }
{
    if labelled {
        Told::LabelledDropped
    } else {
        Told::Dropped
    }
}
