//! The first step of a call.

ghost use Rattle.std.specs.Prelude.{◌≡◌};
ghost use Rattle.inode_events.specs.Files.{can_read, is_writer};
ghost use Rattle.call_steps.specs.Steps.{at_once, close, close_held, first, if_free, if_readable, if_writable, map_held};

use crate::ask::Ask;
use crate::call::Call;
use crate::course::Course;
use crate::due::Due;
use crate::held::{Hand, Held};
use crate::reply::Reply;
use inode_events::How;

/// The first step of a call, given what the task holds.
pub fn first(call: &Call, hand: Hand) -> Due
    ensures { result ≡ first call.now hand }
{
    match call {
        Call::Open { .. } | Call::Exec { .. } => if_free(hand.free, due(Ask::Count)),
        Call::Read { from, len, .. } | Call::Mread { from, len, .. } => {
            let (from, len) = (*from, *len);
            if_readable(hand.held, due(Ask::Read { from, len }))
        }
        Call::Write { .. } => if_writable(hand.held, due(Ask::Write)),
        Call::Ftruncate { len, .. } => if_writable(hand.held, due(Ask::Trunc { len: *len })),
        Call::Close { .. } | Call::Munmap { .. } | Call::Endexec { .. } => close_held(hand.held),
        Call::Mmap { exec, .. } => map_held(*exec, hand),
        Call::SetAttr { .. } => due(Ask::SetAttr),
        Call::SetMeta { .. } => due(Ask::SetMeta),
        Call::Post { .. } | Call::Wait { .. } => at_once(Reply::Done),
        Call::AddRule { .. } => at_once(if hand.admin {
            Reply::Done
        } else {
            Reply::NotAdmin
        }),
        Call::Module { .. } | Call::Firmware { .. } => due(Ask::Count),
    }
}

// The step, with the reply of a call that runs to its end.
fn due(ask: Ask) -> Due
    ensures { result ≡ record { ask = ask; reply = Reply.Done } }
{
    Due {
        ask,
        reply: Reply::Done,
    }
}

fn at_once(reply: Reply) -> Due
    ensures { result ≡ at_once reply }
{
    Due {
        ask: Ask::Plain,
        reply,
    }
}

fn if_free(free: bool, due: Due) -> Due
    ensures { result ≡ if_free free due }
{
    if free { due } else { at_once(Reply::BadFile) }
}

fn if_readable(held: Option<Held>, due: Due) -> Due
    ensures { result ≡ if_readable held due }
{
    match held {
        Some(held) if can_read(held.how) => due,
        _ => at_once(Reply::BadFile),
    }
}

fn if_writable(held: Option<Held>, due: Due) -> Due
    ensures { result ≡ if_writable held due }
{
    match held {
        Some(held) if is_writer(held.how) => due,
        _ => at_once(Reply::BadFile),
    }
}

fn close_held(held: Option<Held>) -> Due
    ensures { result ≡ close_held held }
{
    match held {
        Some(held) if held.last => due(close(held.how)),
        Some(_) => at_once(Reply::Done),
        None => at_once(Reply::BadFile),
    }
}

fn map_held(exec: bool, hand: Hand) -> Due
    ensures { result ≡ map_held exec hand }
{
    let mapped = if exec {
        due(Course::Mmap.check())
    } else {
        at_once(Reply::Done)
    };
    if_free(hand.free, if_readable(hand.held, mapped))
}

/// The first step of closing a file.
pub fn close(how: How) -> Ask
    ensures { result ≡ close how }
{
    if is_writer(how) {
        Ask::CloseTake
    } else {
        Ask::Close
    }
}

fn is_writer(how: How) -> bool
    ensures { result ≡ is_writer how }
{
    matches!(how, How::Write { .. })
}

fn can_read(how: How) -> bool
    ensures { result ≡ can_read how }
{
    match how {
        How::Write { read, .. } => read,
        _ => true,
    }
}
