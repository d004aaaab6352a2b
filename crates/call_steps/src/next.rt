//! The steps after the first.

ghost use Rattle.std.specs.Prelude.{◌≡◌, unwrap_or};
ghost use Rattle.std.specs.Option.{option_copied};
ghost use Rattle.inode_events.specs.Checks.{no_action};
ghost use Rattle.call_steps.specs.Steps.{given, admitted, after_check, after_chunk, after_close, after_count, after_finish, after_take, asks_in, goes, granted, has_read, next_by, refused, refused_by};

use crate::ask::Ask;
use crate::course::Course;
use crate::due::{Due, Next};
use crate::first::close;
use crate::reply::Reply;
use inode_events::labels::{Cause, Verdict};
use inode_events::{Action, Grant, MOST_BYTES, Mode, Told};

/// The effect of a step on its call, given the step's outcome, and for a check also its action.
pub fn next_by(
    mode: Mode,
    course: Course,
    ask: Ask,
    reply: Reply,
    told: &Told,
    action: Option<&Action>,
) -> Next
    ensures { result ≡ next_by mode course ask reply told.now (given (option_copied action.entry)) }
{
    match ask {
        Ask::Count => after_count(course, reply, told),
        Ask::Check { .. } => after_check(mode, course, reply, action),
        Ask::Take { .. } => after_take(course, reply, told),
        Ask::Chunk => after_chunk(Ask::Chunk, Ask::Finish, reply, told),
        Ask::Finish => after_finish(course, reply, told),
        Ask::Read { .. } => has_read(course, Reply::of(told)),
        Ask::Write | Ask::Trunc { .. } | Ask::SetAttr | Ask::SetMeta => Next::Over(Reply::of(told)),
        Ask::CloseTake => after_close(reply, told),
        Ask::CloseChunk => after_chunk(Ask::CloseChunk, Ask::CloseFinish, reply, told),
        Ask::Close | Ask::CloseFinish | Ask::Plain => Next::Over(reply),
    }
}

fn goes(ask: Ask, reply: Reply) -> Next
    ensures { result ≡ goes ask reply }
{
    Next::On(Due { ask, reply })
}

fn after_count(course: Course, reply: Reply, told: &Told) -> Next
    ensures { result ≡ after_count course reply told.now }
{
    match told {
        Told::Held => goes(course.check(), reply),
        _ => Next::Over(Reply::of(told)),
    }
}

fn after_check(mode: Mode, course: Course, reply: Reply, action: Option<&Action>) -> Next
    ensures { result ≡ after_check mode course reply (given (option_copied action.entry)) }
{
    match action {
        Some(action) if asks_in(mode, action) => goes(course.take(), reply),
        _ => admitted(course),
    }
}

fn asks_in(mode: Mode, action: &Action) -> bool
    ensures { result ≡ asks_in mode action.now }
{
    action.measure || (action.appraise && mode != Mode::Off)
}

fn after_take(course: Course, reply: Reply, told: &Told) -> Next
    ensures { result ≡ after_take course reply told.now }
{
    match told {
        Told::Grant(grant) => granted(course, grant),
        _ => goes(Ask::Chunk, reply),
    }
}

fn after_chunk(again: Ask, end: Ask, reply: Reply, told: &Told) -> Next
    ensures { result ≡ after_chunk again end reply told.now }
{
    match told {
        Told::More => goes(again, reply),
        _ => goes(end, reply),
    }
}

fn after_finish(course: Course, reply: Reply, told: &Told) -> Next
    ensures { result ≡ after_finish course reply told.now }
{
    match told {
        Told::Grant(grant) => granted(course, grant),
        _ => Next::Over(reply),
    }
}

fn granted(course: Course, grant: &Grant) -> Next
    ensures { result ≡ granted course grant.now }
{
    if grant.admitted {
        return admitted(course);
    }
    match grant.verdict {
        Some(Verdict::Deny(cause)) => refused(course, cause),
        _ => admitted(course),
    }
}

// The next step once the file is admitted: an open may truncate it, and an execution and the kernel
// read it.
fn admitted(course: Course) -> Next
    ensures { result ≡ admitted course }
{
    match course {
        Course::Open { trunc: true, .. } => goes(Ask::Trunc { len: 0 }, Reply::Done),
        Course::Exec | Course::Module | Course::Firmware => goes(
            Ask::Read {
                from: 0,
                len: MOST_BYTES,
            },
            Reply::Done,
        ),
        _ => Next::Over(Reply::Done),
    }
}

// The next step once the file is refused: the file that the call counted is closed. A mapping
// counted none.
fn refused(course: Course, cause: Cause) -> Next
    ensures { result ≡ refused course cause }
{
    match course {
        Course::Mmap => Next::Over(Reply::Denied(cause)),
        _ => goes(close(course.how()), Reply::Denied(cause)),
    }
}

// The next step after a read: the kernel closes the file that it has read.
fn has_read(course: Course, reply: Reply) -> Next
    ensures { result ≡ has_read course reply }
{
    match course {
        Course::Module | Course::Firmware => goes(Ask::Close, reply),
        _ => Next::Over(reply),
    }
}

fn after_close(reply: Reply, told: &Told) -> Next
    ensures { result ≡ after_close reply told.now }
{
    match told {
        Told::Begun => goes(Ask::CloseChunk, reply),
        _ => Next::Over(reply),
    }
}
