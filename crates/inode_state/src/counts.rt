// The open files of an inode, counted by kind.
ghost use Rattle.std.specs.Prelude.{◌≡◌, ◌+◌, ◌-◌, ◌<◌, ◌^◌, ◌∷◌, if◌then◌else◌};
ghost use Rattle.inode_events.specs.Files.{files, holds, tally};
ghost use Rattle.inode_events.specs.declared.told.Event.{Event as AnyEvent};
ghost use Rattle.std.specs.Prelude.{List};
ghost use Rattle.inode_state.specs.Counts.{AreCounts, how_dropped, test_of};

use crate::events::counted;
use inode_events::{Event, How};

/// What an open file counts as. A file that is open for writing is a writer and not a reader, and
/// an execution is a reader too.
#[derive(Clone, Copy)]
pub enum Kind {
    /// Open for writing, whether or not it can be read too.
    Writer,
    /// Open for reading alone, or executed.
    Reader,
    /// Executed, which makes it a reader too.
    Exec,
}

/// The number of open files, by kind.
#[derive(Clone, Copy, PartialEq, Eq)]
pub struct Counts {
    /// Files that are open for writing.
    pub writers: u64,
    /// Files that are open for reading alone, executions included.
    pub readers: u64,
    /// Files that are executed; each is a reader too.
    pub execs: u64,
}

/// Whether a file that was opened as `how` counts as `kind`. `None` is no file.
pub fn counts_as(kind: Kind, how: Option<How>) -> bool
    ensures { result ≡ holds (test_of kind) how }
{
    match (kind, how) {
        (_, None) => false,
        (Kind::Writer, Some(how)) => matches!(how, How::Write { .. }),
        (Kind::Reader, Some(how)) => matches!(how, How::Read { .. } | How::Exec),
        (Kind::Exec, Some(how)) => matches!(how, How::Exec),
    }
}

fn up(n: u64, by: bool) -> u64
    requires { n + 1 < 2 ^ 64 }
    ensures { result ≡ n + (if by then 1 else 0) }
{
    if by { n + 1 } else { n }
}

fn down(n: u64, by: bool) -> u64
    ensures { result ≡ n - (if by then 1 else 0) }
{
    if by { n.saturating_sub(1) } else { n }
}

fn count_after(kind: Kind, n: u64, e: &Event, gone: Option<How>) -> u64
    requires small { n + 1 < 2 ^ 64 }
    ensures { (p : List AnyEvent) → n ≡ tally (test_of kind) (files p) → gone ≡ how_dropped e.now p
        → result ≡ tally (test_of kind) (files (e.now ∷ p)) }
{
    up(down(n, counts_as(kind, gone)), counts_as(kind, counted(e)))
}

impl Counts {
    /// The counts after an event. `gone` is how the file that the event drops was opened.
    pub fn after(self, e: &Event, gone: Option<How>) -> Counts
        requires small { (self.writers + 1 < 2 ^ 64) × ((self.readers + 1 < 2 ^ 64)
            × (self.execs + 1 < 2 ^ 64)) }
        ensures { (p : List AnyEvent) → AreCounts p self → gone ≡ how_dropped e.now p
            → AreCounts (e.now ∷ p) result }
    {
        Counts {
            writers: count_after(Kind::Writer, self.writers, e, gone),
            readers: count_after(Kind::Reader, self.readers, e, gone),
            execs: count_after(Kind::Exec, self.execs, e, gone),
        }
    }
}
