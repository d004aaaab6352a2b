// The effect of an event on files, content and writers.
ghost use Rattle.std.specs.Prelude.{◌≡◌};
ghost use Rattle.inode_events.specs.Files.{counted};
ghost use Rattle.inode_events.specs.State.{drops_writer, modifies};

use inode_events::{Deed, Event, How, Told};

/// How the file that the event counts was opened. `None` if it counts no file.
pub fn counted(e: &Event) -> Option<How>
    ensures { result ≡ counted e.now.deed e.now.told }
{
    match (&e.deed, &e.told) {
        (Deed::Count { how }, Told::Held) => Some(*how),
        _ => None,
    }
}

// Whether the event is a write or truncation that was done.
pub fn modifies(e: &Event) -> bool
    ensures { result ≡ modifies e.now.deed e.now.told }
{
    match &e.deed {
        Deed::Write { .. } | Deed::Trunc { .. } => matches!(e.told, Told::Done),
        _ => false,
    }
}

// Whether the event drops a writer.
pub fn drops_writer(e: &Event) -> bool
    ensures { result ≡ drops_writer e.now.deed e.now.told }
{
    match (&e.deed, &e.told) {
        (Deed::CloseTake { .. }, Told::Dropped) => true,
        (Deed::CloseFinish { .. }, Told::Dropped) => true,
        (Deed::CloseFinish { .. }, Told::LabelledDropped) => true,
        _ => false,
    }
}
