// The marks of an inode, and how each event changes them.
ghost use Rattle.std.specs.Prelude.{◌≡◌, List, ◌∷◌};
ghost use Rattle.inode_events.specs.Files.{writers};
ghost use Rattle.inode_events.specs.Marks.{earns_update, must_measure_after, update_after};
ghost use Rattle.inode_events.specs.State.{is_last_drop, new_after, present, present_after, versions_after};
ghost use Rattle.inode_events.specs.declared.told.Event.{Event as AnyEvent};
ghost use Rattle.inode_state.specs.Marks.{AreMarks, earned, writes_named};

use crate::events::drops_writer;
use inode_events::labels::Verdict;
use inode_events::{Deed, Event, Grant, Told};

/// The marks of an inode: facts that steer its checks, grants and closes.
#[derive(Clone, Copy)]
pub struct Marks {
    /// The file exists.
    pub present: bool,
    /// An open created the file, and its last writer hasn't closed it yet.
    pub new: bool,
    /// A measured file was opened, and no writer has met a reader since.
    pub must_measure: bool,
    /// A grant of a writer passed or labelled the file, so the last close may have to renew the
    /// label.
    pub update: bool,
    /// The file system keeps a change counter for its inodes.
    pub versions: bool,
}

fn present_after(e: &Event, old: bool) -> bool
    ensures { result ≡ present_after e.now.deed e.now.told old }
{
    match (&e.deed, &e.told) {
        (Deed::Birth, Told::Image(image)) => image.get().present,
        (Deed::Count { .. }, Told::Held) => true,
        _ => old,
    }
}

fn versions_after(e: &Event, old: bool) -> bool
    ensures { result ≡ versions_after e.now.deed e.now.told old }
{
    match (&e.deed, &e.told) {
        (Deed::Birth, Told::Image(image)) => image.get().versions,
        _ => old,
    }
}

/// Whether the event drops the last writer. `count` is the number of writers before it.
pub fn is_last_drop(e: &Event, count: u64) -> bool
    ensures { (p : List AnyEvent) → count ≡ writers p
        → result ≡ is_last_drop e.now.deed e.now.told p }
{
    drops_writer(e) && count == 1
}

fn new_after(e: &Event, last: bool, is_there: bool, old: bool) -> bool
    ensures { (p : List AnyEvent) → last ≡ is_last_drop e.now.deed e.now.told p
        → is_there ≡ present p → result ≡ new_after e.now.deed e.now.told p old }
{
    match (&e.deed, &e.told) {
        (Deed::Count { .. }, Told::Held) => old || !is_there,
        _ => !last && old,
    }
}

// `must_measure` after an event. `writing` says whether the file of a check is open for writing.
fn must_measure_after(e: &Event, writing: bool, old: bool) -> bool
    ensures { (p : List AnyEvent) → writing ≡ writes_named e.now.deed p
        → result ≡ must_measure_after e.now.deed e.now.told p old }
{
    match (&e.deed, &e.told) {
        (Deed::Check { action, .. }, Told::Quiet | Told::OpenWriters(_)) => {
            old || (action.measure && !writing)
        }
        (Deed::Check { .. }, Told::ToMToU(_)) => false,
        _ => old,
    }
}

// Whether a grant of a writer makes its close owe a label: the file passed or was labelled.
fn earned(grant: Grant, writing: bool) -> bool
    ensures { result ≡ earned grant writing }
{
    writing && (matches!(grant.verdict, Some(Verdict::Pass)) || grant.labelled)
}

fn update_after(e: &Event, writing: bool, last: bool, old: bool) -> bool
    ensures { (p : List AnyEvent) → writing ≡ writes_named e.now.deed p
        → last ≡ is_last_drop e.now.deed e.now.told p
        → result ≡ update_after e.now.deed e.now.told p old }
{
    match (&e.deed, &e.told) {
        (Deed::Take { .. }, Told::Grant(grant)) => old || earned(*grant, writing),
        (Deed::Finish { .. }, Told::Grant(grant)) => old || earned(*grant, writing),
        _ => !last && old,
    }
}

impl Marks {
    /// The marks after an event. `last` says whether the event drops the last writer, and `writing`
    /// whether the file that it checks or grants is open for writing.
    pub fn after(self, e: &Event, last: bool, writing: bool) -> Marks
        ensures { (p : List AnyEvent) → AreMarks p self
            → last ≡ is_last_drop e.now.deed e.now.told p → writing ≡ writes_named e.now.deed p
            → AreMarks (e.now ∷ p) result }
    {
        Marks {
            present: present_after(e, self.present),
            new: new_after(e, last, self.present, self.new),
            must_measure: must_measure_after(e, writing, self.must_measure),
            update: update_after(e, writing, last, self.update),
            versions: versions_after(e, self.versions),
        }
    }
}
