// The state of an inode, with all its parts.
ghost use Rattle.std.specs.Prelude.{◌≡◌, ◌==◌, ◌&&◌, ◌+◌, ◌<◌, ◌≤◌, ◌^◌, List, [], ◌∷◌, length, vec_len, vec_capacity};
ghost use Rattle.inode_events.specs.Files.{writers};
ghost use Rattle.inode_events.specs.Inode.{Inode as AnyInode};
ghost use Rattle.inode_events.specs.Integrity.{label};
ghost use Rattle.inode_events.specs.Legal.{EachFollows};
ghost use Rattle.inode_events.specs.Marks.{is_label_due};
ghost use Rattle.inode_events.specs.labels.Labels.{read_label};
ghost use Rattle.inode_events.specs.labels.Verdicts.{is_signature};
ghost use Rattle.inode_events.specs.declared.told.Event.{Event as AnyEvent};
ghost use Rattle.inode_meta.specs.declared.step.Who.{Who as AnyWho};
ghost use Rattle.inode_state.specs.Collecting.{pieces_taken};
ghost use Rattle.inode_state.specs.Facts.{AreFacts};
ghost use Rattle.inode_state.specs.State.{IsState, changed_now};

use crate::collecting::{Collecting, collecting_after};
use crate::counts::Counts;
use crate::facts::Facts;
use crate::in_force::{InForce, in_force_after, is_stale, voids_digest};
use crate::marks::{Marks, is_last_drop};
use crate::metadata::metadata_after;
use crate::verdicts::Verdicts;
use crate::writes::Writes;
use inode_events::{Deed, Event, Image, Told};
use inode_meta::Meta;
use std::alloc::Global;

/// The state of an inode after its last event, except for attributes and content.
#[derive(Drop)]
pub struct State {
    /// The numbers of open files, by kind.
    pub counts: Counts,
    /// Presence, newness, and what checks and closes owe.
    pub marks: Marks,
    /// The place of the last write, and whether one fell in the present span of writers.
    pub writes: Writes,
    /// Mode, owner, group and identity.
    pub meta: Meta,
    /// The open collection. At most one is open at a time.
    pub collecting: Option<Collecting>,
    /// The digest in force, unless an event has voided it.
    pub in_force: Option<InForce>,
    /// The verdicts in force, one for each key.
    pub verdicts: Verdicts,
}

impl State {
    /// The state after a birth with this image.
    pub fn born(alloc: Global, image: &Image) -> State
        ensures { (i : AnyInode) (who : AnyWho)
            → IsState i (record { who = who; deed = Deed.Birth; told = Told.Image image.now } ∷ [])
            result }
    {
        State {
            counts: Counts {
                writers: 0,
                readers: 0,
                execs: 0,
            },
            marks: Marks {
                present: image.present,
                new: false,
                must_measure: false,
                update: false,
                versions: image.versions,
            },
            writes: Writes {
                last: None,
                in_span: false,
            },
            meta: image.meta,
            collecting: None,
            in_force: None,
            verdicts: Verdicts::new(alloc),
        }
    }

    /// Whether a writer's close has to write a label: the writer is the only one, and a label is
    /// due. `is_signed` says whether the present label is a signature, which stays.
    pub fn is_label_due(&self, is_signed: bool) -> bool
        ensures { (i : AnyInode) (p : List AnyEvent) → IsState i p self.now
            → is_signed ≡ is_signature (read_label (label i p) i.settings.hash)
            → result ≡ ((writers p == 1) && is_label_due i p) }
    {
        let marks = self.marks;
        let is_changed = marks.new || !marks.versions || self.writes.in_span;
        self.counts.writers == 1 && (marks.update && !is_signed && is_changed)
    }

    // Whether the content would count as changed if the last writer closed now.
    fn is_changed(&self) -> bool
        ensures { result ≡ changed_now self.now.marks self.now.writes self.now.in_force }
    {
        self.marks.new || !self.marks.versions || is_stale(&self.in_force, self.writes)
    }

    /// Updates the state by the event `e` at `place`.
    pub fn advance(&mut self, e: &Event, place: u64, facts: &Facts)
        requires writers { self.old.counts.writers + 1 < 2 ^ 64 }
        requires readers { self.old.counts.readers + 1 < 2 ^ 64 }
        requires execs { self.old.counts.execs + 1 < 2 ^ 64 }
        requires pieces { pieces_taken self.old.collecting + 1 < 2 ^ 64 }
        requires room { vec_len self.old.verdicts.kept + 1 ≤ vec_capacity self.old.verdicts.kept }
        ensures { (i : AnyInode) (p : List AnyEvent) → place ≡ length p → EachFollows i (e.now ∷ p)
            → AreFacts i p e.now facts.now → IsState i p self.old → IsState i (e.now ∷ p) self.new }
    {
        let last = is_last_drop(e, self.counts.writers);
        let voids = voids_digest(e, last, self.is_changed());
        let old = self.in_force.take();
        self.in_force = in_force_after(e, voids, &self.collecting, &facts.sums, old);
        self.verdicts.advance(e, voids, &facts.asked);
        let collecting = self.collecting.take();
        self.collecting = collecting_after(e, place, facts, collecting);
        self.meta = metadata_after(e, self.meta);
        self.writes = self.writes.after(e, place, self.counts.writers);
        self.marks = self.marks.after(e, last, facts.writing);
        self.counts = self.counts.after(e, facts.gone);
    }
}
