// The lines of inodes, with their journals.

ghost use Rattle.std.specs.Prelude.{◌≡◌, length, map, OnOk};
ghost use Rattle.report_lines.specs.Lines.{event_of};
ghost use Rattle.report_draft.specs.Draft as spec;
ghost use Rattle.report_draft.specs.Makes.{Makes};

use crate::draft::{Draft, Stage};
use crate::fault::LineErr;
use crate::fits::fits;
use crate::stages::names_left;
use report_lines::{Event, Inode, Span, event_of, inode_of, is_attr, is_force};
use report_words::counted;
use std::alloc::{AllocError as OutOfMemory, Global};
use std::mem;

impl Draft {
    pub(crate) fn with_inode(&mut self, line: Span, words: &[&[u8]]) -> Result<(), LineErr>
        ensures { Makes result (spec.with_inode line (map (λ w. w.now) words.now) self.old)
            self.new }
    {
        let Some((number, head)) = inode_of(line, words) else {
            return Err(LineErr::Refused);
        };
        if number as usize != self.inodes.len() {
            return Err(LineErr::Refused);
        }
        self.stage = Stage::Force;
        self.head = head;
        Ok(())
    }

    pub(crate) fn with_force(&mut self, line: Span, words: &[&[u8]]) -> Result<(), LineErr>
        ensures { Makes result (spec.with_force line (map (λ w. w.now) words.now) self.old)
            self.new }
    {
        if !is_force(words) {
            return Err(LineErr::Refused);
        }
        self.stage = Stage::Attrs;
        self.head.force = line;
        Ok(())
    }

    pub(crate) fn with_attrs(&mut self, words: &[&[u8]]) -> Result<(), LineErr>
        ensures { Makes result (spec.with_attrs (map (λ w. w.now) words.now) self.old) self.new }
    {
        let Some(count) = counted(b"attrs", words) else {
            return Err(LineErr::Refused);
        };
        self.stage = names_left(count);
        Ok(())
    }

    pub(crate) fn with_name(
        &mut self,
        left: u32,
        line: Span,
        words: &[&[u8]],
    ) -> Result<(), LineErr>
        ensures { Makes result (spec.with_name left line (map (λ w. w.now) words.now) self.old)
            self.new }
    {
        if !is_attr(words) {
            return Err(LineErr::Refused);
        }
        self.attrs.push(line)?;
        self.stage = names_left(left.saturating_sub(1));
        Ok(())
    }

    pub(crate) fn with_journal(&mut self, alloc: Global, words: &[&[u8]]) -> Result<(), LineErr>
        ensures { Makes result (spec.with_journal (map (λ w. w.now) words.now) self.old)
            self.new }
    {
        let Some(count) = counted(b"events", words) else {
            return Err(LineErr::Refused);
        };
        self.events_left(alloc, count)?;
        Ok(())
    }

    // So many events are left of the journal.
    fn events_left(&mut self, alloc: Global, left: u32) -> Result<(), OutOfMemory>
        ensures { OnOk result (self.new ≡ spec.events_left left self.old) }
    {
        if left == 0 {
            self.close_inode(alloc)
        } else {
            self.stage = Stage::Events(left);
            Ok(())
        }
    }

    // The journal of the inode that is being read has been read.
    fn close_inode(&mut self, alloc: Global) -> Result<(), OutOfMemory>
        ensures { OnOk result (self.new ≡ spec.inode_closed self.old) }
    {
        let inode = self.take_inode(alloc);
        self.inodes.push(inode)?;
        self.stage = Stage::Inodes;
        Ok(())
    }

    // The inode that has been read. Its parts are taken out of the draft.
    fn take_inode(&mut self, alloc: Global) -> Inode
        ensures inode { result ≡ spec.inode_read self.old }
        ensures rest { self.new ≡ spec.without_inode self.old }
    {
        Inode {
            head: self.head,
            attrs: mem::replace(&mut self.attrs, Vec::new(alloc)),
            events: mem::replace(&mut self.events, Vec::new(alloc)),
        }
    }

    pub(crate) fn with_event(
        &mut self,
        alloc: Global,
        left: u32,
        line: Span,
        words: &[&[u8]],
    ) -> Result<(), LineErr>
        ensures { Makes result (spec.with_event left line (map (λ w. w.now) words.now) self.old)
            self.new }
    {
        let Some(event) = self.event_in(line, words) else {
            return Err(LineErr::Refused);
        };
        if !self.takes(event) {
            return Err(LineErr::Refused);
        }
        self.push_event(alloc, left, event)?;
        Ok(())
    }

    // The event of the next place.
    fn event_in(&self, line: Span, words: &[&[u8]]) -> Option<Event>
        ensures { result
            ≡ event_of (length self.now.events) line (map (λ w. w.now) words.now) }
    {
        event_of(self.events.len(), line, words)
    }

    // Whether the event fits the list and the events before it.
    fn takes(&self, event: Event) -> bool
        ensures { result ≡ spec.fits (length self.now.entries) self.now.events event }
    {
        fits(self.entries.len(), &self.events, event)
    }

    // One more event of the journal, of which so many were left.
    fn push_event(&mut self, alloc: Global, left: u32, event: Event) -> Result<(), OutOfMemory>
        ensures { OnOk result (self.new ≡ spec.event_taken left event self.old) }
    {
        self.events.push(event)?;
        self.events_left(alloc, left.saturating_sub(1))
    }
}
