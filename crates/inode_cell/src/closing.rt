// Closing files.
ghost use Rattle.std.specs.Prelude.{◌≡◌, ◌==◌, ◌&&◌, ◌+◌, List, Some, IfOk, OnOk, OnErr};
ghost use Rattle.inode_events.specs.Files.{writers};
ghost use Rattle.inode_events.specs.Marks.{is_label_due};
ghost use Rattle.inode_events.specs.NewestFirst.{newest_first};
ghost use Rattle.inode_answers.specs.Answers.{CloseBeginsBy, close_taken_told, finished_told};
ghost use Rattle.inode_cell.specs.Sums.{HasSums};
ghost use Rattle.ima_templates.specs.declared.entry.Entry.{Entry as AnyEntry};
ghost use Rattle.inode_cell.specs.Acts.{Acts, MayBy, Stays};

use crate::cell::InodeCell;
use grow_list::Pass;
use hash_algos::Digest;
use inode_answers::CloseTaken;
use inode_events::{Deed, Event, Told};
use inode_meta::Who;
use inode_state::Facts;
use label_values::{Label, read_label};
use std::alloc::AllocError as OutOfMemory;

impl InodeCell {
    /// Drops a file that isn't open for writing.
    pub fn close_read(
        &mut self,
        pass: &mut Pass<Event>,
        who: Who,
        file: u64,
    ) -> Result<(), OutOfMemory>
        requires name { pass.old.name ≡ self.old.journal }
        requires number { pass.old.number ≡ who.task + 1 }
        requires may { MayBy self.old pass.old.number (Deed.Close file) }
        ensures acts { OnOk result ((list : List AnyEntry)
            → Acts self.old self.new list list pass.old pass.new who (Deed.Close file) (Some
            Told.Dropped)) }
        ensures err { OnErr result (Stays self.old self.new pass.old pass.new) }
    {
        self.reserve()?;
        let facts = Facts::dropping(self.kept.how_at(file));
        self.step(pass, who, Deed::Close { file }, Told::Dropped, &facts);
        Ok(())
    }

    // Whether a writer's close has to write a label, by the label that the file has.
    fn is_label_due_now(&self) -> bool
        ensures { result ≡ ((writers (newest_first self.now.list) == 1) && is_label_due
            self.now.inode (newest_first self.now.list)) }
    {
        let hash = self.kept.settings().hash;
        let is_signed = matches!(read_label(self.label(), hash), Label::Signature);
        self.kept.state().is_label_due(is_signed)
    }

    /// Begins a writer's close. If the writer is the last and a label is due, a collection begins;
    /// otherwise the file is dropped.
    pub fn close_take(
        &mut self,
        pass: &mut Pass<Event>,
        who: Who,
        file: u64,
    ) -> Result<CloseTaken, OutOfMemory>
        requires name { pass.old.name ≡ self.old.journal }
        requires number { pass.old.number ≡ who.task + 1 }
        requires may { MayBy self.old pass.old.number (Deed.CloseTake file) }
        ensures acts { IfOk result (λ c. (list : List AnyEntry)
            → Acts self.old self.new list list pass.old pass.new who (Deed.CloseTake file)
            (close_taken_told c)) }
        ensures algo { IfOk result (λ c. CloseBeginsBy self.old.inode.settings.hash c) }
        ensures err { OnErr result (Stays self.old self.new pass.old pass.new) }
    {
        if self.is_collecting() {
            self.block(pass);
            return Ok(CloseTaken::Blocked);
        }
        self.reserve()?;
        let algo = self.kept.settings().hash;
        if self.is_label_due_now() {
            let facts = Facts::closing(None, algo);
            self.step(pass, who, Deed::CloseTake { file }, Told::Begun, &facts);
            Ok(CloseTaken::Begun(algo))
        } else {
            let facts = Facts::closing(self.kept.how_at(file), algo);
            self.step(pass, who, Deed::CloseTake { file }, Told::Dropped, &facts);
            Ok(CloseTaken::Dropped)
        }
    }

    /// Ends the collection of a close, with its digests by the close's algorithm and by SHA-1. The
    /// label is written if the writer is still the only one, and the file is dropped. Returns
    /// whether the label was written.
    pub fn close_finish(
        &mut self,
        pass: &mut Pass<Event>,
        who: Who,
        file: u64,
        sums: (Digest, Digest),
    ) -> Result<bool, OutOfMemory>
        requires name { pass.old.name ≡ self.old.journal }
        requires number { pass.old.number ≡ who.task + 1 }
        requires may { MayBy self.old pass.old.number (Deed.CloseFinish file) }
        requires sums { HasSums self.old.inode (newest_first self.old.list) sums }
        ensures acts { IfOk result (λ labelled. (list : List AnyEntry)
            → Acts self.old self.new list list pass.old pass.new who (Deed.CloseFinish file) (Some
            (finished_told labelled))) }
        ensures err { OnErr result (Stays self.old self.new pass.old pass.new) }
    {
        self.reserve()?;
        let facts = Facts::dropping(self.kept.how_at(file));
        if self.kept.state().counts.writers == 1 {
            let deed = Deed::CloseFinish { file };
            let told = Told::LabelledDropped;
            self.step_with(pass, who, deed, told, &facts, Some(&sums.0))?;
            Ok(true)
        } else {
            self.step(pass, who, Deed::CloseFinish { file }, Told::Dropped, &facts);
            Ok(false)
        }
    }
}
