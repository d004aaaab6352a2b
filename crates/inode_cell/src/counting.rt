// Counting of files that are opened or executed.
ghost use Rattle.std.specs.Prelude.{◌≡◌, List, length, Some, IfOk, OnErr, ◌+◌};
ghost use Rattle.ima_templates.specs.declared.entry.Entry.{Entry as AnyEntry};
ghost use Rattle.inode_cell.specs.Acts.{Acts, Stays};
ghost use Rattle.inode_answers.specs.Answers.{IsPlaced, counted_told};

use crate::cell::InodeCell;
use grow_list::Pass;
use inode_answers::{Counted, counted, counted_told};
use inode_events::{Deed, Event, How};
use inode_meta::Who;
use inode_state::Facts;
use std::alloc::AllocError as OutOfMemory;

impl InodeCell {
    /// Counts a file for an open or an execution. The file is then named by the place of this
    /// event.
    pub fn count(
        &mut self,
        pass: &mut Pass<Event>,
        who: Who,
        how: How,
    ) -> Result<Counted, OutOfMemory>
        requires name { pass.old.name ≡ self.old.journal }
        requires number { pass.old.number ≡ who.task + 1 }
        ensures acts { IfOk result (λ c. (list : List AnyEntry)
            → Acts self.old self.new list list pass.old pass.new who (Deed.Count how) (Some
            (counted_told c))) }
        ensures place { IfOk result (λ c. IsPlaced (length self.old.list) c) }
        ensures err { OnErr result (Stays self.old self.new pass.old pass.new) }
    {
        self.reserve()?;
        let state = self.kept.state();
        let answer = counted(
            how,
            state.marks.present,
            state.counts.writers,
            state.counts.execs,
            self.kept.len(),
        );
        let facts = Facts::nothing();
        self.step(pass, who, Deed::Count { how }, counted_told(answer), &facts);
        Ok(answer)
    }
}
