// Checks of accesses against the rules.
ghost use Rattle.std.specs.Prelude.{◌≡◌, ◌+◌, Some, IfOk, OnErr, length};
ghost use Rattle.inode_events.specs.Asked.{violation_in};
ghost use Rattle.inode_events.specs.Checks.{no_action};
ghost use Rattle.inode_events.specs.Files.{readers, writers};
ghost use Rattle.inode_events.specs.Legal.{May};
ghost use Rattle.inode_events.specs.Listing.{violated};
ghost use Rattle.inode_state.specs.laws_of_journals.Own.{IsBy};
ghost use Rattle.inode_events.specs.NewestFirst.{newest_first};
ghost use Rattle.inode_events.specs.Marks.{must_measure};
ghost use Rattle.inode_events.specs.Says.{check_told, place_of};
ghost use Rattle.inode_events.specs.State.{metadata};
ghost use Rattle.rule_match.specs.Decision.{access_of, decide_of};
ghost use Rattle.inode_cell.specs.Acts.{Acts, MayBy, Stays};
ghost use Rattle.inode_answers.specs.Answers.{found_told};

use crate::cell::InodeCell;
use crate::listing::list_asked;
use grow_list::Pass;
use ima_templates::{Entry, violation};
use inode_answers::{Checked, Found, found, found_at, found_told, place_of};
use inode_events::{Deed, Event};
use inode_meta::{Cred, Who};
use inode_state::{Facts, Kind, counts_as};
use measure_book::Book;
use rule_match::Index;
use rule_match::policy::{Access, Action, Func, Super};
use std::alloc::AllocError as OutOfMemory;

impl InodeCell {
    // The violation that a check finds, with 0 for its place in the measurement list.
    fn found(&self, writing: bool, action: &Action) -> Found
        ensures { found_told result ≡ check_told writing action.now.measure (readers (newest_first
            self.now.list)) (writers (newest_first self.now.list)) (must_measure (newest_first
            self.now.list)) 0 }
    {
        let state = self.kept.state();
        found(
            writing,
            action.measure,
            state.counts.readers,
            state.counts.writers,
            state.marks.must_measure,
        )
    }

    // The entry that the check adds to the measurement list, if it found a violation.
    fn violation(&self, found: Found) -> Result<Option<Entry>, OutOfMemory>
        ensures { IfOk result (λ e. e ≡ violation_in self.now.inode (found_told found)) }
    {
        match found {
            Found::Quiet => Ok(None),
            _ => Ok(Some(self.violated()?)),
        }
    }

    // The measurement list entry for a violation on this inode.
    fn violated(&self) -> Result<Entry, OutOfMemory>
        ensures { IfOk result (λ e. e ≡ violated self.now.inode) }
    {
        let settings = self.kept.settings();
        let template = settings.template;
        let hash = settings.hash;
        violation(self.alloc, template, hash, self.kept.path())
    }

    /// Asks the rules about an access to a file: in each family of actions the first match decides.
    /// A violation is added to the measurement list if a writer meets readers of a measured file,
    /// or a measured reader meets writers.
    pub fn check(
        &mut self,
        pass: &mut Pass<Event>,
        who: Who,
        file: u64,
        rules: &Index,
        cred: &Cred,
        place: &Super,
        func: Func,
        mask: u8,
        book: &mut Book,
    ) -> Result<Checked, OutOfMemory>
        requires name { pass.old.name ≡ self.old.journal }
        requires number { pass.old.number ≡ who.task + 1 }
        requires book_name { self.old.book ≡ book.old.name }
        requires may { May self.old.inode (newest_first self.old.list)
            (Deed.Check file func no_action 0) }
        requires by { IsBy pass.old.number (Deed.Check file func no_action 0)
            (newest_first self.old.list) }
        ensures action { IfOk result (λ c. c.action ≡ decide_of rules.now (access_of cred.now
            place.now (metadata (newest_first self.old.list)) func mask)) }
        ensures acts { IfOk result (λ c. Acts self.old self.new book.old.list book.new.list
            pass.old pass.new who (Deed.Check file func c.action (length rules.now)) (Some
            (found_told c.found))) }
        ensures book { (book.new.name ≡ book.old.name) × (book.new.callers ≡ book.old.callers) }
        ensures err { OnErr result (Stays self.old self.new pass.old pass.new) }
        ensures err_book { OnErr result (book.new.list ≡ book.old.list) }
    {
        let meta = self.meta();
        let access = Access {
            func,
            mask,
            cred,
            owner: meta.uid,
            group: meta.gid,
            place,
        };
        let action = rules.decide(&access);
        let count = rules.rules().len() as u64;
        let found = self.checked(pass, who, file, func, &action, count, book)?;
        Ok(Checked { action, found })
    }

    // The check with its action. `rules` is the number of rules that decided it.
    fn checked(
        &mut self,
        pass: &mut Pass<Event>,
        who: Who,
        file: u64,
        func: Func,
        action: &Action,
        rules: u64,
        book: &mut Book,
    ) -> Result<Found, OutOfMemory>
        requires name { pass.old.name ≡ self.old.journal }
        requires number { pass.old.number ≡ who.task + 1 }
        requires book_name { self.old.book ≡ book.old.name }
        requires may { MayBy self.old pass.old.number (Deed.Check file func action.now rules) }
        ensures acts { IfOk result (λ f. Acts self.old self.new book.old.list book.new.list
            pass.old pass.new who (Deed.Check file func action.now rules) (Some (found_told f))) }
        ensures book { (book.new.name ≡ book.old.name) × (book.new.callers ≡ book.old.callers) }
        ensures err { OnErr result (Stays self.old self.new pass.old pass.new) }
        ensures err_book { OnErr result (book.new.list ≡ book.old.list) }
    {
        let writing = counts_as(Kind::Writer, self.kept.how_at(file));
        let found = self.found(writing, action);
        let entry = self.violation(found)?;
        self.reserve_with(book)?;
        let placed = list_asked(book, &mut self.book, entry);
        let found = found_at(found, place_of(placed));
        let deed = Deed::Check {
            file,
            func,
            action: *action,
            rules,
        };
        let told = found_told(found);
        self.kept
            .enter(pass, Event { who, deed, told }, &Facts::checking(writing));
        Ok(found)
    }
}
