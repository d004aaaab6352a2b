// Grants, by takes and finishes.
ghost use Rattle.std.specs.Prelude.{◌≡◌, ◌≤◌, ℕ, ◌+◌, length, Some, IfOk, OnErr};
ghost use Rattle.inode_events.specs.Asked.{measured_if};
ghost use Rattle.inode_events.specs.Callers.{caller_in};
ghost use Rattle.inode_events.specs.Stage.{stage};
ghost use Rattle.inode_events.specs.declared.told.Told.{Told as AnyTold};
ghost use Rattle.inode_meta.specs.declared.step.Who.{Who as AnyWho};
ghost use Rattle.inode_state.specs.Facts.{AreFacts};
ghost use Rattle.inode_cell.specs.Granting.{Collects};
ghost use Rattle.inode_cell.specs.Acts.{Acts, MayBy, Stays};
ghost use Rattle.inode_answers.specs.Answers.{BeginsBy, taken_told};
ghost use Rattle.inode_cell.specs.Granting.{IsEntering, IsGranting, asked_stage, collected_stage, digests_in, sums_in_force};
ghost use Rattle.inode_cell.specs.Sums.{HasSums};
ghost use Rattle.inode_events.specs.Checks.{last_check, slot_of};
ghost use Rattle.inode_events.specs.Integrity.{chosen_algo, collecting, in_force, label};
ghost use Rattle.inode_events.specs.Listing.{signature_in};
ghost use Rattle.inode_events.specs.NewestFirst.{newest_first};
ghost use Rattle.inode_state.specs.Collecting.{IsAsked};
ghost use Rattle.xattr_store.specs.Attrs.{most_value};

use crate::cell::InodeCell;
use crate::listing::list_asked;
use grow_list::Pass;
use hash_algos::{Algo, Digest};
use ima_templates::{Entry, build};
use inode_answers::{Taken, mend_on, placed_if_measured, signature_in};
use inode_events::{Deed, Event, Grant, Told};
use inode_meta::{Slot, Who};
use inode_state::{Asked, Facts, Kind, Sums, asked_in, counts_as};
use measure_book::Book;
use rule_match::policy::Action;
use std::alloc::AllocError as OutOfMemory;
use xattr_store::IMA_NAME;

impl InodeCell {
    // The label, if it is a signature; otherwise no bytes.
    fn signature(&self) -> &[u8]
        ensures is { result.now ≡ signature_in (label self.now.inode (newest_first self.now.list)) }
        ensures fits { length result.now ≤ most_value }
    {
        self.attrs.value_fits(IMA_NAME);
        signature_in(self.label())
    }

    // The measurement list entry for these digests, if the action measures.
    fn measured(&self, action: &Action, sums: &Sums) -> Result<Option<Entry>, OutOfMemory>
        requires { sums.now.sha1.algo ≡ Algo.Sha1 }
        ensures { IfOk result (λ e. (file : ℕ)
            → action.now ≡ (last_check file (newest_first self.now.list)).action
            → e ≡ measured_if (last_check file (newest_first self.now.list)).action.measure
            self.now.inode file (Some (digests_in sums.now)) (newest_first self.now.list)) }
    {
        if !action.measure {
            return Ok(None);
        }
        let entry = build(
            self.alloc,
            action.pcr,
            action.template.unwrap_or(self.kept.settings().template),
            &sums.digest,
            &sums.sha1,
            self.kept.path(),
            self.signature(),
        )?;
        Ok(Some(entry))
    }

    // The digests in force, by the chosen algorithm and by SHA-1.
    fn in_force(&self) -> Option<Sums>
        ensures { result ≡ sums_in_force (in_force self.now.inode (newest_first self.now.list)) }
    {
        match &self.kept.state().in_force {
            None => None,
            Some(digests) => Some(digests.sums.copy()),
        }
    }

    // Grants the file by these digests: appraises it, mends its attributes in mode fix, and
    // measures it, each only if asked for.
    fn grant(
        &mut self,
        pass: &mut Pass<Event>,
        who: Who,
        deed: Deed,
        file: u64,
        asked: &Asked,
        sums: &Sums,
        facts: &Facts,
        book: &mut Book,
    ) -> Result<Grant, OutOfMemory>
        requires name { pass.old.name ≡ self.old.journal }
        requires number { pass.old.number ≡ caller_in who.task deed }
        requires book_name { self.old.book ≡ book.old.name }
        requires may { MayBy self.old pass.old.number deed }
        requires grants { IsGranting self.old.inode (newest_first self.old.list) who deed
            file asked.now sums.now facts.now }
        ensures acts { IfOk result (λ g. Acts self.old self.new book.old.list book.new.list
            pass.old pass.new who deed (Some (Told.Grant g))) }
        ensures book { (book.new.name ≡ book.old.name) × (book.new.callers ≡ book.old.callers) }
        ensures err { OnErr result (Stays self.old self.new pass.old pass.new) }
        ensures err_book { OnErr result (book.new.list ≡ book.old.list) }
    {
        let grant = self.answer(asked, &sums.digest);
        let entry = self.measured(&asked.action, sums)?;
        self.reserve_with(book)?;
        self.enter_grant(
            pass,
            who,
            deed,
            &asked.action,
            &sums.digest,
            grant,
            entry,
            facts,
            book,
        )
    }

    // Enters a grant in room that was reserved: mends the attributes and lists the entry, each only
    // if there is one.
    fn enter_grant(
        &mut self,
        pass: &mut Pass<Event>,
        who: Who,
        deed: Deed,
        action: &Action,
        digest: &Digest,
        grant: Grant,
        entry: Option<Entry>,
        facts: &Facts,
        book: &mut Book,
    ) -> Result<Grant, OutOfMemory>
        requires name { pass.old.name ≡ self.old.journal }
        requires number { pass.old.number ≡ caller_in who.task deed }
        requires book_name { self.old.book ≡ book.old.name }
        requires room { 1 ≤ self.old.spare }
        requires book_room { 1 ≤ book.old.spare }
        requires may { MayBy self.old pass.old.number deed }
        requires enters { IsEntering self.old.inode (newest_first self.old.list) who deed
            action.now digest.now grant entry facts.now }
        ensures acts { IfOk result (λ g. Acts self.old self.new book.old.list book.new.list
            pass.old pass.new who deed (Some (Told.Grant g))) }
        ensures book { (book.new.name ≡ book.old.name) × (book.new.callers ≡ book.old.callers) }
        ensures err { OnErr result (Stays self.old self.new pass.old pass.new) }
        ensures err_book { OnErr result (book.new.list ≡ book.old.list) }
    {
        let meta = self.meta();
        let evm = &self.kept.settings().evm;
        mend_on(evm, &mut self.attrs, &meta, grant.labelled, digest)?;
        let placed = list_asked(book, &mut self.book, entry);
        let grant = Grant {
            placed: placed_if_measured(action, placed),
            ..grant
        };
        let told = Told::Grant(grant);
        self.kept.enter(pass, Event { who, deed, told }, facts);
        Ok(grant)
    }

    /// Asks for the digest in force. `slot` and `action` are those of the file's last check. If no
    /// digest is in force, a collection begins.
    pub fn take(
        &mut self,
        pass: &mut Pass<Event>,
        who: Who,
        file: u64,
        slot: Slot,
        action: &Action,
        book: &mut Book,
    ) -> Result<Taken, OutOfMemory>
        requires name { pass.old.name ≡ self.old.journal }
        requires number { pass.old.number ≡ who.task + 1 }
        requires book_name { self.old.book ≡ book.old.name }
        requires may { MayBy self.old pass.old.number (Deed.Take file) }
        requires slot { slot ≡ slot_of (last_check file (newest_first self.old.list)).func }
        requires action { action.now ≡ (last_check file (newest_first self.old.list)).action }
        ensures acts { IfOk result (λ t. Acts self.old self.new book.old.list book.new.list
            pass.old pass.new who (Deed.Take file) (taken_told t)) }
        ensures algo { IfOk result
            (λ t. BeginsBy (chosen_algo self.old.inode (newest_first self.old.list)) t) }
        ensures book { (book.new.name ≡ book.old.name) × (book.new.callers ≡ book.old.callers) }
        ensures err { OnErr result (Stays self.old self.new pass.old pass.new) }
        ensures err_book { OnErr result (book.new.list ≡ book.old.list) }
    {
        if self.is_collecting() {
            self.block(pass);
            return Ok(Taken::Blocked);
        }
        let algo = self.chosen_algo();
        let facts = self.taking(file, slot, action, algo);
        match self.in_force() {
            None => {
                self.reserve()?;
                self.step(pass, who, Deed::Take { file }, Told::Begun, &facts);
                Ok(Taken::Begun(algo))
            }
            Some(sums) => {
                let asked = Asked {
                    slot,
                    action: *action,
                };
                let deed = Deed::Take { file };
                let grant = self.grant(pass, who, deed, file, &asked, &sums, &facts, book)?;
                Ok(Taken::Answer(grant))
            }
        }
    }

    // The facts that come with the event of a take.
    fn taking(&self, file: u64, slot: Slot, action: &Action, algo: Algo) -> Facts
        requires may { stage self.now.inode file (newest_first self.now.list) ≡ asked_stage }
        requires slot { slot ≡ slot_of (last_check file (newest_first self.now.list)).func }
        requires action { action.now ≡ (last_check file (newest_first self.now.list)).action }
        requires algo { algo ≡ chosen_algo self.now.inode (newest_first self.now.list) }
        ensures { (who : AnyWho) (t : AnyTold)
            → AreFacts self.now.inode (newest_first self.now.list) (record {
              who = who;
              deed = Deed.Take
                  file;
              told = t;
            }) result }
    {
        let writing = counts_as(Kind::Writer, self.kept.how_at(file));
        let asked = Asked {
            slot,
            action: *action,
        };
        Facts::granting(writing, algo, asked, None)
    }

    /// Ends the collection of a take, with its digests by the chosen algorithm and by SHA-1. They
    /// become the digests in force, and the file is granted.
    pub fn finish(
        &mut self,
        pass: &mut Pass<Event>,
        who: Who,
        file: u64,
        sums: (Digest, Digest),
        book: &mut Book,
    ) -> Result<Grant, OutOfMemory>
        requires name { pass.old.name ≡ self.old.journal }
        requires number { pass.old.number ≡ who.task + 1 }
        requires book_name { self.old.book ≡ book.old.name }
        requires may { MayBy self.old pass.old.number (Deed.Finish file) }
        requires sums { HasSums self.old.inode (newest_first self.old.list) sums }
        ensures acts { IfOk result (λ g. Acts self.old self.new book.old.list book.new.list
            pass.old pass.new who (Deed.Finish file) (Some (Told.Grant g))) }
        ensures book { (book.new.name ≡ book.old.name) × (book.new.callers ≡ book.old.callers) }
        ensures err { OnErr result (Stays self.old self.new pass.old pass.new) }
        ensures err_book { OnErr result (book.new.list ≡ book.old.list) }
    {
        let asked = self.asked_for(file);
        let writing = counts_as(Kind::Writer, self.kept.how_at(file));
        let sums = Sums {
            digest: sums.0,
            sha1: sums.1,
        };
        let facts = Facts::granting(writing, Algo::Sha1, asked.copy(), Some(sums.copy()));
        let deed = Deed::Finish { file };
        self.grant(pass, who, deed, file, &asked, &sums, &facts, book)
    }

    // What the file's last check asked for. The file's collection has its last piece.
    fn asked_for(&self, file: u64) -> Asked
        requires stage { stage self.now.inode file (newest_first self.now.list) ≡ collected_stage }
        ensures asked { IsAsked (last_check file (newest_first self.now.list)) result }
        ensures collects { Collects file (collecting self.now.inode (newest_first self.now.list)) }
    {
        match asked_in(&self.kept.state().collecting) {
            Some(asked) => asked,
            None => unreachable!(),
        }
    }
}
