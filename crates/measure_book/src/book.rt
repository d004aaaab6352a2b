// The measurement list, its registers and the table that finds its entries.

ghost use Rattle.std.specs.Prelude.{◌≡◌, ℕ, ◌+◌, ◌<◌, ◌≤◌, [], ◌∷◌, ◌++◌, length, All, IfOk, OnOk, count_by, slice_get};
ghost use mathlib.Core.List.{IsPrefix};
ghost use Rattle.grow_list.specs.Entries.{has_place};
ghost use Rattle.grow_list.specs.Others.{HasOthers, beside_own};
ghost use Rattle.grow_list.specs.Shown.{IsSameList, HasItsOwn, fresh};
ghost use Rattle.ima_templates.specs.IsEntry.{IsEntry};
ghost use Rattle.measure_book.specs.Replay.{banks_of, replay};
ghost use Rattle.ima_templates.specs.Same.{IsDistinct, add, gained, place_of_same, placed};
ghost use Rattle.measure_book.specs.Book.{numbers_after};
ghost use Rattle.measure_book.specs.Key.{key_of, stands_at};

use crate::extending::extend;
use crate::places::Places;
use byteorder::{BigEndian, ByteOrder};
use grow_list::{Grow, Pass};
use ima_templates::{Entry, Placed};
use pcr_bank::{Bank, Banks};
use std::alloc::{AllocError as OutOfMemory, Global};
use std::marker::Model;

/// The kernel's measurement list with its registers. Contracts see it as a growing list: its name,
/// its number of callers, its entries, for each entry the number of the pass that added it, and its
/// room for further entries. Its registers always have the values that its entries give, each entry
/// keeps the invariant of [`Entry`], and no two entries are the same.
pub struct Book {
    list: Grow<Entry>,
    own: Pass<Entry>,
    banks: Banks,
    places: Places,
}

// Written out, so that the drop is proved here once, and not again in each crate above.
impl Drop for Book {
    fn drop(self) {
        let Book {
            list: _,
            own: _,
            banks: _,
            places: _,
        } = self;
    }
}

impl Model for Book {
    ghost use Rattle.grow_list.specs.Shown.{Grown};
    ghost use Rattle.ima_templates.specs.declared.entry.Entry.{Entry};

    ghost Value = { Grown Entry };

    ghost use Rattle.measure_book.specs.BookFields.{IsBook, book_of};

    ghost view = { book_of };

    ghost invariant = { IsBook };
}

impl Book {
    /// Creates a book whose first entry is `boot`, the boot aggregate. The book's own pass has the
    /// number 0 and has added that entry; the others are returned in the order of their numbers.
    pub fn start(
        alloc: Global,
        callers: u32,
        boot: Entry,
    ) -> Result<(Book, Vec<Pass<Entry>>), OutOfMemory>
        requires { 1 ≤ callers }
        ensures list { IfOk result (λ r. r.0.list ≡ boot ∷ []) }
        ensures numbers { IfOk result (λ r. r.0.numbers ≡ 0 ∷ []) }
        ensures callers { IfOk result (λ r. r.0.callers ≡ callers) }
        ensures count { IfOk result (λ r. length r.1.items + 1 ≡ callers) }
        ensures passes { IfOk result (λ r. (k : ℕ) → k < length r.1.items
            → slice_get r.1.items k ≡ Some (fresh r.0.name (k + 1))) }
        ensures others { IfOk result (λ r. HasOthers r.0 r.1.items) }
    {
        let (mut list, mut passes) = Grow::start(alloc, callers)?;
        let mut own = passes.remove(0);
        list.reserve(1)?;
        let mut places = Places::with_buckets(alloc, 2)?;
        let mut banks = Banks::new();
        places.push(key_of(&boot));
        extend(&mut banks, &boot);
        list.push(&mut own, boot);
        let book = Book {
            list,
            own,
            banks,
            places,
        };
        Ok((book, passes))
    }

    /// Makes room for the next entry. The book doesn't change, even if memory runs out.
    pub fn reserve(&mut self) -> Result<(), OutOfMemory>
        ensures room { OnOk result (1 ≤ self.new.spare) }
        ensures kept { self.old.spare ≤ self.new.spare }
        ensures list { IsSameList self.old self.new }
    {
        self.list.reserve(1)?;
        self.places.reserve()
    }

    /// Adds the entry by a pass of this book, in room that was reserved, or finds the first entry
    /// that is the same. After that the pass has seen the whole list.
    pub fn add(&mut self, pass: &mut Pass<Entry>, e: Entry) -> Placed
        requires room { 1 ≤ self.old.spare }
        requires name { pass.old.name ≡ self.old.name }

        ensures placed { result ≡ placed self.old.list e }
        ensures list { self.new.list ≡ add self.old.list e }
        ensures numbers { self.new.numbers ≡ numbers_after result pass.old.number self.old.numbers }
        ensures kept { (self.new.name ≡ self.old.name) × (self.new.callers ≡ self.old.callers) }
        ensures spare { self.old.spare ≤ self.new.spare + 1 }

        ensures before { IsPrefix pass.old.seen self.old.list }
        ensures seen { pass.new.seen ≡ self.new.list }
        ensures mine { pass.new.mine ≡ pass.old.mine ++ gained result e }
        ensures own { HasItsOwn self.new pass.new }
        ensures below { All (λ x. x.0 < length self.new.list) pass.new.mine }
        ensures number { pass.new.number < self.new.callers }
        ensures even { length self.new.numbers ≡ length self.new.list }
        ensures same_pass { (pass.new.name ≡ pass.old.name) × (pass.new.number ≡ pass.old.number) }
        ensures valid { IsEntry e }
    {
        match self.place_of_same(&e) {
            Some(place) => {
                self.list.look(pass);
                Placed::Already(place)
            }
            None => {
                self.places.push(key_of(&e));
                extend(&mut self.banks, &e);
                Placed::Added(self.list.push(pass, e))
            }
        }
    }

    /// The value of a register, which is the replay of the list.
    pub fn value(&self, bank: Bank, pcr: u8) -> &[u8]
        requires { pcr < 24 }
        ensures { result.now ≡ replay self.now.list bank pcr }
    {
        self.banks.value(bank, pcr)
    }

    /// Shows the list to a pass of this book.
    pub fn look(&mut self, pass: &mut Pass<Entry>)
        requires { pass.old.name ≡ self.old.name }

        ensures list { IsSameList self.old self.new }
        ensures spare { self.old.spare ≤ self.new.spare }

        ensures before { IsPrefix pass.old.seen self.old.list }
        ensures seen { pass.new.seen ≡ self.new.list }
        ensures mine { pass.new.mine ≡ pass.old.mine }
        ensures own { HasItsOwn self.new pass.new }
        ensures below { All (λ x. x.0 < length self.new.list) pass.new.mine }
        ensures number { pass.new.number < self.new.callers }
        ensures even { length self.new.numbers ≡ length self.new.list }
        ensures same_pass { (pass.new.name ≡ pass.old.name) × (pass.new.number ≡ pass.old.number) }
        ensures entries { All IsEntry self.new.list }
        ensures distinct { IsDistinct self.new.list }
    {
        self.list.look(pass);
    }

    /// Hands over the list and its registers, and takes back the passes that `start` returned. The
    /// list begins with what each pass saw, the list's entries with a pass's number are that pass's
    /// own, and each index of the list belongs to one pass: index 0, and no other, belongs to the
    /// book's own pass.
    pub fn close(self, passes: Vec<Pass<Entry>>) -> (Vec<Entry>, Banks)
        requires { HasOthers self passes.items }
        ensures list { result.0.items ≡ self.list }
        ensures banks { result.1 ≡ banks_of self.list }
        ensures seen { All (λ p. IsPrefix p.seen self.list) passes.items }
        ensures own { All (λ p. HasItsOwn self p) passes.items }
        ensures not_empty { 1 ≤ length self.list }
        ensures places { (k : ℕ) → k < length self.list
            → count_by (λ p. has_place k p.mine) passes.items ≡ beside_own k }
        ensures entries { All IsEntry self.list }
        ensures distinct { IsDistinct self.list }
    {
        let Book {
            list,
            own,
            banks,
            places: _,
        } = self;
        (list.close_with(own, passes), banks)
    }

    // The index of the first entry that is the same as `e`.
    fn place_of_same(&self, e: &Entry) -> Option<u64>
        ensures { result ≡ place_of_same self.now.list e.now }
    {
        let key = key_of(e)?;
        let mut candidate = self.places.newest(key);
        while let Some(place) = candidate {
            if self.stands_at(place, e) {
                return Some(place);
            }
            candidate = self.places.before(place);
        }
        None
    }

    // Whether the entry at this index is the same as `e`.
    fn stands_at(&self, place: u64, e: &Entry) -> bool
        ensures { result ≡ stands_at self.now.list e.now place }
    {
        self.list.at(place).is_some_and(|earlier| earlier.same(e))
    }
}

// The key by which the table finds the entry: the first eight bytes of its SHA-256 template digest.
// A violation has no key.
#[tactic(auto, unfolding(crate::specs::Key::key_of))]
fn key_of(e: &Entry) -> Option<u64>
    ensures { result ≡ key_of e.now }
{
    if e.violation {
        None
    } else {
        Some(BigEndian::read_u64(e.sum(Bank::Sha256).as_slice()))
    }
}
