//! The growing list and its passes.
ghost use Rattle.std.specs.Prelude.{◌≡◌, ◌≢◌, ◌↔◌, ℕ, ◌+◌, ◌<◌, ◌≤◌, [], ◌∷◌, ◌++◌, length, All, IfOk, OnOk, IsNone, count_by, slice_get, option_copied};
ghost use mathlib.Core.List.{IsPrefix};
ghost use Rattle.grow_list.specs.Entries.{has_place};
ghost use Rattle.grow_list.specs.Meetings.{IsListSeat, IsPassSeat, IsMoved};
ghost use Rattle.grow_list.specs.Views.{listed};
ghost use Rattle.grow_list.specs.Shown.{IsSameList, HasItsOwn, HasEach, Accounts, fresh, IsPassAt};

use crate::meeting::{Board, Place, add_through_pass, end, end_pass, pass_sees_list, take_number};
use crate::views::{Growing, SeatView};
use atomic_table::Table;
use std::alloc::{AllocError as OutOfMemory, Global};
use std::marker::Model;

/// A list that only grows. Contracts see its name, its number of callers, its entries, for each
/// entry the number of the pass that added it, and its room: the number of further entries it has
/// memory for.
pub struct Grow<E> {
    entries: Vec<E>,
    callers: u32,
    table: Table<(), SeatView<E>, u32, Growing, Global>,
    seat: Place<E>,
}

// Written out, so that the drop is proved here once, and not again in each crate above.
impl<E: Drop> Drop for Grow<E> {
    fn drop(self) {
        let Grow {
            entries: _,
            callers: _,
            table: _,
            seat: _,
        } = self;
    }
}

impl<E> Model for Grow<E> {
    ghost use Rattle.grow_list.specs.Shown.{Grown};

    ghost Value = { Grown E };

    ghost use Rattle.grow_list.specs.Whole.{grown_of, IsWhole};

    ghost view = { grown_of };

    ghost invariant = { IsWhole };
}

/// One caller's knowledge of a list. Contracts see the name of the list, the pass's number, the
/// list as it last saw it, and its own entries, each with its index. It may stay with its caller
/// while the list is under a lock.
pub struct Pass<E> {
    seat: Place<E>,
    number: u32,
}

impl<E> Model for Pass<E> {
    ghost use Rattle.grow_list.specs.Shown.{Passed};

    ghost Value = { Passed E };

    ghost use Rattle.grow_list.specs.Whole.{passed_of, IsSeated};

    ghost view = { passed_of };

    ghost invariant = { IsSeated };
}

impl<E> Drop for Pass<E> {
    fn drop(self) {
        let Self { seat: _, number: _ } = self;
    }
}

impl<E> Pass<E> {
    /// The number of the pass, counted from 0.
    pub fn number(&self) -> u32
        ensures { result ≡ self.now.number }
    {
        self.number
    }

    fn into_place(self) -> Place<E>
        ensures seat { IsPassSeat result × (result.me.1 ≡ []) }
        ensures pass { IsPassAt self result }
    {
        let Self {
            seat: place,
            number: _,
        } = self;
        place
    }
}

// Each pass meets the list a last time, and then its seat is joined to the list's.
fn take_back<E>(board: &Board<E>, list: &mut Place<E>, passes: Vec<Pass<E>>)
    requires seat { list.old.table_id ≡ board.now.table_id }
    requires words { board.now.table_id.words ≡ 2 }
    requires list { IsListSeat list.old }
    requires of_list { All (λ p. p.name ≡ list.old.table_id) passes.items }
    ensures list { IsMoved list.old list.new list.old.me.0 }
    ensures accounts { All (Accounts (listed list.old.me.0)) passes.items }
{
    for pass in passes {
        end_pass(board, list, pass.into_place());
    }
}

impl<E> Grow<E> {
    /// Creates an empty list, and a pass for each of its callers, in the order of their numbers.
    pub fn start(alloc: Global, callers: u32) -> Result<(Grow<E>, Vec<Pass<E>>), OutOfMemory>
        requires { 1 ≤ callers }
        ensures list { IfOk result (λ r. (r.0.list ≡ []) × (r.0.numbers ≡ [])
            × (r.0.callers ≡ callers)) }
        ensures count { IfOk result (λ r. length r.1.items ≡ callers) }
        ensures passes { IfOk result (λ r. (k : ℕ) → k < callers → slice_get r.1.items k
            ≡ Some (fresh r.0.name k)) }
        ensures each { IfOk result (λ r. HasEach r.0 r.1.items) }
    {
        let (table, mut seat) = Table::of_words(alloc, &[0, 0], &callers)?;
        let mut passes = Vec::with_capacity(alloc, callers as usize)?;
        for number in 0..callers {
            let place = take_number(&table.shared, &mut seat, u64::from(number))?;
            passes.push_reserved(Pass {
                seat: place,
                number,
            });
        }
        let grow = Grow {
            entries: Vec::new(alloc),
            callers,
            table,
            seat,
        };
        Ok((grow, passes))
    }

    /// Makes room for `more` entries. The list doesn't change, even if memory runs out.
    pub fn reserve(&mut self, more: usize) -> Result<(), OutOfMemory>
        ensures room { OnOk result (more ≤ self.new.spare) }
        ensures kept { self.old.spare ≤ self.new.spare }
        ensures list { IsSameList self.old self.new }
    {
        self.entries.reserve(more)
    }

    /// Adds an entry by a pass of this list, in room that was reserved, and returns its index,
    /// counted from 0. After that the pass has seen the whole list.
    pub fn push(&mut self, pass: &mut Pass<E>, entry: E) -> u64
        requires room { 1 ≤ self.old.spare }
        requires name { pass.old.name ≡ self.old.name }

        ensures place { result ≡ length self.old.list }
        ensures list { self.new.list ≡ self.old.list ++ entry ∷ [] }
        ensures numbers { self.new.numbers ≡ self.old.numbers ++ pass.old.number ∷ [] }
        ensures kept { (self.new.name ≡ self.old.name) × (self.new.callers ≡ self.old.callers) }
        ensures spare { self.old.spare ≤ self.new.spare + 1 }

        ensures before { IsPrefix pass.old.seen self.old.list }
        ensures seen { pass.new.seen ≡ self.new.list }
        ensures mine { pass.new.mine ≡ pass.old.mine ++ (result, entry) ∷ [] }
        ensures own { HasItsOwn self.new pass.new }
        ensures placed { All (λ x. x.0 < length self.new.list) pass.new.mine }
        ensures number { pass.new.number < self.new.callers }
        ensures even { length self.new.numbers ≡ length self.new.list }
        ensures same_pass { (pass.new.name ≡ pass.old.name) × (pass.new.number ≡ pass.old.number) }
    {
        let place = self.entries.len() as u64;
        let table = &self.table;
        add_through_pass(
            &table.shared,
            &mut self.seat,
            &mut pass.seat,
            &entry,
            place + 1,
        );
        self.entries.push_reserved(entry);
        place
    }

    /// Shows the list to a pass of this list.
    pub fn look(&mut self, pass: &mut Pass<E>)
        requires { pass.old.name ≡ self.old.name }

        ensures list { IsSameList self.old self.new }
        ensures spare { self.old.spare ≤ self.new.spare }

        ensures before { IsPrefix pass.old.seen self.old.list }
        ensures seen { pass.new.seen ≡ self.new.list }
        ensures mine { pass.new.mine ≡ pass.old.mine }
        ensures own { HasItsOwn self.new pass.new }
        ensures placed { All (λ x. x.0 < length self.new.list) pass.new.mine }
        ensures number { pass.new.number < self.new.callers }
        ensures even { length self.new.numbers ≡ length self.new.list }
        ensures same_pass { (pass.new.name ≡ pass.old.name) × (pass.new.number ≡ pass.old.number) }
    {
        let table = &self.table;
        pass_sees_list(&table.shared, &mut self.seat, &mut pass.seat);
    }

    /// The number of entries.
    pub fn len(&self) -> u64
        ensures { result ≡ length self.now.list }
    {
        self.entries.len() as u64
    }

    /// The entry at an index counted from 0; `None` from `len` on.
    pub fn at(&self, place: u64) -> Option<&E>
        ensures entry { option_copied result ≡ slice_get self.now.list place }
        ensures none { IsNone result ↔ (length self.now.list ≤ place) }
    {
        self.entries.get(place as usize)
    }

    /// Hands over the entries and takes back the passes. The list begins with what each pass saw,
    /// the list's entries with a pass's number are that pass's own, and each index of the list
    /// belongs to one pass.
    pub fn close(self, passes: Vec<Pass<E>>) -> Vec<E>
        requires { HasEach self passes.items }
        ensures list { result.items ≡ self.list }
        ensures seen { All (λ p. IsPrefix p.seen self.list) passes.items }
        ensures own { All (λ p. HasItsOwn self p) passes.items }
        ensures places { (k : ℕ) → k < length self.list
            → count_by (λ p. has_place k p.mine) passes.items ≡ 1 }
    {
        let Grow {
            entries,
            callers: _,
            table,
            mut seat,
        } = self;
        end(&table.shared, &mut seat);
        take_back(&table.shared, &mut seat, passes);
        entries
    }

    /// Closes a list whose owner kept one pass for itself. That pass is an argument of its own, so
    /// that no memory is needed to join it to the others. The contract for each pass is that of
    /// `close`.
    pub fn close_with(self, own: Pass<E>, passes: Vec<Pass<E>>) -> Vec<E>
        requires { HasEach self (own ∷ passes.items) }
        ensures list { result.items ≡ self.list }
        ensures seen { All (λ p. IsPrefix p.seen self.list) (own ∷ passes.items) }
        ensures own { All (λ p. HasItsOwn self p) (own ∷ passes.items) }
        ensures places { (k : ℕ) → k < length self.list
            → count_by (λ p. has_place k p.mine) (own ∷ passes.items) ≡ 1 }
    {
        let Grow {
            entries,
            callers: _,
            table,
            mut seat,
        } = self;
        end(&table.shared, &mut seat);
        end_pass(&table.shared, &mut seat, own.into_place());
        take_back(&table.shared, &mut seat, passes);
        entries
    }
}
