// A list that was carried from an earlier boot, and the book that goes on from it.

ghost use Rattle.std.specs.Prelude.{◌≡◌, ◌≤◌, [], ◌∷◌, length, is_none, IfOk, OnOk};
ghost use Rattle.grow_list.specs.Others.{HasOthers};
ghost use Rattle.grow_list.specs.Shown.{HasItsOwn, fresh};
ghost use Rattle.ima_templates.specs.Same.{place_of_same};
ghost use Rattle.carry_form.specs.Books.{Extends, carried_numbers};
ghost use Rattle.carry_form.specs.Reading.{Loads, all_new, if_distinct, if_new};

use crate::causes::{CarryCause, CarryErr};
use ima_templates::{Entry, Placed};
use measure_book::{Book, Pass};
use std::alloc::{AllocError as OutOfMemory, Global};
use std::marker::Model;

/// A list that [`crate::load`] has read. Contracts see the list, which isn't empty, has only valid
/// entries and no two that are the same.
#[derive(Drop)]
pub struct Carried {
    book: Book,
    pass: Pass<Entry>,
}

impl Model for Carried {
    ghost use Rattle.std.specs.Prelude.{List};
    ghost use Rattle.ima_templates.specs.declared.entry.Entry.{Entry};

    ghost Value = { List Entry };

    ghost use Rattle.carry_form.specs.Resumed.{FieldsAgree, list_of};

    ghost view = { list_of };

    ghost invariant = { FieldsAgree };
}

/// The book that goes on from the list: its own pass, with the number 0, has added the first entry,
/// and the pass with the number 1, which is returned, has added the others and seen them all.
pub fn resume(list: Carried) -> Result<(Book, Pass<Entry>), OutOfMemory>
    ensures list { IfOk result (λ r. r.0.list ≡ list) }
    ensures callers { IfOk result (λ r. r.0.callers ≡ 2) }
    ensures numbers { IfOk result (λ r. r.0.numbers ≡ carried_numbers list) }
    ensures name { IfOk result (λ r. r.1.name ≡ r.0.name) }
    ensures number { IfOk result (λ r. r.1.number ≡ 1) }
    ensures seen { IfOk result (λ r. r.1.seen ≡ list) }
    ensures own { IfOk result (λ r. HasItsOwn r.0 r.1) }
    ensures others { IfOk result (λ r. HasOthers r.0 (r.1 ∷ [])) }
{
    let Carried { book, pass } = list;
    Ok((book, pass))
}

impl Carried {
    /// The list as it is carried, if no two of its entries are the same.
    pub(crate) fn of_entries(alloc: Global, entries: Vec<Entry>) -> Result<Carried, CarryErr>
        requires { 1 ≤ length entries.items }
        ensures { Loads result (if_distinct entries.items) }
    {
        let mut others = entries;
        let first = others.remove(0);
        let (mut book, mut pass) = start(alloc, first)?;
        add_all(&mut book, &mut pass, others)?;
        book.look(&mut pass);
        Ok(Carried { book, pass })
    }
}

/// A book of two callers that begins with this entry, and the pass that isn't its own.
pub fn start(alloc: Global, first: Entry) -> Result<(Book, Pass<Entry>), OutOfMemory>
    ensures list { IfOk result (λ r. r.0.list ≡ first ∷ []) }
    ensures numbers { IfOk result (λ r. r.0.numbers ≡ 0 ∷ []) }
    ensures callers { IfOk result (λ r. r.0.callers ≡ 2) }
    ensures pass { IfOk result (λ r. r.1 ≡ fresh r.0.name 1) }
{
    let (book, mut passes) = Book::start(alloc, 2, first)?;
    let pass = passes.remove(0);
    Ok((book, pass))
}

// Adds the entries by the pass, unless one of them is the same as an earlier one.
fn add_all(book: &mut Book, pass: &mut Pass<Entry>, entries: Vec<Entry>) -> Result<(), CarryErr>
    requires name { pass.old.name ≡ book.old.name }
    requires number { pass.old.number ≡ 1 }
    ensures new { Loads result (if_new (all_new book.old.list entries.items)) }
    ensures book { OnOk result (Extends book.old book.new entries.items) }
    ensures name { OnOk result (pass.new.name ≡ book.new.name) }
    ensures number { OnOk result (pass.new.number ≡ 1) }
{
    for e in entries {
        add_new(book, pass, e)?;
    }
    Ok(())
}

// Adds the entry by the pass, unless it is the same as an earlier one.
fn add_new(book: &mut Book, pass: &mut Pass<Entry>, e: Entry) -> Result<(), CarryErr>
    requires name { pass.old.name ≡ book.old.name }
    requires number { pass.old.number ≡ 1 }
    ensures new { Loads result (if_new (is_none (place_of_same book.old.list e))) }
    ensures book { OnOk result (Extends book.old book.new (e ∷ [])) }
    ensures name { OnOk result (pass.new.name ≡ book.new.name) }
    ensures number { OnOk result (pass.new.number ≡ 1) }
{
    book.reserve()?;
    match book.add(pass, e) {
        Placed::Added(_) => Ok(()),
        Placed::Already(_) => Err(CarryErr::Refused(CarryCause::Twice)),
    }
}
