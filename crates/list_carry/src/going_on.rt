// The list of a boot that goes on from an earlier one.

ghost use Rattle.std.specs.Prelude.{◌≡◌, ◌≤◌, length, IfOk, OnOk};
ghost use Rattle.std.specs.List.{fold};
ghost use Rattle.measure_book.specs.Replay.{banks_of};
ghost use Rattle.ima_templates.specs.Same.{add};
ghost use Rattle.carry_form.specs.Books.{GoesOn, carried_on};
ghost use Rattle.carry_form.specs.Form.{IsCarried};

use carry_form::{Carried, resume, start};
use ima_templates::Entry;
use measure_book::registers::Banks;
use measure_book::{Book, Pass};
use std::alloc::{AllocError as OutOfMemory, Global};

/// Adds the entries in order to the carried list, or to an empty one, and returns the list and its
/// registers, in which the carried entries and the new ones are replayed together. An entry that is
/// the same as an earlier one isn't added.
pub fn carry_on(
    alloc: Global,
    carried: Option<Carried>,
    entries: Vec<Entry>,
) -> Result<(Vec<Entry>, Banks), OutOfMemory>
    requires { 1 ≤ length entries.items }
    ensures list { IfOk result (λ r. r.0.items ≡ carried_on carried entries.items) }
    ensures banks { IfOk result (λ r. r.1 ≡ banks_of (carried_on carried entries.items)) }
    ensures carried { IfOk result (λ r. IsCarried r.0.items) }
{
    let mut others = entries;
    let (mut book, mut pass) = begin(alloc, carried, &mut others)?;
    add_each(&mut book, &mut pass, others)?;
    close(alloc, book, pass)
}

// The book that goes on from the list, with its pass. Without a list the book begins with the first
// entry, which is taken from those to add.
fn begin(
    alloc: Global,
    carried: Option<Carried>,
    entries: &mut Vec<Entry>,
) -> Result<(Book, Pass<Entry>), OutOfMemory>
    requires { 1 ≤ length entries.old.items }
    ensures going { IfOk result (λ r. GoesOn r.0 r.1) }
    ensures list { IfOk result (λ r. fold add r.0.list entries.new.items
        ≡ carried_on carried entries.old.items) }
{
    match carried {
        Some(list) => resume(list),
        None => start(alloc, entries.remove(0)),
    }
}

// Adds the entries in order.
fn add_each(book: &mut Book, pass: &mut Pass<Entry>, entries: Vec<Entry>) -> Result<(), OutOfMemory>
    requires { GoesOn book.old pass.old }
    ensures going { OnOk result (GoesOn book.new pass.new) }
    ensures list { OnOk result (book.new.list ≡ fold add book.old.list entries.items) }
{
    for e in entries {
        add(book, pass, e)?;
    }
    Ok(())
}

// Adds the entry, unless the list has the same one already.
fn add(book: &mut Book, pass: &mut Pass<Entry>, e: Entry) -> Result<(), OutOfMemory>
    requires { GoesOn book.old pass.old }
    ensures going { OnOk result (GoesOn book.new pass.new) }
    ensures list { OnOk result (book.new.list ≡ add book.old.list e) }
{
    book.reserve()?;
    book.add(pass, e);
    Ok(())
}

// The list of the book and its registers.
fn close(alloc: Global, book: Book, pass: Pass<Entry>) -> Result<(Vec<Entry>, Banks), OutOfMemory>
    requires { GoesOn book pass }
    ensures list { IfOk result (λ r. r.0.items ≡ book.list) }
    ensures banks { IfOk result (λ r. r.1 ≡ banks_of book.list) }
    ensures carried { IfOk result (λ r. IsCarried r.0.items) }
{
    let mut passes = Vec::new(alloc);
    passes.push(pass)?;
    Ok(book.close(passes))
}
