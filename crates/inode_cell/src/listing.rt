// Adding to the measurement list from a cell.
ghost use Rattle.std.specs.Prelude.{◌≡◌, ◌≤◌};
ghost use Rattle.inode_state.specs.laws_of_journals.Booked.{Books};
ghost use Rattle.inode_events.specs.Asked.{placed_for};
ghost use Rattle.inode_cell.specs.Listing.{with_asked};

use grow_list::Pass;
use ima_templates::{Entry, Placed};
use measure_book::Book;

/// Adds `entry` to the measurement list, if there is one, in room that was reserved.
pub fn list_asked(book: &mut Book, pass: &mut Pass<Entry>, entry: Option<Entry>) -> Placed
    requires name { pass.old.name ≡ book.old.name }
    requires room { 1 ≤ book.old.spare }
    ensures placed { result ≡ placed_for book.old.list entry }
    ensures list { book.new.list ≡ with_asked book.old.list entry }
    ensures books { Books book.old.list entry pass.old.seen pass.new.seen pass.old.mine
        pass.new.mine }
    ensures same_pass { (pass.new.name ≡ pass.old.name) × (pass.new.number ≡ pass.old.number) }
    ensures same_book { (book.new.name ≡ book.old.name) × (book.new.callers ≡ book.old.callers) }
{
    match entry {
        Some(e) => book.add(pass, e),
        None => Placed::Added(0),
    }
}
