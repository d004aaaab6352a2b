// What the open collection of an inode has taken, found along the inode's journal.

ghost use Rattle.std.specs.Prelude.{◌≡◌, IfOk, IsTrue, OnOk};
ghost use Rattle.inode_events.specs.NewestFirst.{newest_first};
ghost use Rattle.inode_events.specs.pages.Content.{piece_at};
ghost use Rattle.order_sights.specs.Taken.{none_taken, taken, taken_after, taken_more};

use inode_events::{Deed, Event, Told};
use inode_pages::{Content, Page};
use order_outcomes::follow;
use order_told::same_all;
use std::alloc::{AllocError as OutOfMemory, Global};
use std::marker::Model;

/// The pieces that a collection has taken, as pages that it shares with the contents.
#[derive(Drop)]
pub struct Taken {
    pages: Vec<Page>,
}

impl Model for Taken {
    ghost use Rattle.std.specs.Prelude.{length};
    ghost use Rattle.std.specs.List.{concat};
    ghost use Rattle.order_sights.specs.TakenValue.{TakenValue};

    ghost Value = { TakenValue };

    ghost view = { λ t. record { pieces = length t.pages.items; bytes = concat t.pages.items } };
}

// The page with the piece of this number, which is empty past the end.
fn page_at(alloc: Global, content: &Content, piece: usize) -> Result<Page, OutOfMemory>
    ensures { IfOk result (λ page. page ≡ piece_at content.now piece) }
{
    match content.pages().get(piece) {
        Some(page) => page.share(),
        None => Page::from_vec(alloc, Vec::new(alloc)),
    }
}

impl Taken {
    // Nothing yet.
    fn new(alloc: Global) -> Taken
        ensures { result ≡ none_taken }
    {
        Taken {
            pages: Vec::new(alloc),
        }
    }

    // Takes the next piece of the content.
    fn take_piece(&mut self, alloc: Global, content: &Content) -> Result<(), OutOfMemory>
        ensures { OnOk result (self.new ≡ taken_more content.now self.old) }
    {
        let page = page_at(alloc, content, self.pages.len())?;
        self.pages.push(page)?;
        Ok(())
    }

    // Takes a piece, or begins again, as the event did.
    fn advance(
        &mut self,
        alloc: Global,
        content: &Content,
        event: &Event,
    ) -> Result<(), OutOfMemory>
        ensures { OnOk result (self.new
            ≡ taken_after event.now.deed event.now.told content.now self.old) }
    {
        match (&event.deed, &event.told) {
            (Deed::Take { .. } | Deed::CloseTake { .. }, Told::Begun)
            | (Deed::Finish { .. }, Told::Grant(_))
            | (Deed::CloseFinish { .. }, Told::Dropped | Told::LabelledDropped) => {
                *self = Taken::new(alloc);
                Ok(())
            }
            (Deed::Chunk { .. } | Deed::CloseChunk { .. }, Told::More | Told::Last) => {
                self.take_piece(alloc, content)
            }
            _ => Ok(()),
        }
    }

    // Whether the pieces are the same, one by one.
    fn is_same(&self, other: &Taken) -> bool
        ensures { IsTrue result → (self.now ≡ other.now) }
    {
        same_all(self.pages.as_slice(), other.pages.as_slice())
    }
}

// What the open collection has taken after the journal.
fn taken_in(alloc: Global, journal: &[Event]) -> Result<Taken, OutOfMemory>
    ensures { IfOk result (λ t. t ≡ taken (newest_first journal.now)) }
{
    let mut content = Content::new(alloc);
    let mut taken = Taken::new(alloc);
    for event in journal {
        taken.advance(alloc, &content, event)?;
        follow(alloc, &mut content, event)?;
    }
    Ok(taken)
}

/// Whether the open collections of both journals have taken the same, or none is open.
pub fn same_taken(alloc: Global, a: &[Event], b: &[Event]) -> Result<bool, OutOfMemory>
    ensures { IfOk result
        (λ same. IsTrue same → (taken (newest_first b.now) ≡ taken (newest_first a.now))) }
{
    let first = taken_in(alloc, a)?;
    let second = taken_in(alloc, b)?;
    Ok(second.is_same(&first))
}
