// What a collection takes of a content, as shared pages: it is hashed only if its digest is written
// as a label.

ghost use Rattle.std.specs.Prelude.{◌≡◌, IfOk, IsTrue, OnOk};
ghost use Rattle.std.specs.List.{concat};
ghost use Rattle.audit_trail.specs.Steps.{begun, taken_digest, taken_more};
ghost use Rattle.world_model.specs.model.events.hashes.Digest.{digest_of};
ghost use Rattle.world_model.specs.model.events.pages.Content.{piece_at};

use hash_algos::{Algo, Digest, Running};
use inode_pages::{Content, Page};
use std::alloc::{AllocError as OutOfMemory, Global};
use std::marker::Model;

// A collection: its algorithm, and the pages that it has taken.
#[derive(Drop)]
pub struct Taken {
    algo: Algo,
    pages: Vec<Page>,
}

impl Model for Taken {
    ghost use Rattle.std.specs.Prelude.{length};
    ghost use Rattle.std.specs.List.{concat};
    ghost use Rattle.audit_trail.specs.TakenValue.{TakenValue};

    ghost Value = { TakenValue };

    ghost view = { λ t. record {
      algo = t.algo;
      pieces = length t.pages.items;
      bytes = concat t.pages.items;
    } };
}

// The page with the piece of this number, which is empty past the end.
fn page_at(alloc: Global, content: &Content, piece: usize) -> Result<Page, OutOfMemory>
    ensures { IfOk result (λ page. page ≡ piece_at content.now piece) }
{
    match content.pages().get(piece) {
        Some(page) => page.share(),
        None => Page::from_vec(alloc, Vec::new(alloc)),
    }
}

// Whether the pages have the same bytes, one by one.
fn are_same(pages: &[Page], others: &[Page]) -> bool
    ensures { IsTrue result → pages.now ≡ others.now }
{
    if pages.len() != others.len() {
        return false;
    }
    for (number, page) in pages.iter().enumerate() {
        if page.as_slice() != others[number].as_slice() {
            return false;
        }
    }
    true
}

// The digest of the bytes of these pages.
fn digest_of_pages(algo: Algo, pages: &[Page]) -> Digest
    ensures { result ≡ digest_of algo (concat pages.now) }
{
    let mut running = Running::new(algo);
    for page in pages {
        running.feed(page.as_slice());
    }
    running.finish()
}

impl Taken {
    // A collection that has just begun.
    pub fn new(alloc: Global, algo: Algo) -> Taken
        ensures { result ≡ begun algo }
    {
        Taken {
            algo,
            pages: Vec::new(alloc),
        }
    }

    // Takes the next piece of the content.
    pub fn take_piece(&mut self, alloc: Global, content: &Content) -> Result<(), OutOfMemory>
        ensures { OnOk result (self.new ≡ taken_more content.now self.old) }
    {
        let page = page_at(alloc, content, self.pages.len())?;
        self.pages.push(page)?;
        Ok(())
    }

    // The algorithm of the collection.
    pub fn algo(&self) -> Algo
        ensures { result ≡ self.now.algo }
    {
        self.algo
    }

    // Whether what was taken is the content, page by page.
    pub fn is_of(&self, content: &Content) -> bool
        ensures { IsTrue result → self.now.bytes ≡ content.now }
    {
        are_same(self.pages.as_slice(), content.pages())
    }

    // The digest of what was taken.
    pub fn digest(&self) -> Digest
        ensures { result ≡ taken_digest self.now }
    {
        digest_of_pages(self.algo, self.pages.as_slice())
    }
}
