//! A page: immutable bytes that may have several owners.
ghost use Rattle.std.specs.Prelude.{◌≡◌, ◌+◌, ◌≤◌, length, replicate, IfOk};
ghost use Rattle.inode_pages.specs.Content.{overwritten, piece_bytes};

use std::alloc::{AllocError as OutOfMemory, Global};
use std::marker::Model;
use std::sync::Arc;

/// The size of a page in bytes. Only the last page of a content may be shorter.
pub const PAGE_SIZE: usize = 4096;

/// A page of a content, at most 4,096 bytes, as it was when it was handed out: no later write
/// changes it. Contracts see the list of its bytes.
pub struct Page {
    bytes: Arc<Vec<u8>, Global>,
}

// Written out, so that the drop is proved here once, and not again in each crate above.
impl Drop for Page {
    fn drop(self) {
        let Page { bytes: _ } = self;
    }
}

impl Model for Page {
    ghost use Rattle.std.specs.Prelude.{ℕ, List, length, ◌≤◌};
    ghost use Rattle.std.specs.Arc.{arc_value};
    ghost use Rattle.inode_pages.specs.Content.{piece_bytes};

    ghost Value = { List ℕ };

    ghost view = { λ p. (arc_value p.bytes).items };

    ghost invariant = { λ p. length (arc_value p.bytes).items ≤ piece_bytes };
}

impl Page {
    /// The page's bytes, borrowed.
    pub fn as_slice(&self) -> &[u8]
        ensures bytes { result.now ≡ self.now }
        ensures small { length self.now ≤ piece_bytes }
    {
        self.bytes.as_slice()
    }

    /// A page that takes ownership of these bytes.
    pub fn from_vec(alloc: Global, bytes: Vec<u8>) -> Result<Page, OutOfMemory>
        requires small { length bytes.items ≤ piece_bytes }
        ensures bytes { IfOk result (λ p. p ≡ bytes.items) }
    {
        let bytes = Arc::new(alloc, bytes)?;
        Ok(Page { bytes })
    }

    /// A page of `count` bytes that all equal `byte`.
    pub fn filled(alloc: Global, count: usize, byte: u8) -> Result<Page, OutOfMemory>
        requires small { count ≤ piece_bytes }
        ensures bytes { IfOk result (λ p. p ≡ replicate count byte) }
    {
        Page::from_vec(alloc, vec![in alloc; byte; count]?)
    }

    /// A second owner of the same page.
    pub fn share(&self) -> Result<Page, OutOfMemory>
        ensures bytes { IfOk result (λ p. p ≡ self.now) }
    {
        let bytes = Arc::try_clone(&self.bytes)?;
        Ok(Page { bytes })
    }
}

/// A second owner of each of these pages, in the same order.
pub fn shared(alloc: Global, pages: &[Page]) -> Result<Vec<Page>, OutOfMemory>
    ensures { IfOk result (λ copy. copy.items ≡ pages.now) }
{
    let mut copy = Vec::with_capacity(alloc, pages.len())?;
    for page in pages {
        copy.push_reserved(page.share()?);
    }
    Ok(copy)
}

/// A new page: the old page's bytes, overwritten by others from an offset on.
pub fn overwritten(
    alloc: Global,
    page: &[u8],
    from: usize,
    bytes: &[u8],
) -> Result<Page, OutOfMemory>
    requires old { length page.now ≤ piece_bytes }
    requires new { from + length bytes.now ≤ piece_bytes }
    ensures { IfOk result (λ p. p ≡ overwritten page.now from bytes.now) }
{
    let end = from + bytes.len();
    let mut new = Vec::with_capacity(alloc, end.max(page.len()))?;
    new.extend_from_slice(&page[..from.min(page.len())])?;
    new.resize(from, 0)?;
    new.extend_from_slice(bytes)?;
    new.extend_from_slice(&page[end.min(page.len())..])?;
    Page::from_vec(alloc, new)
}
