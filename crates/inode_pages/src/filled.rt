// The pages of a content that repeats one byte.
ghost use Rattle.std.specs.Prelude.{◌≡◌, ◌<◌, ◌≤◌, min, replicate, IfOk};
ghost use Rattle.std.specs.List.{concat};
ghost use Rattle.inode_pages.specs.Content.{most_bytes, piece_at, piece_bytes};
ghost use Rattle.inode_pages.specs.Pages.{IsPaged};

use crate::page::{PAGE_SIZE, Page};
use std::alloc::{AllocError as OutOfMemory, Global};

/// The pages of `count` bytes that all equal `byte`. All full pages are one shared page.
pub fn filled_pages(alloc: Global, count: usize, byte: u8) -> Result<Vec<Page>, OutOfMemory>
    requires { count ≤ most_bytes }
    ensures paged { IfOk result (λ pages. IsPaged pages.items) }
    ensures bytes { IfOk result (λ pages. concat pages.items ≡ replicate count byte) }
{
    let first = Page::filled(alloc, count.min(PAGE_SIZE), byte)?;
    let needed = count.div_ceil(PAGE_SIZE);
    let mut pages = Vec::with_capacity(alloc, needed)?;
    for k in 0..needed {
        pages.push_reserved(filled_page(alloc, &first, count, byte, k)?);
    }
    Ok(pages)
}

// The page with this number: the first page again, if it has as many bytes as are needed.
fn filled_page(
    alloc: Global,
    first: &Page,
    count: usize,
    byte: u8,
    k: usize,
) -> Result<Page, OutOfMemory>
    requires first { first.now ≡ replicate (min count piece_bytes) byte }
    requires small { k < most_bytes }
    ensures { IfOk result (λ page. page ≡ piece_at (replicate count byte) k) }
{
    let len = count.saturating_sub(PAGE_SIZE * k).min(PAGE_SIZE);
    let full = first.as_slice().len();
    if len == full {
        let again = first.share()?;
        return Ok(again);
    }
    let page = Page::filled(alloc, len, byte)?;
    Ok(page)
}
