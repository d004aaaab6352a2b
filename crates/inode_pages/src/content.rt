//! The content of a file: its bytes, in shared pages.
ghost use Rattle.std.specs.Prelude.{◌≡◌, ℕ, ◌∷◌, ◌+◌, ◌-◌, ◌*◌, ◌%◌, ◌<◌, ◌≤◌, ◌↔◌, ◌⊎◌, [], ◌++◌, length, take, drop, IfOk, IsErrOf, OnOk, OnErr, min, replicate, slice_get, vec_len, Some};
ghost use Rattle.std.specs.List.{concat};
ghost use Rattle.std.specs.Vec.{vec_capacity};
ghost use Rattle.inode_pages.specs.Content.{bytes_at, overwritten, piece_bytes, piece_at, resized, most_bytes};
ghost use Rattle.inode_pages.specs.Pages.{ArePagesOf};
ghost use Rattle.inode_pages.specs.declared.content.PageErr.TheVariants.{OutOfMemory};

use crate::filled::filled_pages;
use crate::page::{PAGE_SIZE, Page, overwritten, shared};
use std::alloc::{AllocError as OutOfMemory, Global};
use std::marker::Model;

/// The most bytes that a file may have.
pub const MOST_BYTES: u64 = 262_144;

/// Why a content could not be created or changed.
#[derive(Clone, Copy, Debug, PartialEq, Eq)]
pub enum PageErr {
    /// The content would be longer than [`MOST_BYTES`].
    TooBig,
    /// Memory ran out.
    OutOfMemory,
}

impl From<OutOfMemory> for PageErr {
    ghost from_gives = { λ _ e. e ≡ OutOfMemory };

    fn from(_want: OutOfMemory) -> PageErr {
        PageErr::OutOfMemory
    }
}

/// The bytes of a file, at most [`MOST_BYTES`]. Contracts see the list of bytes. They are kept as
/// pages of [`PAGE_SIZE`] bytes. A page that was handed out never changes: a write replaces the
/// pages that it affects by new ones, and creates all of these before it puts any in.
pub struct Content {
    pages: Vec<Page>,
}

// Written out, so that the drop is proved here once, and not again in each crate above.
impl Drop for Content {
    fn drop(self) {
        let Content { pages: _ } = self;
    }
}

impl Model for Content {
    ghost use Rattle.std.specs.Prelude.{ℕ, List};
    ghost use Rattle.std.specs.List.{concat};
    ghost use Rattle.inode_pages.specs.Pages.{IsPaged};

    ghost Value = { List ℕ };

    ghost view = { λ c. concat c.pages.items };

    ghost invariant = { λ c. IsPaged c.pages.items };
}

// At most `len` bytes from the offset `from` on.
fn bytes_at(bytes: &[u8], from: usize, len: usize) -> &[u8]
    ensures { result.now ≡ bytes_at bytes.now from len }
{
    let rest = &bytes[from.min(bytes.len())..];
    &rest[..len.min(rest.len())]
}

// Copies the bytes to an offset in the buffer, as many as fit, and returns how many it copied.
fn copy_part(buf: &mut [u8], at: usize, bytes: &[u8]) -> usize
    requires { at ≤ length buf.old }
    ensures count { result ≡ min (length bytes.now) (length buf.old - at) }
    ensures bytes { buf.new
        ≡ take at buf.old ++ take result bytes.now ++ drop (at + result) buf.old }
{
    let count = bytes.len().min(buf.len() - at);
    buf[at..at + count].copy_from_slice(&bytes[..count]);
    count
}

// Replaces the page number `k` by this one, or appends it if `k` is the number of pages.
fn put(pages: &mut Vec<Page>, k: usize, page: Page)
    requires place { k ≤ vec_len pages.old }
    requires room { k < vec_capacity pages.old }
    ensures items { pages.new.items
        ≡ take k pages.old.items ++ page ∷ drop (k + 1) pages.old.items }
    ensures room { vec_capacity pages.new ≡ vec_capacity pages.old }
{
    if k < pages.len() {
        pages[k] = page;
    } else {
        pages.push_reserved(page);
    }
}

// Replaces as many pages as there are new ones, from the number `first` on, and appends the new
// ones that go beyond the end.
fn put_all(pages: &mut Vec<Page>, first: usize, new: Vec<Page>)
    requires place { first ≤ vec_len pages.old }
    requires room { first + vec_len new ≤ vec_capacity pages.old }
    ensures { pages.new.items ≡ take first pages.old.items ++ new.items
        ++ drop (first + length new.items) pages.old.items }
{
    let mut k = first;
    for page in new {
        put(pages, k, page);
        k += 1;
    }
}

impl Content {
    /// The empty content.
    pub fn new(alloc: Global) -> Content
        ensures { result ≡ [] }
    {
        Content {
            pages: Vec::new(alloc),
        }
    }

    /// The content with these bytes; `TooBig` exactly if there are more than [`MOST_BYTES`].
    pub fn from_slice(alloc: Global, b: &[u8]) -> Result<Content, PageErr>
        ensures ok { IfOk result (λ content. content ≡ b.now) }
        ensures too_big { IsErrOf result PageErr.TooBig ↔ (most_bytes < length b.now) }
    {
        if b.len() as u64 > MOST_BYTES {
            return Err(PageErr::TooBig);
        }
        let mut content = Content::new(alloc);
        content.overwrite(alloc, 0, b)?;
        Ok(content)
    }

    /// The content of `count` bytes, each equal to `byte`; `TooBig` exactly if `count` exceeds
    /// [`MOST_BYTES`]. All full pages are one shared page.
    pub fn filled(alloc: Global, count: u64, byte: u8) -> Result<Content, PageErr>
        ensures ok { IfOk result (λ content. content ≡ replicate count byte) }
        ensures too_big { IsErrOf result PageErr.TooBig ↔ (most_bytes < count) }
    {
        if count > MOST_BYTES {
            return Err(PageErr::TooBig);
        }
        let pages = filled_pages(alloc, count as usize, byte)?;
        let content = Content { pages };
        Ok(content)
    }

    /// A second handle on the same bytes. The pages are shared, not copied; a write to either
    /// content leaves the other as it is.
    pub fn share(&self, alloc: Global) -> Result<Content, OutOfMemory>
        ensures { IfOk result (λ content. content ≡ self.now) }
    {
        let pages = shared(alloc, self.pages.as_slice())?;
        let content = Content { pages };
        Ok(content)
    }

    /// The number of bytes, at most [`MOST_BYTES`].
    pub fn len(&self) -> u64
        ensures length { result ≡ length self.now }
        ensures most { result ≤ most_bytes }
    {
        match self.pages.last() {
            Some(last) => {
                (self.pages.len() as u64 - 1) * PAGE_SIZE as u64 + last.as_slice().len() as u64
            }
            None => 0,
        }
    }

    /// The pages, in order of their bytes.
    pub fn pages(&self) -> &[Page]
        ensures pages { ArePagesOf self.now result.now }
        ensures bytes { concat result.now ≡ self.now }
    {
        self.pages.as_slice()
    }

    // The page's worth of bytes with this number; empty past the end.
    fn piece(&self, k: usize) -> &[u8]
        ensures piece { result.now ≡ piece_at self.now k }
        ensures small { length result.now ≤ piece_bytes }
    {
        match self.pages.get(k) {
            Some(page) => page.as_slice(),
            None => &[],
        }
    }

    /// The piece with this number, counted from 0: the bytes from `PAGE_SIZE * k` on, at most
    /// [`PAGE_SIZE`] of them, and none past the end.
    pub fn chunk(&self, k: u32) -> &[u8]
        ensures piece { result.now ≡ piece_at self.now k }
        ensures small { length result.now ≤ piece_bytes }
    {
        self.piece(k as usize)
    }

    /// The page with the bytes of `chunk(k)`. It is shared, not copied, and no later write changes
    /// it.
    pub fn page(&self, alloc: Global, k: u32) -> Result<Page, OutOfMemory>
        ensures piece { IfOk result (λ page. page ≡ piece_at self.now k) }
    {
        match self.pages.get(k as usize) {
            Some(page) => page.share(),
            None => Page::from_vec(alloc, Vec::new(alloc)),
        }
    }

    // The bytes from the offset `at` to the end of its page.
    fn rest_of_page(&self, at: usize) -> &[u8]
        ensures { result.now ≡ bytes_at self.now at (piece_bytes - at % piece_bytes) }
    {
        let page = self.piece(at / PAGE_SIZE);
        let start = at % PAGE_SIZE;
        bytes_at(page, start, PAGE_SIZE - start)
    }
}

impl Content {
    // The `count` pages from the number `first` on, as a write would leave them. All of them are
    // new: this content keeps its own.
    fn pages_after(
        &self,
        alloc: Global,
        from: usize,
        b: &[u8],
        first: usize,
        count: usize,
    ) -> Result<Vec<Page>, OutOfMemory>
        requires small { (from + length b.now ≤ most_bytes) × (first + count ≤ most_bytes) }
        ensures count { IfOk result (λ pages. length pages.items ≡ count) }
        ensures each { IfOk result (λ pages. (j : ℕ) → j < count
            → slice_get pages.items j
            ≡ Some (piece_at (overwritten self.now from b.now) (first + j))) }
    {
        let mut pages = Vec::with_capacity(alloc, count)?;
        for k in first..first + count {
            pages.push_reserved(self.page_after(alloc, from, b, k)?);
        }
        Ok(pages)
    }

    // The page with this number, as a write would leave it.
    fn page_after(
        &self,
        alloc: Global,
        from: usize,
        b: &[u8],
        k: usize,
    ) -> Result<Page, OutOfMemory>
        requires small { (from + length b.now ≤ most_bytes) × (k < most_bytes) }
        ensures { IfOk result (λ page. page ≡ piece_at (overwritten self.now from b.now) k) }
    {
        let start = PAGE_SIZE * k;
        let at = from.saturating_sub(start);
        let part = bytes_at(b, start.saturating_sub(from), PAGE_SIZE.saturating_sub(at));
        let page = overwritten(alloc, self.piece(k), at.min(PAGE_SIZE), part)?;
        Ok(page)
    }

    // A write whose end is within the limit. A write of no bytes past the end extends the content
    // by zeros.
    fn overwrite(&mut self, alloc: Global, from: usize, b: &[u8]) -> Result<(), OutOfMemory>
        requires small { from + length b.now ≤ most_bytes }
        ensures ok { OnOk result (self.new ≡ overwritten self.old from b.now) }
        ensures err { OnErr result (self.new ≡ self.old) }
    {
        let first = from.min(self.len() as usize) / PAGE_SIZE;
        let count = (from + b.len()).div_ceil(PAGE_SIZE).saturating_sub(first);
        let pages = self.pages_after(alloc, from, b, first, count)?;
        self.pages.reserve(count)?;
        put_all(&mut self.pages, first, pages);
        Ok(())
    }

    /// Writes the bytes at the offset `from`, after filling any gap before it with zeros. `TooBig`
    /// exactly if the write would end beyond [`MOST_BYTES`]. On an error the content doesn't
    /// change.
    pub fn write(&mut self, alloc: Global, from: u64, b: &[u8]) -> Result<(), PageErr>
        requires { 1 ≤ length b.now }
        ensures ok { OnOk result (self.new ≡ overwritten self.old from b.now) }
        ensures too_big { IsErrOf result PageErr.TooBig ↔ (most_bytes < from + length b.now) }
        ensures err { OnErr result (self.new ≡ self.old) }
    {
        if from > MOST_BYTES || b.len() as u64 > MOST_BYTES - from {
            return Err(PageErr::TooBig);
        }
        self.overwrite(alloc, from as usize, b)?;
        Ok(())
    }

    // Truncates the content to its first `len` bytes.
    fn cut(&mut self, alloc: Global, len: usize) -> Result<(), OutOfMemory>
        requires shorter { len < length self.old }
        ensures ok { OnOk result (self.new ≡ take len self.old) }
        ensures err { OnErr result (self.new ≡ self.old) }
    {
        let whole = len / PAGE_SIZE;
        let rest = len % PAGE_SIZE;
        if rest == 0 {
            self.pages.truncate(whole);
            return Ok(());
        }
        let bytes = Vec::from_slice(alloc, bytes_at(self.piece(whole), 0, rest))?;
        let last = Page::from_vec(alloc, bytes)?;
        self.pages[whole] = last;
        self.pages.truncate(whole + 1);
        Ok(())
    }

    /// Truncates the content to `len` bytes, or extends it by zeros. `TooBig` exactly if `len`
    /// exceeds [`MOST_BYTES`]. On an error the content doesn't change.
    pub fn resize(&mut self, alloc: Global, len: u64) -> Result<(), PageErr>
        ensures ok { OnOk result (self.new ≡ resized self.old len) }
        ensures too_big { IsErrOf result PageErr.TooBig ↔ (most_bytes < len) }
        ensures err { OnErr result (self.new ≡ self.old) }
    {
        if len > MOST_BYTES {
            return Err(PageErr::TooBig);
        }
        if len < self.len() {
            self.cut(alloc, len as usize)?;
        } else {
            self.overwrite(alloc, len as usize, &[])?;
        }
        Ok(())
    }

    /// Copies bytes from the offset `from` on into the buffer, as many as fit, and returns their
    /// number, which is 0 at or past the end. The rest of the buffer doesn't change.
    pub fn read(&self, from: u64, buf: &mut [u8]) -> usize
        ensures bytes { buf.new ≡ bytes_at self.now from (length buf.old) ++ drop result buf.old }
        ensures count { result ≡ length (bytes_at self.now from (length buf.old)) }
    {
        let mut done = 0;
        if from >= self.len() {
            return done;
        }
        while done < buf.len() {
            let count = copy_part(buf, done, self.rest_of_page(from as usize + done));
            if count == 0 {
                return done;
            }
            done += count;
        }
        done
    }
}
