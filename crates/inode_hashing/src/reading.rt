// Hashing of a content, page by page.
ghost use Rattle.std.specs.Prelude.{◌≡◌, ℕ, ◌≤◌, ◌++◌, List, length};
ghost use Rattle.hash_algos.specs.Digest.{digest_of};
ghost use Rattle.hash_algos.specs.Running.{HasTaken, running_algo};
ghost use Rattle.inode_pages.specs.Content.{bytes_at, most_bytes};

use hash_algos::{Algo, Running, Sha256Digest};
use inode_pages::{Content, PAGE_SIZE};

// Feeds at most `len` bytes, starting at the byte `from`, a page at a time. Returns how many there
// were.
fn feed_from(running: &mut Running, content: &Content, from: u64, len: u64) -> u64
    ensures count { result ≡ length (bytes_at content.now from len) }
    ensures most { result ≤ most_bytes }
    ensures algo { running_algo running.new ≡ running_algo running.old }
    ensures taken { (m : List ℕ) → HasTaken running.old m
        → HasTaken running.new (m ++ bytes_at content.now from len) }
{
    let count = content.len().saturating_sub(from).min(len);
    let mut page = [0; PAGE_SIZE];
    let mut done = 0;
    while done < count {
        let room = (count - done).min(PAGE_SIZE as u64) as usize;
        let part = &mut page[..room];
        let _read = content.read(from + done, part);
        running.feed(part);
        done += room as u64;
    }
    count
}

/// The number of bytes, at most `len`, that start at the byte `from`, and their SHA-256.
pub fn hashed_at(content: &Content, from: u64, len: u64) -> (u32, Sha256Digest)
    ensures count { result.0 ≡ length (bytes_at content.now from len) }
    ensures digest { result.1 ≡ digest_of Algo.Sha256 (bytes_at content.now from len) }
{
    let mut running = Running::new(Algo::Sha256);
    let count = feed_from(&mut running, content, from, len);
    (count as u32, Sha256Digest::of(&running.finish()))
}
