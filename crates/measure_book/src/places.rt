// The table that finds the entries of a list by their keys.

ghost use Rattle.std.specs.Prelude.{◌≡◌, ℕ, true, ◌+◌, ◌*◌, ◌%◌, ◌<◌, ◌≤◌, [], ◌∷◌, ◌++◌, length, IfOk, OnOk, IsTrue, slice_index_or};
ghost use Rattle.std.specs.Int.{IsPowerOfTwo};
ghost use Rattle.measure_book.specs.Places.{displaced, last_below, linked, meets};

use std::alloc::{AllocError as OutOfMemory, Global};
use std::marker::Model;
use std::mem;

/// A hash table of list indices. Entries whose keys fall into the same bucket are linked from the
/// last to the first.
#[derive(Drop)]
pub(crate) struct Places {
    newest: Vec<Option<u64>>,
    keys: Vec<Option<u64>>,
    earlier: Vec<Option<u64>>,
}

impl Model for Places {
    ghost use Rattle.measure_book.specs.Places.{PlacesValue};

    ghost Value = { PlacesValue };

    ghost use Rattle.measure_book.specs.PlacesFields.{IsTable, places_of};

    ghost view = { places_of };

    ghost invariant = { IsTable };
}

impl Places {
    /// The table of an empty list, with this number of buckets and memory for half as many entries.
    pub(crate) fn with_buckets(alloc: Global, buckets: usize) -> Result<Places, OutOfMemory>
        requires power { IsPowerOfTwo buckets }
        requires not_one { 2 ≤ buckets }
        ensures { IfOk result (λ t. t ≡ record { buckets = buckets; keys = [] }) }
    {
        Ok(Places {
            newest: vec![in alloc; None; buckets]?,
            keys: Vec::with_capacity(alloc, buckets / 2)?,
            earlier: Vec::with_capacity(alloc, buckets / 2)?,
        })
    }

    /// Makes room for one more entry: a full table is replaced by one with twice as many buckets.
    pub(crate) fn reserve(&mut self) -> Result<(), OutOfMemory>
        ensures room { OnOk result (2 * length self.new.keys + 2 ≤ self.new.buckets) }
        ensures keys { self.new.keys ≡ self.old.keys }
        ensures kept { self.old.buckets ≤ self.new.buckets }
    {
        if self.keys.len() < self.newest.len() / 2 {
            return Ok(());
        }
        let mut wider = Places::with_buckets(*self.keys.allocator(), self.newest.len() * 2)?;
        for key in self.keys.iter() {
            wider.push(*key);
        }
        *self = wider;
        Ok(())
    }

    /// Records the key of the list's next entry.
    pub(crate) fn push(&mut self, key: Option<u64>)
        requires { 2 * length self.old.keys + 2 ≤ self.old.buckets }
        ensures keys { self.new.keys ≡ self.old.keys ++ key ∷ [] }
        ensures buckets { self.new.buckets ≡ self.old.buckets }
    {
        let place = self.keys.len() as u64;
        let earlier = link(&mut self.newest, key, place);
        self.earlier.push_reserved(earlier);
        self.keys.push_reserved(key);
    }

    /// The last index in the bucket of this key.
    pub(crate) fn newest(&self, key: u64) -> Option<u64>
        ensures { result ≡ last_below (meets self.now key) (length self.now.keys) }
    {
        self.newest[bucket_of(key, self.newest.len())]
    }

    /// The last index before this one in the same bucket. The entry at `place` has a key.
    pub(crate) fn before(&self, place: u64) -> Option<u64>
        requires { place < length self.now.keys }
        ensures { (key : ℕ) → meets self.now key place ≡ true
            → result ≡ last_below (meets self.now key) place }
    {
        self.earlier[place as usize]
    }
}

// Makes the index `place` the last in the bucket of its key, and returns the previous last one.
fn link(newest: &mut [Option<u64>], key: Option<u64>, place: u64) -> Option<u64>
    requires { 0 < length newest.old }
    ensures newest { newest.new ≡ linked newest.old key place }
    ensures earlier { result ≡ displaced newest.old key }
{
    let bucket = bucket_of(key?, newest.len());
    mem::replace(&mut newest[bucket], Some(place))
}

// The number of the key's bucket.
fn bucket_of(key: u64, buckets: usize) -> usize
    requires { 0 < buckets }
    ensures bucket { result ≡ key % buckets }
    ensures below { result < buckets }
{
    (key % buckets as u64) as usize
}
