// The buckets of a long journal: the highest counts and the gravest note of some places.

ghost use Rattle.std.specs.Prelude.{◌≡◌, ◌<◌, ◌≤◌, length, replicate, IfOk, OnOk};
ghost use Rattle.view_page.specs.journals.Walk.{states_of};
ghost use Rattle.view_overview.specs.Overview as spec;

use report_read::Event;
use std::alloc::{AllocError as OutOfMemory, Global};
use view_journal::{Note, State, Walk, push_notes};

/// The highest counts and the gravest note of some places.
#[derive(Clone, Copy)]
pub struct Bucket {
    pub readers: u32,
    pub writers: u32,
    pub rank: u32,
}

/// So many buckets, each so many pixels wide, of so many events.
#[derive(Clone, Copy)]
pub struct Scale {
    pub events: u64,
    pub buckets: u64,
    pub width: u64,
}

// At most as many buckets, and pixels.
const MOST_BUCKETS: u64 = 900;

fn rank_of(note: Note) -> u32
    ensures { result ≡ spec.rank_of note }
{
    match note {
        Note::ToMToU(_) | Note::OpenWriters(_) => 4,
        Note::Denied => 3,
        Note::Labelled => 2,
        Note::Added(_) => 1,
        Note::Already(_) | Note::Passed => 0,
    }
}

fn highest(notes: &[Note]) -> u32
    ensures { result ≡ spec.highest_from 0 notes.now }
{
    let mut rank = 0u32;
    for note in notes {
        rank = rank.max(rank_of(*note));
    }
    rank
}

// The rank of the gravest note of an event; `notes` is room for its notes.
fn rank(notes: &mut Vec<Note>, event: Event) -> Result<u32, OutOfMemory>
    ensures { IfOk result (λ r. r ≡ spec.rank event) }
{
    notes.clear();
    push_notes(notes, event)?;
    Ok(highest(notes))
}

fn bucket_of(rank: u32, state: State) -> Bucket
    ensures { result ≡ spec.bucket_with rank state }
{
    Bucket {
        readers: state.readers.min(4_294_967_295) as u32,
        writers: state.writers.min(4_294_967_295) as u32,
        rank,
    }
}

fn higher(bucket: Bucket, other: Bucket) -> Bucket
    ensures { result ≡ spec.higher bucket other }
{
    Bucket {
        readers: bucket.readers.max(other.readers),
        writers: bucket.writers.max(other.writers),
        rank: bucket.rank.max(other.rank),
    }
}

fn raise(buckets: &mut [Bucket], k: usize, shown: Bucket)
    ensures { buckets.new ≡ spec.raised buckets.old k shown }
{
    if let Some(old) = buckets.get(k) {
        buckets[k] = higher(*old, shown);
    }
}

/// The scale for so many events.
pub fn scale_of(events: u64) -> Scale
    requires { events < 4294967296 }
    ensures is { result ≡ spec.scale_of events }
    ensures scale { spec.IsScale result }
{
    let events = events.max(1);
    let buckets = events.min(MOST_BUCKETS);
    Scale {
        events,
        buckets,
        width: MOST_BUCKETS / buckets,
    }
}

/// The bucket of a place.
pub fn bucket_at(scale: Scale, place: u32) -> u64
    requires { spec.IsScale scale }
    ensures is { result ≡ spec.bucket_at scale place }
    ensures small { result ≤ 3865470566400 }
{
    u64::from(place) * scale.buckets / scale.events
}

fn no_buckets(alloc: Global, n: u64) -> Result<Vec<Bucket>, OutOfMemory>
    ensures { IfOk result (λ v. v.items ≡ replicate n spec.none) }
{
    let mut buckets = Vec::new(alloc);
    buckets.resize(
        n as usize,
        Bucket {
            readers: 0,
            writers: 0,
            rank: 0,
        },
    )?;
    Ok(buckets)
}

// Raises the buckets to what the events of a journal show.
fn fill(
    alloc: Global,
    buckets: &mut [Bucket],
    scale: Scale,
    journal: &[Event],
) -> Result<(), OutOfMemory>
    requires scale { spec.IsScale scale }
    requires few { length journal.now < 4294967296 }
    ensures { OnOk result
        (buckets.new ≡ spec.filled scale buckets.old 0 journal.now (states_of journal.now)) }
{
    let mut walk = Walk::new(alloc);
    let mut notes = Vec::new(alloc);
    for (place, event) in journal.iter().enumerate() {
        walk.step(*event)?;
        let shown = bucket_of(rank(&mut notes, *event)?, walk.state());
        raise(buckets, bucket_at(scale, place as u32) as usize, shown);
    }
    Ok(())
}

/// The buckets of a journal.
pub fn buckets(alloc: Global, scale: Scale, journal: &[Event]) -> Result<Vec<Bucket>, OutOfMemory>
    requires scale { spec.IsScale scale }
    requires few { length journal.now < 4294967296 }
    ensures is { IfOk result (λ v. v.items ≡ spec.buckets_of scale journal.now) }
    ensures few { IfOk result (λ v. length v.items ≤ 900) }
{
    let mut buckets = no_buckets(alloc, scale.buckets)?;
    fill(alloc, &mut buckets, scale, journal)?;
    Ok(buckets)
}
