// Which events have a sentence.

ghost use Rattle.std.specs.Prelude.{◌≡◌, ◌+◌, ◌<◌, length, take, if◌then◌else◌, IfOk, OnOk};
ghost use Rattle.view_sentences.specs.Sentences as spec;

use report_read::{Event, Outcome};
use std::alloc::{AllocError as OutOfMemory, Global};
use view_journal::{Freshness, State, Walk, is_marked};

/// The places of the first events that have a sentence, and how many have one.
#[derive(Drop)]
pub struct Tales {
    pub places: Vec<u32>,
    pub n: u64,
}

// At most as many places are kept.
const MOST_TOLD: usize = 20;

fn is_stale(outcome: Outcome, freshness: Freshness) -> bool
    ensures { result ≡ spec.is_stale outcome freshness }
{
    match (outcome, freshness) {
        (Outcome::Bytes(n), Freshness::Written) => n > 0,
        _ => false,
    }
}

fn is_told(event: Event, state: State) -> bool
    ensures { result ≡ spec.is_told event state }
{
    is_marked(event) || is_stale(event.outcome, state.freshness)
}

fn keep(told: bool, places: &mut Vec<u32>, place: u32) -> Result<(), OutOfMemory>
    ensures { OnOk result (places.new.items ≡ spec.kept told places.old.items place) }
{
    if told && places.len() < MOST_TOLD {
        places.push(place)?;
    }
    Ok(())
}

fn counted(told: bool, n: u64) -> u64
    requires { n < 4294967296 }
    ensures { result ≡ n + (if told then 1 else 0) }
{
    if told { n + 1 } else { n }
}

/// The events of a journal that have a sentence.
pub fn told_places(alloc: Global, journal: &[Event]) -> Result<Tales, OutOfMemory>
    requires { length journal.now < 4294967296 }
    ensures places { IfOk result
        (λ t. t.places.items ≡ take spec.most_told (spec.told_places journal.now)) }
    ensures count { IfOk result (λ t. t.n ≡ length (spec.told_places journal.now)) }
{
    let mut walk = Walk::new(alloc);
    let mut places = Vec::new(alloc);
    let mut n = 0;
    for (place, event) in journal.iter().enumerate() {
        walk.step(*event)?;
        let told = is_told(*event, walk.state());
        keep(told, &mut places, place as u32)?;
        n = counted(told, n);
    }
    Ok(Tales { places, n })
}
