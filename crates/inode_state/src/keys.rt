// The key under which a verdict is kept.
ghost use Rattle.std.specs.Prelude.{◌≡◌};
ghost use Rattle.inode_events.specs.Verdicts.{same_algos, same_bool, same_key, same_need, same_set, same_slot};
ghost use Rattle.inode_state.specs.Verdicts.{key_for, key_seen};

use crate::collecting::Asked;
use hash_algos::{Algo, AlgoSet};
use inode_meta::{Need, Slot};

/// The key under which a verdict is kept. `None` for `algos` differs from every set.
#[derive(Clone, Copy)]
pub struct Key {
    /// The slot of the check's hook.
    pub slot: Slot,
    /// The kind of label that appraisal requires.
    pub need: Need,
    /// The algorithms that the label's digest may use; `None` if the rule names none.
    pub algos: Option<AlgoSet>,
}

/// The key for what a check asked.
pub fn key_of(asked: &Asked) -> Key
    ensures { result ≡ key_for asked.now }
{
    Key {
        slot: asked.slot,
        need: asked.action.need,
        algos: asked.action.algos,
    }
}

fn same_slot(a: Slot, b: Slot) -> bool
    ensures { result ≡ same_slot a b }
{
    match (a, b) {
        (Slot::File, Slot::File) | (Slot::Mmap, Slot::Mmap) | (Slot::Bprm, Slot::Bprm) => true,
        _ => false,
    }
}

fn same_need(a: Need, b: Need) -> bool
    ensures { result ≡ same_need a b }
{
    match (a, b) {
        (Need::Any, Need::Any) | (Need::Signature, Need::Signature) => true,
        _ => false,
    }
}

fn same_bool(a: bool, b: bool) -> bool
    ensures { result ≡ same_bool a b }
{
    if a { b } else { !b }
}

fn same_set(a: AlgoSet, b: AlgoSet) -> bool
    ensures { result ≡ same_set a b }
{
    same_bool(a.has(Algo::Md5), b.has(Algo::Md5))
        && same_bool(a.has(Algo::Sha1), b.has(Algo::Sha1))
        && same_bool(a.has(Algo::Sha256), b.has(Algo::Sha256))
        && same_bool(a.has(Algo::Sha384), b.has(Algo::Sha384))
        && same_bool(a.has(Algo::Sha512), b.has(Algo::Sha512))
        && same_bool(a.has(Algo::Sha224), b.has(Algo::Sha224))
}

fn same_algos(a: Option<AlgoSet>, b: Option<AlgoSet>) -> bool
    ensures { result ≡ same_algos a b }
{
    match (a, b) {
        (None, None) => true,
        (Some(a), Some(b)) => same_set(a, b),
        _ => false,
    }
}

/// Whether two keys are equal.
pub fn same_key(a: Key, b: Key) -> bool
    ensures { result ≡ same_key (key_seen a) (key_seen b) }
{
    same_slot(a.slot, b.slot) && same_need(a.need, b.need) && same_algos(a.algos, b.algos)
}
