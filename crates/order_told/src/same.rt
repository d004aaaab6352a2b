// Values that are equal if a comparison of the code says so.

ghost use Rattle.std.specs.Prelude.{◌≡◌, ◌&&◌, IsTrue};

use call_steps::{Due, Reply};
use hash_algos::{Algo, AlgoSet};
use inode_events::templates::Entry;
use inode_meta::Template;
use inode_pages::Page;
use inode_state::{Key, KeyedVerdict, Marks, Sums};
use policy_rules::Action;
use xattr_store::Bytes;

/// Values that can be compared. If the comparison says so, they are equal.
pub trait Same {
    /// Whether the two are the same.
    fn is_same(&self, other: &Self) -> bool
        ensures { IsTrue result → (self.now ≡ other.now) };
}

fn same_reply(a: Reply, b: Reply) -> bool
    ensures { IsTrue result → (a ≡ b) }
{
    a == b
}

impl Same for Reply {
    fn is_same(&self, other: &Reply) -> bool {
        same_reply(*self, *other)
    }
}

impl Same for Marks {
    fn is_same(&self, other: &Marks) -> bool {
        self.present == other.present
            && self.new == other.new
            && self.must_measure == other.must_measure
            && self.update == other.update
            && self.versions == other.versions
    }
}

impl Same for Due {
    fn is_same(&self, other: &Due) -> bool {
        self.ask == other.ask && same_reply(self.reply, other.reply)
    }
}

impl Same for Sums {
    fn is_same(&self, other: &Sums) -> bool {
        self.digest == other.digest && self.sha1 == other.sha1
    }
}

impl Same for Bytes {
    fn is_same(&self, other: &Bytes) -> bool {
        self.as_slice() == other.as_slice()
    }
}

impl Same for Page {
    fn is_same(&self, other: &Page) -> bool {
        self.as_slice() == other.as_slice()
    }
}

impl Same for (Bytes, Bytes) {
    fn is_same(&self, other: &(Bytes, Bytes)) -> bool {
        self.0.is_same(&other.0) && self.1.is_same(&other.1)
    }
}

impl Same for Entry {
    fn is_same(&self, other: &Entry) -> bool {
        self.pcr == other.pcr
            && self.template == other.template
            && self.digest == other.digest
            && self.name.is_same(&other.name)
            && self.sig.is_same(&other.sig)
            && self.violation == other.violation
    }
}

impl Same for AlgoSet {
    fn is_same(&self, other: &AlgoSet) -> bool {
        self.has(Algo::Md5) == other.has(Algo::Md5)
            && self.has(Algo::Sha1) == other.has(Algo::Sha1)
            && self.has(Algo::Sha256) == other.has(Algo::Sha256)
            && self.has(Algo::Sha384) == other.has(Algo::Sha384)
            && self.has(Algo::Sha512) == other.has(Algo::Sha512)
            && self.has(Algo::Sha224) == other.has(Algo::Sha224)
    }
}

fn same_set(a: Option<AlgoSet>, b: Option<AlgoSet>) -> bool
    ensures { IsTrue result → (a ≡ b) }
{
    match (a, b) {
        (None, None) => true,
        (Some(a), Some(b)) => a.is_same(&b),
        _ => false,
    }
}

fn same_template(a: Option<Template>, b: Option<Template>) -> bool
    ensures { IsTrue result → (a ≡ b) }
{
    match (a, b) {
        (None, None) => true,
        (Some(a), Some(b)) => a == b,
        _ => false,
    }
}

impl Same for Action {
    fn is_same(&self, other: &Action) -> bool {
        self.measure == other.measure
            && self.pcr == other.pcr
            && self.appraise == other.appraise
            && self.audit == other.audit
            && self.hash == other.hash
            && same_template(self.template, other.template)
            && self.need == other.need
            && same_set(self.algos, other.algos)
    }
}

impl Same for Key {
    fn is_same(&self, other: &Key) -> bool {
        self.slot == other.slot && self.need == other.need && same_set(self.algos, other.algos)
    }
}

impl Same for KeyedVerdict {
    fn is_same(&self, other: &KeyedVerdict) -> bool {
        self.key.is_same(&other.key) && self.verdict == other.verdict
    }
}

/// Whether the two lists are the same.
pub fn same_all<T: Same>(a: &[T], b: &[T]) -> bool
    ensures { IsTrue result → (a.now ≡ b.now) }
{
    if a.len() != b.len() {
        return false;
    }
    for k in 0..a.len() {
        if !a[k].is_same(&b[k]) {
            return false;
        }
    }
    true
}
