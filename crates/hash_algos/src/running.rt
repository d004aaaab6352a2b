// Incremental hashing.

ghost use Rattle.std.specs.Prelude.{◌≡◌, ℕ, List, [], ◌++◌};
ghost use Rattle.hash_algos.specs.Digest.{digest_of};
ghost use Rattle.hash_algos.specs.Running.{running_algo, HasTaken};

use crate::algo::Algo;
use crate::digest::{Digest, Sum};
use md5::{Digest as Md5Hasher, Md5};
use sha1::Sha1;
use sha2::{Digest as Sha2Hasher, Sha224, Sha256, Sha384, Sha512};

/// The digest of the bytes by the algorithm `a`.
pub fn digest_of(a: Algo, bytes: &[u8]) -> Digest
    ensures { result ≡ digest_of a bytes.now }
{
    let mut running = Running::new(a);
    running.feed(bytes);
    running.finish()
}

/// A hash in progress: it takes its message in pieces, and how the message is cut makes no
/// difference. A contract states which messages it may have taken so far; each piece is appended to
/// them.
#[derive(Drop)]
pub struct Running {
    hasher: Hasher,
}

#[derive(Drop)]
enum Hasher {
    Md5(Md5),
    Sha1(Sha1),
    Sha256(Sha256),
    Sha384(Sha384),
    Sha512(Sha512),
    Sha224(Sha224),
}

impl Running {
    /// A hash that hasn't taken any byte yet.
    pub fn new(a: Algo) -> Running
        ensures algo { running_algo result ≡ a }
        ensures empty { HasTaken result [] }
    {
        let hasher = match a {
            Algo::Md5 => Hasher::Md5(Md5::new()),
            Algo::Sha1 => Hasher::Sha1(Sha1::new()),
            Algo::Sha256 => Hasher::Sha256(Sha256::new()),
            Algo::Sha384 => Hasher::Sha384(Sha384::new()),
            Algo::Sha512 => Hasher::Sha512(Sha512::new()),
            Algo::Sha224 => Hasher::Sha224(Sha224::new()),
        };
        Running { hasher }
    }

    /// Takes the next piece of the message.
    pub fn feed(&mut self, b: &[u8])
        ensures algo { running_algo self.new ≡ running_algo self.old }
        ensures taken { (m : List ℕ) → HasTaken self.old m → HasTaken self.new (m ++ b.now) }
    {
        match &mut self.hasher {
            Hasher::Md5(h) => h.update(b),
            Hasher::Sha1(h) => h.update(b),
            Hasher::Sha256(h) => h.update(b),
            Hasher::Sha384(h) => h.update(b),
            Hasher::Sha512(h) => h.update(b),
            Hasher::Sha224(h) => h.update(b),
        }
    }

    /// The digest of the whole message.
    pub fn finish(self) -> Digest
        ensures { (m : List ℕ) → HasTaken self m → result ≡ digest_of (running_algo self) m }
    {
        let sum = match self.hasher {
            Hasher::Md5(h) => Sum::Md5(h.finalize()),
            Hasher::Sha1(h) => Sum::Sha1(h.finalize()),
            Hasher::Sha256(h) => Sum::Sha256(h.finalize()),
            Hasher::Sha384(h) => Sum::Sha384(h.finalize()),
            Hasher::Sha512(h) => Sum::Sha512(h.finalize()),
            Hasher::Sha224(h) => Sum::Sha224(h.finalize()),
        };
        Digest { sum }
    }
}
