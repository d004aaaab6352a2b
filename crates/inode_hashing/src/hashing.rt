ghost use Rattle.std.specs.Prelude.{◌≡◌, ℕ, List, [], ◌++◌};
ghost use Rattle.hash_algos.specs.Digest.{digest_of};
ghost use Rattle.hash_algos.specs.declared.algo.Algo.{Algo as AnyAlgo};
ghost use Rattle.hash_algos.specs.declared.algo.Algo.TheVariants.{Sha1};
ghost use Rattle.inode_hashing.specs.Hashing.{HasHashed};

use hash_algos::{Algo, Digest, Running};
use inode_pages::Page;

/// A collection in progress: it takes the content in pieces, and how the content is cut makes no
/// difference. A contract states by which algorithm it hashes and which bytes it may have taken so
/// far; each piece is appended to them. A collection by SHA-1 hashes only once.
#[derive(Drop)]
pub struct Hashing {
    chosen: Running,
    sha1: Option<Running>,
}

impl Hashing {
    /// A collection by the algorithm `a` that hasn't taken any byte yet.
    pub fn begin(a: Algo) -> Hashing
        ensures { HasHashed result a [] }
    {
        let sha1 = match a {
            Algo::Sha1 => None,
            _ => Some(Running::new(Algo::Sha1)),
        };
        Hashing {
            chosen: Running::new(a),
            sha1,
        }
    }

    /// Takes the next piece of the content.
    pub fn next(&mut self, b: &[u8])
        ensures { (a : AnyAlgo) (m : List ℕ) → HasHashed self.old a m
            → HasHashed self.new a (m ++ b.now) }
    {
        self.chosen.feed(b);
        if let Some(sha1) = &mut self.sha1 {
            sha1.feed(b);
        }
    }

    /// Takes the bytes of the next page.
    pub fn next_page(&mut self, p: &Page)
        ensures { (a : AnyAlgo) (m : List ℕ) → HasHashed self.old a m
            → HasHashed self.new a (m ++ p.now) }
    {
        self.next(p.as_slice());
    }

    /// The digest of all pieces by the collection's algorithm, and their SHA-1 digest.
    pub fn finish(self) -> (Digest, Digest)
        ensures { (a : AnyAlgo) (m : List ℕ) → HasHashed self a m
            → result ≡ (digest_of a m, digest_of Sha1 m) }
    {
        let chosen = self.chosen.finish();
        let sha1 = match self.sha1 {
            Some(sha1) => sha1.finish(),
            None => chosen,
        };
        (chosen, sha1)
    }
}
