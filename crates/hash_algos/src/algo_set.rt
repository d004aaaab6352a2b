// A set of algorithms.

ghost use Rattle.std.specs.Prelude.{◌≡◌};
ghost use Rattle.hash_algos.specs.AlgoSet.{holds_algo, no_algos, with_algo};

use crate::algo::Algo;

/// A set of algorithms, as `appraise_algos=` lists them. Two sets are equal, in a contract and by
/// `==`, exactly if they hold the same algorithms.
#[derive(Clone, Copy, PartialEq, Eq)]
pub struct AlgoSet {
    md5: bool,
    sha1: bool,
    sha256: bool,
    sha384: bool,
    sha512: bool,
    sha224: bool,
}

impl AlgoSet {
    /// The set without any algorithm.
    pub fn new() -> AlgoSet
        ensures { result ≡ no_algos }
    {
        AlgoSet {
            md5: false,
            sha1: false,
            sha256: false,
            sha384: false,
            sha512: false,
            sha224: false,
        }
    }

    /// Adds the algorithm to the set. Nothing changes if it is already there.
    pub fn add(&mut self, a: Algo)
        ensures { self.new ≡ with_algo self.old a }
    {
        match a {
            Algo::Md5 => self.md5 = true,
            Algo::Sha1 => self.sha1 = true,
            Algo::Sha256 => self.sha256 = true,
            Algo::Sha384 => self.sha384 = true,
            Algo::Sha512 => self.sha512 = true,
            Algo::Sha224 => self.sha224 = true,
        }
    }

    /// Whether the set holds the algorithm.
    pub fn has(&self, a: Algo) -> bool
        ensures { result ≡ holds_algo self.now a }
    {
        match a {
            Algo::Md5 => self.md5,
            Algo::Sha1 => self.sha1,
            Algo::Sha256 => self.sha256,
            Algo::Sha384 => self.sha384,
            Algo::Sha512 => self.sha512,
            Algo::Sha224 => self.sha224,
        }
    }
}
