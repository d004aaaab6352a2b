// A digest: an algorithm and as many bytes as its digests have.

ghost use Rattle.std.specs.Prelude.{◌≡◌, length, IsSome, ◌↔◌, IfSome};
ghost use Rattle.hash_algos.specs.Algo.{algo_size};
ghost use Rattle.hash_algos.specs.Digest.{HasDigestSize, zero_digest};

use crate::algo::Algo;
use std::marker::Model;

/// A digest, which contracts see as the record `{ algo; bytes }` of its algorithm and its bytes, in
/// the order in which the standard writes them. The number of bytes is that of the algorithm, which
/// [`Digest::as_slice`] states.
#[derive(Clone, Copy, PartialEq, Eq)]
pub struct Digest {
    pub(crate) sum: Sum,
}

#[derive(Clone, Copy, PartialEq, Eq)]
pub(crate) enum Sum {
    Md5([u8; 16]),
    Sha1([u8; 20]),
    Sha256([u8; 32]),
    Sha384([u8; 48]),
    Sha512([u8; 64]),
    Sha224([u8; 28]),
}

impl Model for Digest {
    ghost use Rattle.hash_algos.specs.DigestValue.{DigestValue};

    ghost Value = { DigestValue };

    ghost use Rattle.hash_algos.specs.Sum.{sum_algo, sum_bytes, sum_of, sum_of-parts};

    ghost view = { λ d. record { algo = sum_algo d.sum; bytes = sum_bytes d.sum } };

    ghost inverse = { λ v. record { sum = sum_of v.algo v.bytes } };

    ghost inverse_ok = { λ d _ i. record { sum = sum_of-parts d.sum i } };
}

impl Digest {
    /// The digest with these bytes; `None` exactly if their number isn't that of the algorithm's
    /// digests.
    pub fn from_slice(a: Algo, b: &[u8]) -> Option<Digest>
        ensures fits { IsSome result ↔ (length b.now ≡ algo_size a) }
        ensures value { IfSome result (λ d. d ≡ record { algo = a; bytes = b.now }) }
    {
        let sum = match a {
            Algo::Md5 => Sum::Md5(b.try_into().ok()?),
            Algo::Sha1 => Sum::Sha1(b.try_into().ok()?),
            Algo::Sha256 => Sum::Sha256(b.try_into().ok()?),
            Algo::Sha384 => Sum::Sha384(b.try_into().ok()?),
            Algo::Sha512 => Sum::Sha512(b.try_into().ok()?),
            Algo::Sha224 => Sum::Sha224(b.try_into().ok()?),
        };
        Some(Digest { sum })
    }

    /// The digest whose bytes are all zero, such as a boot aggregate's on a machine without a TPM.
    pub fn zeros(a: Algo) -> Digest
        ensures { result ≡ zero_digest a }
    {
        let sum = match a {
            Algo::Md5 => Sum::Md5([0; 16]),
            Algo::Sha1 => Sum::Sha1([0; 20]),
            Algo::Sha256 => Sum::Sha256([0; 32]),
            Algo::Sha384 => Sum::Sha384([0; 48]),
            Algo::Sha512 => Sum::Sha512([0; 64]),
            Algo::Sha224 => Sum::Sha224([0; 28]),
        };
        Digest { sum }
    }

    /// The algorithm of the digest.
    pub fn algo(&self) -> Algo
        ensures { result ≡ self.now.algo }
    {
        match &self.sum {
            Sum::Md5(_) => Algo::Md5,
            Sum::Sha1(_) => Algo::Sha1,
            Sum::Sha256(_) => Algo::Sha256,
            Sum::Sha384(_) => Algo::Sha384,
            Sum::Sha512(_) => Algo::Sha512,
            Sum::Sha224(_) => Algo::Sha224,
        }
    }

    /// The digest's bytes, as many as [`Algo::size`] says.
    pub fn as_slice(&self) -> &[u8]
        ensures bytes { result.now ≡ self.now.bytes }
        ensures size { HasDigestSize self.now }
    {
        match &self.sum {
            Sum::Md5(bytes) => bytes,
            Sum::Sha1(bytes) => bytes,
            Sum::Sha256(bytes) => bytes,
            Sum::Sha384(bytes) => bytes,
            Sum::Sha512(bytes) => bytes,
            Sum::Sha224(bytes) => bytes,
        }
    }
}
