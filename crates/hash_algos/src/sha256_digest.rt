// A SHA-256 digest without its algorithm.

ghost use Rattle.std.specs.Prelude.{◌≡◌};
ghost use Rattle.hash_algos.specs.Digest.{HasDigestSize};

use crate::algo::Algo;
use crate::digest::{Digest, Sum};
use std::marker::Model;

/// A SHA-256 digest in half the space of a [`Digest`], which has room for any algorithm's.
/// Contracts see it as that digest.
#[derive(Clone, Copy, PartialEq, Eq)]
pub struct Sha256Digest {
    bytes: [u8; 32],
}

impl Model for Sha256Digest {
    ghost use Rattle.hash_algos.specs.DigestValue.{DigestValue};

    ghost Value = { DigestValue };

    ghost use Rattle.hash_algos.specs.declared.algo.Algo.TheVariants.{Sha256};

    ghost view = { λ d. record { algo = Sha256; bytes = d.bytes } };

    ghost inverse = { λ v. record { bytes = v.bytes } };
}

impl Sha256Digest {
    /// The same digest in the shorter form.
    pub fn of(digest: &Digest) -> Sha256Digest
        requires { digest.now.algo ≡ Algo.Sha256 }
        ensures { result ≡ digest.now }
    {
        match &digest.sum {
            Sum::Sha256(bytes) => Sha256Digest { bytes: *bytes },
            _ => unreachable!(),
        }
    }

    /// The 32 bytes of the digest.
    pub fn as_slice(&self) -> &[u8]
        ensures bytes { result.now ≡ self.now.bytes }
        ensures size { HasDigestSize self.now }
    {
        &self.bytes
    }
}
