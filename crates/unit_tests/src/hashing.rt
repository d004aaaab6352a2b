// Digests of 5,000 bytes `a` that other programs computed (`md5sum`, `sha1sum`, `sha256sum`).

use crate::cases::Cases;
use hash_algos::{Algo, Digest};
use inode_hashing::Hashing;
use std::alloc::Global;

const MD5: &[u8] = b"\x7a\xaa\x7d\xec\x70\x9f\xa4\xfa\x82\xf3\x74\x6a\xbf\xd8\x0b\xdb";

const SHA1: &[u8] =
    b"\x6a\xa9\xbf\x7d\xf2\x24\x2e\xf8\x67\x55\x85\x84\xc0\x21\x60\x02\x3a\x96\xf2\xf9";

const SHA256: &[u8] =
    b"\xc5\x26\xc6\x22\x20\x44\xda\xb5\x67\x4d\xe9\xc4\xac\x7f\x45\x66\xeb\xb5\xe4\xd8\xbf\x9d\x8e\xa3\x4c\x9c\xc8\xa7\xcc\x3c\x86\x9c";

static DIGESTS: [(Algo, &[u8]); 3] = [(Algo::Md5, MD5), (Algo::Sha1, SHA1), (Algo::Sha256, SHA256)];

// Both digests of the bytes, which are hashed as one piece of `cut` bytes and one of the rest.
fn by_pieces(algo: Algo, bytes: &[u8], cut: usize) -> (Digest, Digest) {
    let (first, rest) = bytes.split_at(cut.min(bytes.len()));
    let mut hashing = Hashing::begin(algo);
    hashing.next(first);
    hashing.next(rest);
    hashing.finish()
}

// Whether they are those of other programs.
fn agree(algo: Algo, bytes: &[u8], cut: usize, wanted: &[u8]) -> bool {
    let (chosen, sha1) = by_pieces(algo, bytes, cut);
    chosen.as_slice() == wanted && sha1.as_slice() == SHA1
}

// Whether they are, wherever the bytes are cut.
fn agree_at_cuts(algo: Algo, bytes: &[u8], wanted: &[u8]) -> bool {
    let mut all = true;
    for cut in &[0, 1, 4096] {
        all &= agree(algo, bytes, *cut, wanted);
    }
    all
}

// Compares both digests of the bytes, by each algorithm.
fn try_algos(cases: &mut Cases, bytes: &[u8]) {
    for (algo, wanted) in &DIGESTS {
        let holds = agree_at_cuts(*algo, bytes, wanted);
        cases.add("both digests", algo.name(), holds);
    }
}

/// Compares both digests, by each algorithm.
pub fn try_all(alloc: Global, cases: &mut Cases) {
    match vec![in alloc; b'a'; 5000] {
        Ok(bytes) => try_algos(cases, &bytes),
        Err(_) => cases.fail(),
    }
}
