// A SHA-1 that ends in four zero bytes, written out by hand: no content with such a digest is
// known, so no run shows how it is written.
use hash_algos::{Algo, Digest};
use label_values::*;

const LABEL: &[u8] =
    b"\x04\x02\x21\x22\x23\x24\x25\x26\x27\x28\x29\x2a\x2b\x2c\x2d\x2e\x2f\x30\x00\x00\x00\x00";

// Whether the digest is written as the label.
fn is_written_as(digest: &Digest, label: &[u8]) -> bool {
    let mut out = [0xee; MAX_LABEL];
    let len = write_label(digest, &mut out);
    out.get(..len) == Some(label)
}

/// Whether a SHA-1 that ends in zeros is written with its number. It begins at the label's third
/// byte.
pub fn is_written() -> bool {
    match Digest::from_slice(Algo::Sha1, &LABEL[2..]) {
        Some(digest) => is_written_as(&digest, LABEL),
        None => false,
    }
}
