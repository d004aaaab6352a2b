// Digests that other programs computed (`md5sum`, `sha1sum` and so on).

use crate::cases::Cases;
use crate::checks::is_hex;
use hash_algos::{Algo, Digest, Running};
use std::alloc::Global;

// A message of the table that stands for 1,000,000 bytes `a`.
const MANY: &str = "a..";

// The digests of the empty message, of `abc` and of 1,000,000 bytes `a`, for each algorithm.
#[rattlefmt::skip]
static VECTORS: [(Algo, &str, &str); 18] = [
    (Algo::Md5, "", "d41d8cd98f00b204e9800998ecf8427e"),
    (Algo::Md5, "abc", "900150983cd24fb0d6963f7d28e17f72"),
    (Algo::Md5, MANY, "7707d6ae4e027c70eea2a935c2296f21"),
    (Algo::Sha1, "", "da39a3ee5e6b4b0d3255bfef95601890afd80709"),
    (Algo::Sha1, "abc", "a9993e364706816aba3e25717850c26c9cd0d89d"),
    (Algo::Sha1, MANY, "34aa973cd4c4daa4f61eeb2bdbad27316534016f"),
    (Algo::Sha256, "", "e3b0c44298fc1c149afbf4c8996fb92427ae41e4649b934ca495991b7852b855"),
    (Algo::Sha256, "abc", "ba7816bf8f01cfea414140de5dae2223b00361a396177a9cb410ff61f20015ad"),
    (Algo::Sha256, MANY, "cdc76e5c9914fb9281a1c7e284d73e67f1809a48a497200e046d39ccc7112cd0"),
    (Algo::Sha384, "", "38b060a751ac96384cd9327eb1b1e36a21fdb71114be07434c0cc7bf63f6e1da274edebfe76f65fbd51ad2f14898b95b"),
    (Algo::Sha384, "abc", "cb00753f45a35e8bb5a03d699ac65007272c32ab0eded1631a8b605a43ff5bed8086072ba1e7cc2358baeca134c825a7"),
    (Algo::Sha384, MANY, "9d0e1809716474cb086e834e310a4a1ced149e9c00f248527972cec5704c2a5b07b8b3dc38ecc4ebae97ddd87f3d8985"),
    (Algo::Sha512, "", "cf83e1357eefb8bdf1542850d66d8007d620e4050b5715dc83f4a921d36ce9ce47d0d13c5d85f2b0ff8318d2877eec2f63b931bd47417a81a538327af927da3e"),
    (Algo::Sha512, "abc", "ddaf35a193617abacc417349ae20413112e6fa4e89a97ea20a9eeee64b55d39a2192992a274fc1a836ba3c23a3feebbd454d4423643ce80e2a9ac94fa54ca49f"),
    (Algo::Sha512, MANY, "e718483d0ce769644e2e42c7bc15b4638e1f98b13b2044285632a803afa973ebde0ff244877ea60a4cb0432ce577c31beb009c5c2c49aa2e4eadb217ad8cc09b"),
    (Algo::Sha224, "", "d14a028c2a3a2bc9476102bb288234c415a2b01f828ea62ac5b3e42f"),
    (Algo::Sha224, "abc", "23097d223405d8228642a477bda255b32aadbce4bda0b3f7e36c9da7"),
    (Algo::Sha224, MANY, "20794655980c91d8bbb4c1ea97618a4bf03f42581948b2ee4ee7ad67"),
];

// The digest of the message, computed over pieces of `piece` bytes.
fn digest(algo: Algo, message: &[u8], piece: usize) -> Digest {
    let mut running = Running::new(algo);
    for part in message.chunks(piece.max(1)) {
        running.feed(part);
    }
    running.finish()
}

// Whether the message's digest, fed in pieces of each of some sizes, has these digits.
fn agrees(alloc: Global, algo: Algo, message: &[u8], wanted: &str) -> bool {
    let mut all = true;
    for piece in &[1_000_000, 1, 63, 64, 65, 4096] {
        all &= is_hex(alloc, digest(algo, message, *piece).as_slice(), wanted);
    }
    all
}

// The bytes of a message. `many` is the one that `MANY` stands for.
fn bytes_of<'m>(message: &'m str, many: &'m [u8]) -> &'m [u8] {
    if message == MANY {
        many
    } else {
        message.as_bytes()
    }
}

// Compares the digest of each row.
fn try_rows(alloc: Global, cases: &mut Cases, many: &[u8]) {
    for (algo, message, wanted) in &VECTORS {
        let holds = agrees(alloc, *algo, bytes_of(message, many), wanted);
        cases.add(algo.name(), message, holds);
    }
}

/// Compares the digest of each message.
pub fn try_all(alloc: Global, cases: &mut Cases) {
    match vec![in alloc; b'a'; 1_000_000] {
        Ok(many) => try_rows(alloc, cases, &many),
        Err(_) => cases.fail(),
    }
}
