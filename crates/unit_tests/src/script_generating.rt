// Scripts whose digests a program of 25 lines in another language gives, which follows the format's
// description alone, with its own SHA-256. A summary shows of the text only how long it is.

use crate::cases::Cases;
use crate::checks::is_hex;
use hash_algos::{Algo, Digest, digest_of};
use load_gen::script;
use std::alloc::{AllocError as OutOfMemory, Global};

static ROWS: [(u32, &str, &str); 3] = [
    (
        1,
        "script 1",
        "d7ffc30f183c2c449c513fac2ea9f3210c68fff07ac0d609cfde0190e34ca3db",
    ),
    (
        2,
        "script 2",
        "a2e017c878fcf851d2d0b96366814137d376f6ee8726ec7bc28e95c104b94705",
    ),
    (
        1_000_000,
        "script 1,000,000",
        "5d2e362b83c02624f860c74dc694125bbfbb07c3eb3b3002e257adc62a10a851",
    ),
];

// The digest of the script of this number.
fn digest(alloc: Global, number: u32) -> Result<Digest, OutOfMemory> {
    let text = script(alloc, number)?;
    Ok(digest_of(Algo::Sha256, text.as_slice()))
}

// Whether the script of this number has this digest. It hasn't if memory runs out.
fn has_digest(alloc: Global, number: u32, wanted: &str) -> bool {
    match digest(alloc, number) {
        Ok(digest) => is_hex(alloc, digest.as_slice(), wanted),
        Err(_) => false,
    }
}

/// Compares the digest of each script.
pub fn try_all(alloc: Global, cases: &mut Cases) {
    for (number, name, wanted) in &ROWS {
        cases.add(
            "a generated script",
            name,
            has_digest(alloc, *number, wanted),
        );
    }
}
