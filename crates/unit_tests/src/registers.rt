// What registers hold, against values of `sha1sum` and `sha256sum`.

use crate::checks::is_hex;
use measure_book::registers::{Bank, Banks};
use std::alloc::Global;

// A register after two extends in both banks, and one that isn't extended.
static ROWS: [(Bank, u8, &str); 3] = [
    (Bank::Sha1, 23, "0e88991a168f26482d5b6e381824271fdb496df9"),
    (
        Bank::Sha256,
        23,
        "737cd33a989ae8eff82e196087ca9fd292a502586ca1e02910c2d30251f728fd",
    ),
    (Bank::Sha1, 22, "0000000000000000000000000000000000000000"),
];

// The registers after two extends of one of them.
fn extended() -> Banks {
    let mut banks = Banks::new();
    banks.extend(23, &[1; 20], &[3; 32]);
    banks.extend(23, &[2; 20], &[4; 32]);
    banks
}

// Whether a register of the bank holds this.
fn holds(alloc: Global, banks: &Banks, bank: Bank, pcr: u8, digits: &str) -> bool {
    pcr < 24 && is_hex(alloc, banks.value(bank, pcr), digits)
}

/// Whether registers hold what the rows say.
pub fn all_hold(alloc: Global, banks: &Banks, rows: &[(Bank, u8, &str)]) -> bool {
    let mut all = true;
    for (bank, pcr, digits) in rows {
        all &= holds(alloc, banks, *bank, *pcr, digits);
    }
    all
}

/// Whether registers hold what they have to after two extends of one of them.
pub fn are_extended(alloc: Global) -> bool {
    all_hold(alloc, &extended(), &ROWS)
}
