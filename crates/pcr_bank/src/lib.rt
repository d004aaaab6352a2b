//! The platform configuration registers that a measurement list extends: 24 registers each in a
//! SHA-1 bank and a SHA-256 bank, initially all zeros (TPM 2.0 Library, part 1, "PCR operations").
#![tactic(auto)]

mod banks;

pub use banks::Banks;
pub use inode_meta::Bank;
