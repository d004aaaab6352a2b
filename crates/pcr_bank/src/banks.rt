// The registers of both banks.

ghost use Rattle.std.specs.Prelude.{◌≡◌, ◌<◌, ◌++◌, length};
ghost use Rattle.hash_algos.specs.Algo.{algo_size};
ghost use Rattle.hash_algos.specs.Hash.{hash};
ghost use Rattle.pcr_bank.specs.Banks.{by_bank, extend_banks, new_banks, register};

use hash_algos::{Algo, Running};
use inode_meta::Bank;

/// The 24 registers of each of the two banks.
#[derive(Drop)]
pub struct Banks {
    sha1: [[u8; 20]; 24],
    sha256: [[u8; 32]; 24],
}

impl Banks {
    /// The registers at reset: all zeros.
    pub fn new() -> Banks
        ensures { result ≡ new_banks }
    {
        Banks {
            sha1: [[0; 20]; 24],
            sha256: [[0; 32]; 24],
        }
    }

    /// Extends the register in each bank by that bank's digest: its new value is the hash of its
    /// old value followed by the digest.
    pub fn extend(&mut self, pcr: u8, sha1: &[u8; 20], sha256: &[u8; 32])
        requires { pcr < 24 }
        ensures { self.new ≡ extend_banks self.old pcr (by_bank sha1.now sha256.now) }
    {
        extend_register(Algo::Sha1, &mut self.sha1[pcr as usize], sha1);
        extend_register(Algo::Sha256, &mut self.sha256[pcr as usize], sha256);
    }

    /// The value of a register: 20 bytes in the SHA-1 bank, 32 in the SHA-256 bank.
    pub fn value(&self, bank: Bank, pcr: u8) -> &[u8]
        requires { pcr < 24 }
        ensures { result.now ≡ register self.now bank pcr }
    {
        match bank {
            Bank::Sha1 => &self.sha1[pcr as usize],
            Bank::Sha256 => &self.sha256[pcr as usize],
        }
    }
}

// Extends one register of a bank with this hash algorithm.
fn extend_register(algo: Algo, register: &mut [u8], digest: &[u8])
    requires { length register.old ≡ algo_size algo }
    ensures { register.new ≡ hash algo (register.old ++ digest.now) }
{
    let mut running = Running::new(algo);
    running.feed(register);
    running.feed(digest);
    register.copy_from_slice(running.finish().as_slice());
}
