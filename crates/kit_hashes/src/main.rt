//! The kit's hashes alone, for `bench/`, as a baseline for the time of a run.
//!
//! Standard input has lines `ALGO BYTES TIMES`: each hashes a message of BYTES bytes TIMES times
//! with `sha1` or `sha256`. The first bytes of all digests are added up modulo 256 and printed, so
//! that no hash can be optimized away.
#![tactic(auto)]

use anyhow::{Context, Result, bail};
use sha1::Sha1;
use sha2::{Digest, Sha256};
use std::io;

// The most bytes that a message may have.
const MOST: usize = 262_144;

fn main(rt: HostRuntime) -> Result<()> {
    let orders = io::read_to_string(rt.alloc(), rt.stdin())?;
    let bytes = vec![in rt.alloc(); b'a'; MOST]?;
    let mut sum = 0u8;
    for line in orders.lines() {
        sum = sum.wrapping_add(hash_all(line, &bytes)?);
    }
    println!(rt; "{sum}")?;
    Ok(())
}

// Carries out one line, and returns the sum of the first bytes of its digests modulo 256.
fn hash_all(line: &str, bytes: &[u8]) -> Result<u8> {
    let (algo, rest) = line.split_once(' ').context("no algorithm")?;
    let (length, times) = rest.split_once(' ').context("no number of times")?;
    let length = length.parse::<usize>().context("no length")?;
    let times = times.parse::<u32>().context("no number")?;
    let message = bytes.get(..length).context("too long")?;
    match algo {
        "sha1" => Ok(sha1_all(message, times)),
        "sha256" => Ok(sha256_all(message, times)),
        _ => bail!("no such algorithm"),
    }
}

fn sha1_all(message: &[u8], times: u32) -> u8 {
    let mut sum = 0u8;
    for _ in 0..times {
        sum = sum.wrapping_add(Sha1::digest(message)[0]);
    }
    sum
}

fn sha256_all(message: &[u8], times: u32) -> u8 {
    let mut sum = 0u8;
    for _ in 0..times {
        sum = sum.wrapping_add(Sha256::digest(message)[0]);
    }
    sum
}
