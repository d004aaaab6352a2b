//! The words of the lines of settings.

ghost use Rattle.std.specs.Prelude.{◌≡◌};
ghost use Rattle.policy_rules.specs.Key.{starts};
ghost use Rattle.script_words.specs.Gives.{LineGives};
ghost use Rattle.script_fields.specs.SettingFields.{digest_in, digest_sized, format_of, is_added_name, mode_named};

use hash_algos::{Algo, Digest};
use inode_meta::Mode;
use script_words::{LineCause, LineErr, value_of};
use std::alloc::Global;
use text_forms::{is_word, look_up};
use xattr_store::EVM_NAME;

// The bytes of the longest digest.
const DIGEST: usize = 64;

/// A digest of as many bytes as the algorithm has.
pub fn digest_in(alloc: Global, algo: Algo, word: &[u8]) -> Result<Digest, LineErr>
    ensures { LineGives result (digest_in algo word.now) }
{
    let bytes = value_of(alloc, word, 0, DIGEST)?;
    digest_sized(algo, bytes.as_slice())
}

fn digest_sized(algo: Algo, bytes: &[u8]) -> Result<Digest, LineErr>
    ensures { LineGives result (digest_sized algo bytes.now) }
{
    match Digest::from_slice(algo, bytes) {
        Some(digest) => Ok(digest),
        None => Err(LineErr::Refused(LineCause::BadField)),
    }
}

// The appraisal modes by their words.
const MODES: [(&[u8], Mode); 4] = [
    (b"enforce", Mode::Enforce),
    (b"log", Mode::Log),
    (b"fix", Mode::Fix),
    (b"off", Mode::Off),
];

/// The appraisal mode by its word.
pub fn mode_named(word: &[u8]) -> Option<Mode>
    ensures { result ≡ mode_named word.now }
{
    look_up(&MODES, word)
}

/// Whether EVM can protect an attribute of this name besides the five.
pub fn is_added_name(name: &[u8]) -> bool
    ensures { result ≡ is_added_name name.now }
{
    is_word(name, 255) && 10 <= name.len() && starts(name, b"security.") && name != EVM_NAME
}

// The same as `starts_with`, with a contract by cases.
fn starts(name: &[u8], front: &[u8]) -> bool
    ensures { result ≡ starts name.now front.now }
{
    name.starts_with(front)
}

/// The format of the HMAC's message, 1 or 2.
pub fn format_of(word: &[u8]) -> Option<u8>
    ensures { result ≡ format_of word.now }
{
    if word == b"1".as_slice() {
        Some(1)
    } else if word == b"2".as_slice() {
        Some(2)
    } else {
        None
    }
}
