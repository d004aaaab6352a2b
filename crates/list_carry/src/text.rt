// A carry text.

ghost use Rattle.std.specs.Prelude.{◌≡◌};
ghost use Rattle.list_carry.specs.Text.{HavePaths};

use carry_form::Carried;
use hash_algos::{Algo, Digest};
use std::marker::Model;
use xattr_store::Bytes;

/// The list of an earlier boot, the boot aggregate of this one, and the files that it measures.
///
/// Contracts see a record of these fields, with the carried list as a list, the digest as its bytes
/// and the files as a list of pairs.
#[derive(Drop)]
pub struct CarryText {
    /// The list of an earlier boot, if there is one (`carried`).
    pub carried: Option<Carried>,
    /// The boot aggregate of this boot, a SHA-256 digest (`boot`).
    pub boot: Digest,
    /// The files in the order of their lines, each with its path and its content (`file`). The same
    /// path may occur twice.
    pub files: Vec<(Bytes, Bytes)>,
}

impl Model for CarryText {
    ghost use Rattle.list_carry.specs.Text.{CarryValue};

    ghost Value = { CarryValue };

    ghost use Rattle.list_carry.specs.TextInside.{IsCarryText, text_value};

    ghost view = { text_value };

    ghost invariant = { IsCarryText };
}

impl CarryText {
    /// The carried list, the boot aggregate and the files.
    pub fn into_parts(self) -> (Option<Carried>, Digest, Vec<(Bytes, Bytes)>)
        ensures carried { result.0 ≡ self.carried }
        ensures boot { result.1 ≡ record { algo = Algo.Sha256; bytes = self.boot } }
        ensures files { result.2.items ≡ self.files }
        ensures paths { HavePaths self.files }
    {
        let CarryText {
            carried,
            boot,
            files,
        } = self;
        (carried, boot, files)
    }
}
