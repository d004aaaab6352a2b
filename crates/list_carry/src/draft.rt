// A carry text while its lines are read.

ghost use Rattle.std.specs.Prelude.{◌≡◌};
ghost use Rattle.list_carry.specs.Draft.{start};
ghost use Rattle.list_carry.specs.Heads.{has_boot, is_over, stands};

use crate::head::CarryHead;
use crate::text::CarryText;
use carry_form::Carried;
use hash_algos::{Algo, Digest};
use script_text::in_order;
use std::alloc::Global;
use std::marker::Model;
use xattr_store::Bytes;

// The ranks of the boot aggregate, of files and of the last line.
const BOOT: u8 = 3;

const FILES: u8 = 4;

const OVER: u8 = 5;

/// A carry text so far, with the state that its next line depends on.
#[derive(Drop)]
pub(crate) struct Draft {
    pub(crate) carried: Option<Carried>,
    pub(crate) boot: Digest,
    pub(crate) files: Vec<(Bytes, Bytes)>,
    /// The rank of the last line.
    pub(crate) at: u8,
    /// The total length of all values.
    pub(crate) sum: usize,
}

impl Model for Draft {
    ghost use Rattle.list_carry.specs.Draft as spec;

    ghost Value = { spec.Draft };

    ghost use Rattle.list_carry.specs.DraftInside.{IsDraft, draft_value};

    ghost view = { draft_value };

    ghost invariant = { IsDraft };
}

impl Draft {
    /// The text before its first line.
    pub(crate) fn new(alloc: Global) -> Draft
        ensures { result ≡ start }
    {
        Draft {
            carried: None,
            boot: Digest::zeros(Algo::Sha256),
            files: Vec::new(alloc),
            at: 0,
            sum: 0,
        }
    }

    /// Whether a line of this kind can follow the lines before it.
    pub(crate) fn stands(&self, head: CarryHead) -> bool
        ensures { result ≡ stands head self.now }
    {
        match head {
            CarryHead::Imacarry => self.at == 0,
            CarryHead::File | CarryHead::End => self.has_boot(),
            CarryHead::Carried | CarryHead::Boot => in_order(head.rank(), false, self.at),
        }
    }

    fn has_boot(&self) -> bool
        ensures { result ≡ has_boot self.now }
    {
        self.at == BOOT || self.at == FILES
    }

    /// Whether the line `end` has been read.
    pub(crate) fn is_over(&self) -> bool
        ensures { result ≡ is_over self.now }
    {
        self.at == OVER
    }

    /// The text, once its lines have ended.
    pub(crate) fn finish(self) -> CarryText
        ensures { result ≡ self.text }
    {
        let Draft {
            carried,
            boot,
            files,
            at: _,
            sum: _,
        } = self;
        CarryText {
            carried,
            boot,
            files,
        }
    }
}
