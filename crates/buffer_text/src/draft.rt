//! A text of buffers while its lines are read.

ghost use Rattle.std.specs.Prelude.{◌≡◌};
ghost use Rattle.buffer_text.specs.Draft.{start};
ghost use Rattle.buffer_text.specs.Forms.{IsBufferText};
ghost use Rattle.buffer_text.specs.Heads.{is_over, stands};

use crate::head::BufferHead;
use crate::text::{BufferCaller, BufferText};
use hash_algos::Algo;
use policy_text::Policy;
use script_text::in_order;
use std::alloc::Global;
use std::marker::Model;

// The rank of the blocks of callers, in which buffers follow, and of the last line.
const CALLERS: u8 = 4;

const OVER: u8 = 5;

/// A text so far, with the state that its next line depends on.
#[derive(Drop)]
pub struct Draft {
    pub hash: Algo,
    pub rules: Policy,
    pub callers: Vec<BufferCaller>,
    pub threads: u32,
    /// The rank of the last line.
    pub at: u8,
    /// The number of buffers of all callers.
    pub lines: usize,
    /// The total length of their bytes.
    pub sum: usize,
}

impl Model for Draft {
    ghost use Rattle.buffer_text.specs.Draft as spec;

    ghost Value = { spec.Draft };

    ghost use Rattle.buffer_text.specs.DraftInside.{draft_value};

    ghost view = { draft_value };
}

impl Draft {
    /// The text before its first line.
    pub fn new(alloc: Global) -> Draft
        ensures { result ≡ start }
    {
        Draft {
            hash: Algo::Sha256,
            rules: Policy::new(alloc),
            callers: Vec::new(alloc),
            threads: 1,
            at: 0,
            lines: 0,
            sum: 0,
        }
    }

    /// Whether a line of this kind can follow the lines before it.
    pub fn stands(&self, head: BufferHead) -> bool
        ensures { result ≡ stands head self.now }
    {
        match head {
            BufferHead::Imabuffers => self.at == 0,
            BufferHead::Critical => self.at == CALLERS,
            _ => in_order(head.rank(), head.repeats(), self.at),
        }
    }

    /// Whether the line `threads` has been read.
    pub fn is_over(&self) -> bool
        ensures { result ≡ is_over self.now }
    {
        self.at == OVER
    }

    /// The text, once its lines have ended.
    pub fn finish(self) -> BufferText
        requires { IsBufferText self.text }
        ensures { result ≡ self.text }
    {
        BufferText {
            hash: self.hash,
            rules: self.rules,
            callers: self.callers,
            threads: self.threads,
        }
    }
}
