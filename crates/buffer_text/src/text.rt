//! The text of a run of buffers.

ghost use Rattle.std.specs.Prelude.{◌≡◌, [], IfOk};
ghost use Rattle.buffer_text.specs.Forms.{IsBufferText};
ghost use Rattle.buffer_text.specs.Text.{caller_with};

use crate::bytes::BufferBytes;
use hash_algos::Algo;
use inode_meta::Cred;
use policy_text::Policy;
use std::alloc::{AllocError as OutOfMemory, Global};
use std::marker::Model;
use xattr_store::Bytes;

/// A caller, which measures its buffers one after another. Contracts see a record of these fields,
/// with the buffers as a list.
#[derive(Drop)]
pub struct BufferCaller {
    /// The credentials that the rules are matched against.
    pub cred: Cred,
    /// The buffers, each with its name and its bytes.
    pub lines: Vec<(Bytes, BufferBytes)>,
}

impl Model for BufferCaller {
    ghost use Rattle.buffer_text.specs.Text.{CallerValue};

    ghost Value = { CallerValue };

    ghost view = { λ c. record { cred = c.cred; lines = c.lines.items } };
}

impl BufferCaller {
    /// A caller without buffers.
    pub fn new(alloc: Global, cred: Cred) -> BufferCaller
        ensures { result ≡ record { cred = cred; lines = [] } }
    {
        BufferCaller {
            cred,
            lines: Vec::new(alloc),
        }
    }

    /// The caller with one more buffer at the end.
    pub fn with(self, line: (Bytes, BufferBytes)) -> Result<BufferCaller, OutOfMemory>
        ensures { IfOk result (λ caller. caller ≡ caller_with line self) }
    {
        let mut caller = self;
        caller.lines.push(line)?;
        Ok(caller)
    }

    /// The credentials that the rules are matched against.
    pub fn cred(&self) -> &Cred
        ensures { result.now ≡ self.now.cred }
    {
        &self.cred
    }

    /// The buffers in order, each with its name and its bytes.
    pub fn lines(&self) -> &[(Bytes, BufferBytes)]
        ensures { result.now ≡ self.now.lines }
    {
        self.lines.as_slice()
    }

    /// A copy with equal buffers, in its own memory.
    pub fn copy(&self, alloc: Global) -> Result<BufferCaller, OutOfMemory>
        ensures { IfOk result (λ copy. copy ≡ self.now) }
    {
        let lines = copies_of_lines(alloc, self.lines.as_slice())?;
        Ok(BufferCaller {
            cred: self.cred,
            lines,
        })
    }
}

// Copies of buffers, in their own memory.
fn copies_of_lines(
    alloc: Global,
    lines: &[(Bytes, BufferBytes)],
) -> Result<Vec<(Bytes, BufferBytes)>, OutOfMemory>
    ensures { IfOk result (λ copies. copies.items ≡ lines.now) }
{
    let mut copies = Vec::with_capacity(alloc, lines.len())?;
    for line in lines {
        copies.push(copy_of(alloc, line)?)?;
    }
    Ok(copies)
}

// A copy of a buffer, in its own memory.
fn copy_of(alloc: Global, line: &(Bytes, BufferBytes)) -> Result<(Bytes, BufferBytes), OutOfMemory>
    ensures { IfOk result (λ copy. copy ≡ line.now) }
{
    let name = Bytes::from_slice(alloc, line.0.as_slice())?;
    let value = line.1.copy(alloc)?;
    Ok((name, value))
}

/// The buffers of some callers, with the rules that decide which of them are measured.
///
/// Contracts see a record of these fields, with the rules and the callers as lists. The invariant
/// `IsBufferText` covers the form of each part, the lengths and the limits.
#[derive(Drop)]
pub struct BufferText {
    /// The algorithm of the buffers' digests (`hash`).
    pub hash: Algo,
    /// The rules, in the order of their lines (`rule`).
    pub rules: Policy,
    /// The callers, in the order of their blocks (`caller`).
    pub callers: Vec<BufferCaller>,
    /// The most threads that the callers run on, 1 to 16 (`threads`).
    pub threads: u32,
}

impl Model for BufferText {
    ghost use Rattle.buffer_text.specs.Text.{BufferValue};

    ghost Value = { BufferValue };

    ghost use Rattle.buffer_text.specs.TextInside.{text_value};
    ghost use Rattle.buffer_text.specs.Forms.{IsBufferText};

    ghost view = { text_value };

    ghost invariant = { λ t. IsBufferText (text_value t) };
}

impl BufferText {
    /// The invariant of every text.
    pub fn keeps(&self)
        ensures { IsBufferText self.now }
    {
        let _ = &self.threads;
    }

    /// The algorithm of the buffers' digests.
    pub fn hash(&self) -> Algo
        ensures { result ≡ self.now.hash }
    {
        self.hash
    }

    /// The rules, in the order of their lines.
    pub fn rules(&self) -> &Policy
        ensures { result.now ≡ self.now.rules }
    {
        &self.rules
    }

    /// The callers, in the order of their blocks.
    pub fn callers(&self) -> &[BufferCaller]
        ensures { result.now ≡ self.now.callers }
    {
        self.callers.as_slice()
    }

    /// The most threads that the callers run on.
    pub fn threads(&self) -> u32
        ensures { result ≡ self.now.threads }
    {
        self.threads
    }

    /// A copy with equal rules and callers, in its own memory.
    pub fn copy(&self, alloc: Global) -> Result<BufferText, OutOfMemory>
        ensures { IfOk result (λ copy. copy ≡ self.now) }
    {
        let rules = self.rules.copy()?;
        let callers = copies_of_callers(alloc, self.callers.as_slice())?;
        Ok(BufferText {
            hash: self.hash,
            rules,
            callers,
            threads: self.threads,
        })
    }
}

// Copies of callers, in their own memory.
fn copies_of_callers(
    alloc: Global,
    callers: &[BufferCaller],
) -> Result<Vec<BufferCaller>, OutOfMemory>
    ensures { IfOk result (λ copies. copies.items ≡ callers.now) }
{
    let mut copies = Vec::with_capacity(alloc, callers.len())?;
    for caller in callers {
        copies.push(caller.copy(alloc)?)?;
    }
    Ok(copies)
}
