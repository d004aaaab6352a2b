//! The lines of a text of buffers.

ghost use Rattle.std.specs.Prelude.{◌≡◌, Some, IfOk, OnOk, length, map};
ghost use Rattle.std.specs.Option.{option_copied};
ghost use Rattle.script_text.specs.script_lines.Gives.{LineMakes};
ghost use Rattle.script_text.specs.script_lines.Value.{value_of};
ghost use Rattle.script_text.specs.Draft.{change_last};
ghost use Rattle.script_text.specs.Limits.{most_value};
ghost use Rattle.buffer_text.specs.Grammar.{caller_of, with_caller, with_cred, with_critical, with_hash, with_line, with_rule, with_threads, with_version};
ghost use Rattle.buffer_text.specs.Text.{caller_with};

use crate::bytes::{BufferBytes, VALUE};
use crate::draft::Draft;
use crate::text::BufferCaller;
use hash_algos::by_name;
use inode_meta::Cred;
use policy_text::RULES;
use script_text::{cred_in, pop_last, sum_of, threads_of, two};
use script_words::{LineCause, LineErr, rule_of, value_of};
use std::alloc::{AllocError as OutOfMemory, Global};
use text_forms::is_word;
use xattr_store::Bytes;

// The most callers, and the most buffers of all callers.
const CALLERS: usize = 64;

const LINES: usize = 32_768;

impl Draft {
    /// Reads the line `imabuffers 1`, the version of texts of buffers.
    #[tactic(auto, unfolding(crate::specs::Grammar::with_version))]
    pub fn with_version(&mut self, fields: &[&[u8]]) -> Result<(), LineErr>
        ensures { LineMakes result (with_version (map (λ w. w.now) fields.now) self.old) self.new }
    {
        let [version] = fields else {
            return Err(LineErr::Refused(LineCause::BadField));
        };
        if *version == b"1".as_slice() {
            Ok(())
        } else {
            Err(LineErr::Refused(LineCause::BadField))
        }
    }

    /// Reads the line `hash ALGO`, which sets the algorithm of the buffers' digests.
    #[tactic(auto, unfolding(crate::specs::Grammar::with_hash))]
    pub fn with_hash(&mut self, fields: &[&[u8]]) -> Result<(), LineErr>
        ensures { LineMakes result (with_hash (map (λ w. w.now) fields.now) self.old) self.new }
    {
        let [name] = fields else {
            return Err(LineErr::Refused(LineCause::BadField));
        };
        self.hash = by_name(name).ok_or(LineCause::BadField)?;
        Ok(())
    }

    /// Reads the line `rule TEXT`, which adds a rule.
    #[tactic(auto, unfolding(crate::specs::Grammar::with_rule))]
    pub fn with_rule(&mut self, alloc: Global, text: Option<&[u8]>) -> Result<(), LineErr>
        ensures { LineMakes result (with_rule (option_copied text.entry) self.old) self.new }
    {
        let rule = rule_of(alloc, text)?;
        if self.rules.rules().len() >= RULES {
            return Err(LineErr::Refused(LineCause::TooMany));
        }
        self.rules.push(rule)?;
        Ok(())
    }

    /// Reads the line `caller uid=NUM euid=NUM gid=NUM egid=NUM`, which begins a caller's block.
    #[tactic(auto, unfolding(crate::specs::Grammar::with_caller))]
    pub fn with_caller(&mut self, alloc: Global, fields: &[&[u8]]) -> Result<(), LineErr>
        ensures { LineMakes result (with_caller (map (λ w. w.now) fields.now) self.old) self.new }
    {
        let cred = caller_of(fields).ok_or(LineCause::BadField)?;
        self.with_cred(alloc, cred)
    }

    #[tactic(auto, unfolding(crate::specs::Grammar::with_cred))]
    fn with_cred(&mut self, alloc: Global, cred: Cred) -> Result<(), LineErr>
        ensures { LineMakes result (with_cred cred self.old) self.new }
    {
        if self.callers.len() >= CALLERS {
            return Err(LineErr::Refused(LineCause::TooMany));
        }
        self.callers.push(BufferCaller::new(alloc, cred))?;
        Ok(())
    }

    /// Reads the line `critical NAME VALUE`, which adds a buffer to the last caller.
    #[tactic(auto, unfolding(crate::specs::Grammar::with_critical))]
    pub fn with_critical(&mut self, alloc: Global, fields: &[&[u8]]) -> Result<(), LineErr>
        ensures { LineMakes result (with_critical (map (λ w. w.now) fields.now) self.old)
            self.new }
    {
        let (name, value) = two(fields).ok_or(LineCause::BadField)?;
        if !is_word(name, 255) {
            return Err(LineErr::Refused(LineCause::BadField));
        }
        let bytes = value_of(alloc, value, 0, VALUE)?;
        let len = bytes.as_slice().len();
        let line = line_of(alloc, name, value, bytes)?;
        self.with_line(line, len)
    }

    #[tactic(auto, unfolding(crate::specs::Grammar::with_line))]
    fn with_line(&mut self, line: (Bytes, BufferBytes), len: usize) -> Result<(), LineErr>
        requires { len ≡ length line.1 }
        ensures { LineMakes result (with_line line self.old) self.new }
    {
        if self.lines >= LINES {
            return Err(LineErr::Refused(LineCause::TooMany));
        }
        let sum = sum_of(self.sum, len).ok_or(LineCause::TooLarge)?;
        line_on_last(&mut self.callers, line)?;
        self.lines += 1;
        self.sum = sum;
        Ok(())
    }

    /// Reads the line `threads NUM`, which ends the text.
    #[tactic(auto, unfolding(crate::specs::Grammar::with_threads))]
    pub fn with_threads(&mut self, fields: &[&[u8]]) -> Result<(), LineErr>
        ensures { LineMakes result (with_threads (map (λ w. w.now) fields.now) self.old) self.new }
    {
        let [number] = fields else {
            return Err(LineErr::Refused(LineCause::BadField));
        };
        self.threads = threads_of(number).ok_or(LineCause::BadField)?;
        Ok(())
    }
}

// The credentials of a caller, which has exactly four words.
fn caller_of(fields: &[&[u8]]) -> Option<Cred>
    ensures { result ≡ caller_of (map (λ w. w.now) fields.now) }
{
    if fields.len() == 4 {
        cred_in(fields)
    } else {
        None
    }
}

// The buffer of this name, with the bytes that the word gives.
fn line_of(
    alloc: Global,
    name: &[u8],
    word: &[u8],
    bytes: Bytes,
) -> Result<(Bytes, BufferBytes), OutOfMemory>
    requires { value_of 0 most_value word.now ≡ Some bytes }
    ensures { IfOk result (λ line. line ≡ (name.now, bytes)) }
{
    let name = Bytes::from_slice(alloc, name)?;
    let bytes = BufferBytes::of_word(alloc, word, bytes)?;
    Ok((name, bytes))
}

// Appends a buffer to those of the last caller.
#[tactic(auto, unfolding(script_text::specs::Draft::change_last))]
fn line_on_last(
    callers: &mut Vec<BufferCaller>,
    line: (Bytes, BufferBytes),
) -> Result<(), OutOfMemory>
    ensures ok { OnOk result (callers.new.items
        ≡ change_last (caller_with line) callers.old.items) }
{
    match pop_last(callers) {
        Some(caller) => {
            let caller = caller.with(line)?;
            callers.push(caller)?;
            Ok(())
        }
        None => Ok(()),
    }
}
