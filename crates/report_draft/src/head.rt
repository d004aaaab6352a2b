// The lines before the inodes: the head of a report, its list, the registers, the appended rules.

ghost use Rattle.std.specs.Prelude.{◌≡◌, map};
ghost use Rattle.report_draft.specs.Draft as spec;
ghost use Rattle.report_draft.specs.Makes.{Makes};

use crate::draft::{Draft, Stage};
use crate::fault::LineErr;
use crate::stages::{entries_left, follows, rises, rules_left};
use report_lines::{Span, is_entry, is_version, list_of, register_of, rule_of, run_of};
use report_words::counted;

impl Draft {
    pub(crate) fn with_version(&mut self, words: &[&[u8]]) -> Result<(), LineErr>
        ensures { Makes result (spec.with_version (map (λ w. w.now) words.now) self.old) self.new }
    {
        if !is_version(words) {
            return Err(LineErr::Refused);
        }
        self.stage = Stage::Run;
        Ok(())
    }

    pub(crate) fn with_run(&mut self, words: &[&[u8]]) -> Result<(), LineErr>
        ensures { Makes result (spec.with_run (map (λ w. w.now) words.now) self.old) self.new }
    {
        let Some(run) = run_of(words) else {
            return Err(LineErr::Refused);
        };
        self.stage = Stage::List;
        self.run = run;
        Ok(())
    }

    pub(crate) fn with_list(&mut self, words: &[&[u8]]) -> Result<(), LineErr>
        ensures { Makes result (spec.with_list (map (λ w. w.now) words.now) self.old) self.new }
    {
        let Some((count, violations)) = list_of(words) else {
            return Err(LineErr::Refused);
        };
        self.stage = entries_left(count);
        self.violations = violations;
        Ok(())
    }

    pub(crate) fn with_entry(
        &mut self,
        left: u32,
        line: Span,
        words: &[&[u8]],
    ) -> Result<(), LineErr>
        ensures { Makes result (spec.with_entry left line (map (λ w. w.now) words.now) self.old)
            self.new }
    {
        if !is_entry(words) {
            return Err(LineErr::Refused);
        }
        self.entries.push(line)?;
        self.stage = entries_left(left.saturating_sub(1));
        Ok(())
    }

    /// Reads the line `pcr sha1 P HEX`.
    pub(crate) fn with_sha1(
        &mut self,
        last: Option<u32>,
        line: Span,
        words: &[&[u8]],
    ) -> Result<(), LineErr>
        ensures { Makes result (spec.with_sha1 last line (map (λ w. w.now) words.now) self.old)
            self.new }
    {
        let Some(pcr) = register_of(b"sha1", 20, words) else {
            return Err(LineErr::Refused);
        };
        if !rises(last, pcr) {
            return Err(LineErr::Refused);
        }
        self.registers.push(line)?;
        self.stage = Stage::Second(pcr);
        Ok(())
    }

    /// Reads the line `pcr sha256 P HEX`, after the line of SHA-1 for the same register.
    pub(crate) fn with_sha256(
        &mut self,
        pcr: u32,
        line: Span,
        words: &[&[u8]],
    ) -> Result<(), LineErr>
        ensures { Makes result (spec.with_sha256 pcr line (map (λ w. w.now) words.now) self.old)
            self.new }
    {
        let Some(second) = register_of(b"sha256", 32, words) else {
            return Err(LineErr::Refused);
        };
        if second != pcr {
            return Err(LineErr::Refused);
        }
        self.registers.push(line)?;
        self.stage = Stage::Registers(Some(pcr));
        Ok(())
    }

    pub(crate) fn with_appended(&mut self, words: &[&[u8]]) -> Result<(), LineErr>
        ensures { Makes result (spec.with_appended (map (λ w. w.now) words.now) self.old)
            self.new }
    {
        let Some(count) = counted(b"appended", words) else {
            return Err(LineErr::Refused);
        };
        self.stage = rules_left(count, None);
        Ok(())
    }

    pub(crate) fn with_rule(
        &mut self,
        left: u32,
        last: Option<u32>,
        line: Span,
        words: &[&[u8]],
    ) -> Result<(), LineErr>
        ensures { Makes result (spec.with_rule left last line (map (λ w. w.now) words.now) self.old)
            self.new }
    {
        let Some(place) = rule_of(words) else {
            return Err(LineErr::Refused);
        };
        if !follows(last, place) {
            return Err(LineErr::Refused);
        }
        self.rules.push(line)?;
        self.stage = rules_left(left.saturating_sub(1), Some(place));
        Ok(())
    }
}
