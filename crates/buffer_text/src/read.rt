//! Reading a text of buffers.

ghost use Rattle.std.specs.Prelude.{◌≡◌, ◌-◌, ◌<◌, ◌^◌, IfOk, length, map};
ghost use Rattle.std.specs.Option.{option_copied};
ghost use Rattle.script_text.specs.script_lines.Gives.{Gives, LineMakes};
ghost use Rattle.buffer_text.specs.Forms.{IsBufferText};
ghost use Rattle.buffer_text.specs.Grammar.{buffers_of, placed, with_head};

use crate::draft::Draft;
use crate::head::{BufferHead, head_of};
use crate::text::BufferText;
use script_words::{Grammar, LineCause, LineErr, ScriptErr, cut_line, fields, read_text};
use std::alloc::Global;

/// Reads the callers of a text, with their buffers, and its rules.
///
/// The result is `Refused` exactly if the text isn't in the grammar, with the first bad line and
/// the first of the causes that hold of it.
pub fn parse(alloc: Global, text: &[u8]) -> Result<BufferText, ScriptErr>
    requires { length text.now < 2 ^ 32 - 1 }
    ensures text { Gives result (buffers_of text.now) }
    ensures kept { IfOk result IsBufferText }
{
    let draft = read_text(alloc, Draft::new(alloc), text)?;
    Ok(draft.finish())
}

impl Grammar for Draft {
    ghost use Rattle.script_text.specs.script_lines.declared.fault.LineCause.TheVariants.{NoEnd};
    ghost use Rattle.buffer_text.specs.Grammar.{add};
    ghost use Rattle.buffer_text.specs.Heads.{is_over};

    type Cause = LineCause;

    ghost step = { add };

    ghost ends = { is_over };

    ghost no_end = { NoEnd };

    #[tactic(auto, unfolding(crate::specs::Grammar::add))]
    fn add_line(&mut self, alloc: Global, line: &[u8]) -> Result<(), LineErr> {
        let (word, text) = cut_line(line);
        let head = head_of(word).ok_or(LineCause::BadWord)?;
        self.placed(alloc, head, text)
    }

    fn may_end(&self) -> bool {
        self.is_over()
    }

    fn no_end() -> LineCause {
        LineCause::NoEnd
    }
}

impl Draft {
    #[tactic(auto, unfolding(crate::specs::Grammar::placed))]
    fn placed(
        &mut self,
        alloc: Global,
        head: BufferHead,
        text: Option<&[u8]>,
    ) -> Result<(), LineErr>
        ensures { LineMakes result (placed head (option_copied text.entry) self.old) self.new }
    {
        if !self.stands(head) {
            return Err(LineErr::Refused(LineCause::OutOfPlace));
        }
        self.at = head.rank();
        let fields = fields(alloc, text)?;
        self.with_head(alloc, head, text, &fields)
    }

    #[tactic(auto, unfolding(crate::specs::Grammar::with_head))]
    fn with_head(
        &mut self,
        alloc: Global,
        head: BufferHead,
        text: Option<&[u8]>,
        fields: &[&[u8]],
    ) -> Result<(), LineErr>
        ensures { LineMakes result
            (with_head head (option_copied text.entry) (map (λ w. w.now) fields.now) self.old)
            self.new }
    {
        match head {
            BufferHead::Imabuffers => self.with_version(fields),
            BufferHead::Hash => self.with_hash(fields),
            BufferHead::Rule => self.with_rule(alloc, text),
            BufferHead::Caller => self.with_caller(alloc, fields),
            BufferHead::Critical => self.with_critical(alloc, fields),
            BufferHead::Threads => self.with_threads(fields),
        }
    }
}
