//! Reading a script.

ghost use Rattle.std.specs.Prelude.{◌≡◌, ◌-◌, ◌<◌, ◌^◌, IfOk, length, map};
ghost use Rattle.std.specs.Option.{option_copied};
ghost use Rattle.script_words.specs.Gives.{Gives, LineMakes};
ghost use Rattle.script_text.specs.Forms.{IsScript};
ghost use Rattle.script_text.specs.Grammar.{placed, script_of, with_head};

use crate::draft::Draft;
use crate::head::{Head, head_of};
use crate::script::Script;
use script_words::{Grammar, LineCause, LineErr, ScriptErr, cut_line, fields, read_text};
use std::alloc::Global;

/// Reads the script of a text.
///
/// The result is `Refused` exactly if the text isn't in the grammar, with the first bad line and
/// the first of the causes that hold of it.
pub fn parse(alloc: Global, text: &[u8]) -> Result<Script, ScriptErr>
    requires { length text.now < 2 ^ 32 - 1 }
    ensures text { Gives result (script_of text.now) }
    ensures kept { IfOk result IsScript }
{
    let draft = read_text(alloc, Draft::new(alloc), text)?;
    Ok(draft.finish())
}

impl Grammar for Draft {
    ghost use Rattle.script_words.specs.declared.fault.LineCause.TheVariants.{NoEnd};
    ghost use Rattle.script_text.specs.Grammar.{add};
    ghost use Rattle.script_text.specs.Heads.{is_over};

    type Cause = LineCause;

    ghost step = { add };

    ghost ends = { is_over };

    ghost no_end = { NoEnd };

    #[tactic(auto, unfolding(crate::specs::Grammar::add))]
    fn add_line(&mut self, alloc: Global, line: &[u8]) -> Result<(), LineErr> {
        let (word, text) = cut_line(line);
        let head = head_of(word).ok_or(LineCause::BadWord)?;
        self.placed(alloc, head, text)
    }

    fn may_end(&self) -> bool {
        self.is_over()
    }

    fn no_end() -> LineCause {
        LineCause::NoEnd
    }
}

impl Draft {
    #[tactic(auto, unfolding(crate::specs::Grammar::placed))]
    fn placed(&mut self, alloc: Global, head: Head, text: Option<&[u8]>) -> Result<(), LineErr>
        ensures { LineMakes result (placed head (option_copied text.entry) self.old) self.new }
    {
        if !self.stands(head) {
            return Err(LineErr::Refused(LineCause::OutOfPlace));
        }
        self.at = head.rank();
        let fields = fields(alloc, text)?;
        self.with_head(alloc, head, text, &fields)
    }

    #[tactic(auto, unfolding(crate::specs::Grammar::with_head))]
    fn with_head(
        &mut self,
        alloc: Global,
        head: Head,
        text: Option<&[u8]>,
        fields: &[&[u8]],
    ) -> Result<(), LineErr>
        ensures { LineMakes result
            (with_head head (option_copied text.entry) (map (λ w. w.now) fields.now) self.old)
            self.new }
    {
        match head {
            Head::Imakern => self.with_version(fields),
            Head::Hash => self.with_hash(fields),
            Head::Template => self.with_template(fields),
            Head::Boot => self.with_boot(alloc, fields),
            Head::Appraise => self.with_mode(fields),
            Head::Evm => self.with_key(alloc, fields),
            Head::EvmXattrs => self.with_name(alloc, fields),
            Head::EvmFormat => self.with_format(fields),
            Head::Fs => self.with_super(alloc, fields),
            Head::File => self.with_file(alloc, fields),
            Head::Absent => self.with_absent(alloc, fields),
            Head::Attr => self.with_attr(alloc, fields),
            Head::Seal => self.with_seal(alloc, fields),
            Head::Rule => self.with_rule(alloc, text),
            Head::Task => self.with_task(alloc, fields),
            Head::Call(word) => self.with_call_line(alloc, word, text, fields),
            Head::Schedule => self.with_schedule(alloc, text),
            Head::Rounds => self.with_rounds(fields),
            Head::Threads => self.with_threads(fields),
        }
    }
}
