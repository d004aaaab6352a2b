// Reading a carry text.

ghost use Rattle.std.specs.Prelude.{◌≡◌, ◌-◌, ◌<◌, ◌^◌, length, map};
ghost use Rattle.script_text.specs.script_lines.Gives.{Gives, LineMakes};
ghost use Rattle.list_carry.specs.Grammar.{carry_of, on_line, placed, with_head};

use crate::draft::Draft;
use crate::head::{CarryHead, head_of};
use crate::line_cause::{CarryLine, CarryLineErr, CarryTextErr};
use crate::text::CarryText;
use script_words::{Grammar, LineCause, LineErr, cut_line, fields, read_text};
use std::alloc::Global;

/// Reads the list that an earlier boot left, the boot aggregate and the files of a carry text.
///
/// The result is `Refused` exactly if the text isn't in the grammar, with the first bad line and
/// the first of the causes that hold of it.
pub fn parse(alloc: Global, b: &[u8]) -> Result<CarryText, CarryTextErr>
    requires { length b.now < 2 ^ 32 - 1 }
    ensures { Gives result (carry_of b.now) }
{
    let draft = read_text(alloc, Draft::new(alloc), b)?;
    Ok(draft.finish())
}

impl Grammar for Draft {
    ghost use Rattle.script_text.specs.script_lines.declared.fault.LineCause.TheVariants.{NoEnd};
    ghost use Rattle.list_carry.specs.declared.line_cause.CarryLine.TheVariants.{Line};
    ghost use Rattle.list_carry.specs.Grammar.{add};
    ghost use Rattle.list_carry.specs.Heads.{is_over};

    type Cause = CarryLine;

    ghost step = { add };

    ghost ends = { is_over };

    ghost no_end = { Line NoEnd };

    #[tactic(auto, unfolding(crate::specs::Grammar::add))]
    fn add_line(&mut self, alloc: Global, line: &[u8]) -> Result<(), CarryLineErr> {
        let (word, text) = cut_line(line);
        let Some(head) = head_of(word) else {
            return Err(LineErr::Refused(CarryLine::Line(LineCause::BadWord)));
        };
        let fields = fields(alloc, text)?;
        self.placed(alloc, head, &fields)
    }

    fn may_end(&self) -> bool {
        self.is_over()
    }

    fn no_end() -> CarryLine {
        CarryLine::Line(LineCause::NoEnd)
    }
}

impl Draft {
    #[tactic(auto, unfolding(crate::specs::Grammar::placed))]
    fn placed(
        &mut self,
        alloc: Global,
        head: CarryHead,
        fields: &[&[u8]],
    ) -> Result<(), CarryLineErr>
        ensures { LineMakes result (placed head (map (λ w. w.now) fields.now) self.old) self.new }
    {
        if !self.stands(head) {
            return Err(LineErr::Refused(CarryLine::Line(LineCause::OutOfPlace)));
        }
        self.at = head.rank();
        self.with_head(alloc, head, fields)
    }

    #[tactic(auto, unfolding(crate::specs::Grammar::with_head), using(crate::proofs::LineLemmas::makes_line))]
    fn with_head(
        &mut self,
        alloc: Global,
        head: CarryHead,
        fields: &[&[u8]],
    ) -> Result<(), CarryLineErr>
        ensures { LineMakes result (with_head head (map (λ w. w.now) fields.now) self.old)
            self.new }
    {
        match head {
            CarryHead::Imacarry => by_line(self.with_version(fields)),
            CarryHead::Carried => self.with_carried(alloc, fields),
            CarryHead::Boot => by_line(self.with_boot(alloc, fields)),
            CarryHead::File => by_line(self.with_file(alloc, fields)),
            CarryHead::End => by_line(self.with_end(fields)),
        }
    }
}

// The result of a line that is refused only for causes that other texts have too.
fn by_line(made: Result<(), LineErr>) -> Result<(), CarryLineErr>
    ensures { result ≡ on_line made }
{
    match made {
        Ok(()) => Ok(()),
        Err(LineErr::Refused(cause)) => Err(LineErr::Refused(CarryLine::Line(cause))),
        Err(LineErr::OutOfMemory) => Err(LineErr::OutOfMemory),
    }
}
