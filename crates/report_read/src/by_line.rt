// Reading a text line by line.

ghost use Rattle.std.specs.Prelude.{◌≡◌, ◌+◌, ◌-◌, ◌<◌, ◌^◌, length, All, IfOk};
ghost use Rattle.report_text.specs.model.events.forms.Lines.{lines};
ghost use Rattle.report_draft.specs.Makes.{Gives, Makes, ReadsAs};
ghost use Rattle.report_read.specs.Read.{reports_of, with_line, read_from};
ghost use Rattle.report_lines.specs.Report.{HasShortJournals};

use report_draft::{Draft, LineErr, ReadErr, Report};
use report_words::{Span, first_words};
use script_words::cut;
use std::alloc::Global;

/// Reads a text of reports, one after another: one, and `more` after it.
///
/// The result is `Refused` exactly if the text isn't as many reports, with its first bad line.
pub fn read(alloc: Global, text: &[u8], more: u32) -> Result<Vec<Report>, ReadErr>
    requires { length text.now < 2 ^ 32 - 1 }
    ensures reports { ReadsAs result (reports_of more text.now) }
    ensures count { IfOk result (λ reports. length reports.items ≡ more + 1) }
    ensures short { IfOk result (λ reports. All HasShortJournals reports.items) }
{
    let draft = read_lines(alloc, Draft::new(alloc, more), text)?;
    Ok(draft.finish())
}

// What the lines of the text make of the draft.
fn read_lines(alloc: Global, start: Draft, text: &[u8]) -> Result<Draft, ReadErr>
    requires { length text.now < 2 ^ 32 - 1 }
    ensures { Gives result (read_from 0 1 start (lines text.now)) }
{
    let mut draft = start;
    let mut offset = 0usize;
    let mut number = 1u32;
    let mut rest = text;
    while let Some((line, after)) = cut(rest, b'\n') {
        match with_line(&mut draft, alloc, offset, line, after.len()) {
            Ok(()) => {}
            Err(err) => return Err(err.at(number)),
        }
        offset += line.len() + 1;
        number += 1;
        rest = after;
    }
    if draft.is_over() && rest.is_empty() {
        Ok(draft)
    } else {
        Err(ReadErr::Refused(number))
    }
}

// Takes one more line, which begins at this index and has so many bytes after it.
fn with_line(
    draft: &mut Draft,
    alloc: Global,
    at: usize,
    line: &[u8],
    after: usize,
) -> Result<(), LineErr>
    requires { at + length line.now < 2 ^ 32 }
    ensures { Makes result (with_line at draft.old line.now) draft.new }
{
    let words = first_words(alloc, line)?;
    let span = Span {
        at: at as u32,
        len: line.len() as u32,
    };
    draft.with_words(alloc, span, &words)?;
    draft.make_room(after)?;
    Ok(())
}
