// The registers and the appended rules in a page.

ghost use Rattle.std.specs.Prelude.{OnOk};
ghost use Rattle.view_page.specs.Parts.{Pushed};
ghost use Rattle.view_tables.specs.Tables as spec;

use crate::entries::{word_1, word_2, word_3};
use report_read::Span;
use std::alloc::AllocError as OutOfMemory;
use view_page::{Part, Table, after_word, cut, push_more, push_parts};

// No more registers are shown: two banks have 24 each.
const MOST_REGISTERS: usize = 48;

// No more appended rules are shown.
const MOST_RULES: usize = 50;

fn push_register(out: &mut Vec<u8>, text: &[u8], line: Span) -> Result<(), OutOfMemory>
    ensures { OnOk result
        (Pushed text.now out.old.items out.new.items (spec.register text.now line)) }
{
    let parts = [
        Part::Table(Table::BankRow),
        Part::Text(cut(80, word_1(text, line))),
        Part::Table(Table::Cell),
        Part::Text(cut(80, word_2(text, line))),
        Part::Table(Table::HexCell),
        Part::Text(cut(80, word_3(text, line))),
        Part::Table(Table::RowEnd),
    ];
    push_parts(out, text, &parts)
}

fn push_register_rows(out: &mut Vec<u8>, text: &[u8], lines: &[Span]) -> Result<(), OutOfMemory>
    ensures { OnOk result
        (Pushed text.now out.old.items out.new.items (spec.register_rows text.now lines.now)) }
{
    for line in &lines[..lines.len().min(MOST_REGISTERS)] {
        push_register(out, text, *line)?;
    }
    Ok(())
}

/// Appends the registers.
pub fn push_registers(out: &mut Vec<u8>, text: &[u8], lines: &[Span]) -> Result<(), OutOfMemory>
    ensures { OnOk result
        (Pushed text.now out.old.items out.new.items (spec.registers text.now lines.now)) }
{
    push_parts(out, text, &[Part::Table(Table::Registers)])?;
    push_register_rows(out, text, lines)?;
    push_parts(out, text, &[Part::Table(Table::TableEnd)])
}

fn push_rule(out: &mut Vec<u8>, text: &[u8], line: Span) -> Result<(), OutOfMemory>
    ensures { OnOk result
        (Pushed text.now out.old.items out.new.items (spec.rule text.now line)) }
{
    let parts = [
        Part::Table(Table::RuleRow),
        Part::Text(cut(1024, after_word(text, line))),
        Part::Table(Table::RowEnd),
    ];
    push_parts(out, text, &parts)
}

fn push_rule_rows(out: &mut Vec<u8>, text: &[u8], lines: &[Span]) -> Result<(), OutOfMemory>
    ensures { OnOk result
        (Pushed text.now out.old.items out.new.items (spec.rule_rows text.now lines.now)) }
{
    for line in &lines[..lines.len().min(MOST_RULES)] {
        push_rule(out, text, *line)?;
    }
    Ok(())
}

fn push_rules_shown(out: &mut Vec<u8>, text: &[u8], lines: &[Span]) -> Result<(), OutOfMemory>
    ensures { OnOk result
        (Pushed text.now out.old.items out.new.items (spec.rules_shown text.now lines.now)) }
{
    let more = lines.len().saturating_sub(MOST_RULES) as u64;
    push_parts(out, text, &[Part::Table(Table::Rules)])?;
    push_rule_rows(out, text, lines)?;
    push_parts(out, text, &[Part::Table(Table::TableEnd)])?;
    push_more(
        out,
        text,
        Part::Table(Table::More),
        more,
        Part::Table(Table::MoreEnd),
    )
}

/// Appends the rules that were appended during the run, if there are any.
pub fn push_rules(out: &mut Vec<u8>, text: &[u8], lines: &[Span]) -> Result<(), OutOfMemory>
    ensures { OnOk result
        (Pushed text.now out.old.items out.new.items (spec.rules text.now lines.now)) }
{
    if lines.len() > 0 {
        push_rules_shown(out, text, lines)
    } else {
        push_parts(out, text, &[])
    }
}
