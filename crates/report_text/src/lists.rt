// The sections of the measurement list, the registers and the appended rules.

ghost use Rattle.std.specs.Prelude.{◌≡◌, ◌++◌, ◌<◌, ◌==◌, true, OnOk};
ghost use Rattle.std.specs.List.{flat_map, list_any};
ghost use Rattle.list_format.specs.Line.{ascii_line};
ghost use Rattle.text_forms.specs.Words.{text_of};
ghost use Rattle.report_text.specs.Report.{appended_lines, pcr_lines, pcr_lines_at, rule_line, rule_lines};
ghost use Rattle.report_events.specs.Texts.{line_text};

use ima_templates::Entry;
use inode_meta::Bank;
use itoa::Buffer;
use list_format::{append_hex, ascii};
use pcr_bank::Banks;
use policy_text::print_rule;
use report_events::{push_numbered, push_who};
use run_model::RuleEntry;
use std::alloc::{AllocError as OutOfMemory, Global};

/// Prints the entries as lines of `ascii_runtime_measurements`.
pub fn push_entries(out: &mut Vec<u8>, list: &[Entry]) -> Result<(), OutOfMemory>
    ensures { OnOk result (out.new.items ≡ out.old.items ++ flat_map ascii_line list.now) }
{
    for entry in list {
        ascii(entry, out)?;
    }
    Ok(())
}

/// Prints the registers that at least one entry extends, in rising order.
pub fn push_registers(out: &mut Vec<u8>, list: &[Entry], banks: &Banks) -> Result<(), OutOfMemory>
    ensures { OnOk result (out.new.items
        ≡ out.old.items ++ text_of (pcr_lines list.now banks.now)) }
{
    for pcr in 0..24u8 {
        push_register(out, banks, pcr, is_named(list, pcr))?;
    }
    Ok(())
}

fn is_named(list: &[Entry], pcr: u8) -> bool
    ensures { result ≡ list_any (λ e. e.pcr == pcr) list.now }
{
    list.iter().any(|e| e.pcr == pcr)
}

// Prints the value of a register in both banks, if `named` says that an entry extends it.
fn push_register(out: &mut Vec<u8>, banks: &Banks, pcr: u8, named: bool) -> Result<(), OutOfMemory>
    requires { pcr < 24 }
    ensures { OnOk result (out.new.items
        ≡ out.old.items ++ text_of (pcr_lines_at banks.now pcr named)) }
{
    if named {
        push_values(out, banks, pcr)
    } else {
        Ok(())
    }
}

/// Prints the value of a register in both banks, one line each.
pub fn push_values(out: &mut Vec<u8>, banks: &Banks, pcr: u8) -> Result<(), OutOfMemory>
    requires { pcr < 24 }
    ensures { OnOk result (out.new.items
        ≡ out.old.items ++ text_of (pcr_lines_at banks.now pcr true)) }
{
    let number = u64::from(pcr);
    push_numbered(out, b"pcr sha1", number)?;
    append_hex(out, b' ', banks.value(Bank::Sha1, pcr))?;
    push_numbered(out, b"\npcr sha256", number)?;
    append_hex(out, b' ', banks.value(Bank::Sha256, pcr))?;
    out.extend_from_slice(b"\n")
}

// Prints the appended rules with their places, which follow those of the script's own rules.
pub fn push_appended(
    alloc: Global,
    out: &mut Vec<u8>,
    grows: bool,
    base: u64,
    rules: &[RuleEntry],
) -> Result<(), OutOfMemory>
    ensures { OnOk result (out.new.items
        ≡ out.old.items ++ text_of (appended_lines grows base rules.now)) }
{
    if !grows {
        return Ok(());
    }
    push_numbered(out, b"appended", rules.len() as u64)?;
    out.extend_from_slice(b"\n")?;
    push_rules(alloc, out, base, rules)
}

fn push_rules(
    alloc: Global,
    out: &mut Vec<u8>,
    base: u64,
    rules: &[RuleEntry],
) -> Result<(), OutOfMemory>
    ensures { OnOk result (out.new.items
        ≡ out.old.items ++ text_of (rule_lines base rules.now)) }
{
    for (place, entry) in rules.iter().enumerate() {
        push_rule(alloc, out, u128::from(base) + place as u128, entry)?;
    }
    Ok(())
}

fn push_rule(
    alloc: Global,
    out: &mut Vec<u8>,
    place: u128,
    entry: &RuleEntry,
) -> Result<(), OutOfMemory>
    ensures { OnOk result (out.new.items
        ≡ out.old.items ++ line_text (rule_line place entry.now)) }
{
    out.extend_from_slice(b"rule ")?;
    out.extend_from_slice(Buffer::new().format(place).as_bytes())?;
    out.extend_from_slice(b" ")?;
    push_who(out, entry.who)?;
    out.extend_from_slice(b" ")?;
    print_rule(alloc, &entry.rule, out)?;
    out.extend_from_slice(b"\n")
}
