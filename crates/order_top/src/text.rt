// The text of rows.

ghost use Rattle.std.specs.Prelude.{◌≡◌, ◌∷◌, ◌++◌, ◌^◌, ◌≤◌, codes, IfOk, MatchOption, OnOk};
ghost use Rattle.std.specs.List.{flat_map};
ghost use Rattle.order_runs.specs.outcomes.reports.Numerals.{numeral};
ghost use Rattle.order_top.specs.Text.{head_text, row_text, table_text, total_count, turns_text};

use order_runs::Row;
use report_text::push_number;
use std::alloc::{AllocError as OutOfMemory, Global};

fn push_count(alloc: Global, out: &mut Vec<u8>, count: u128) -> Result<(), OutOfMemory>
    ensures { OnOk result (out.new.items ≡ out.old.items ++ numeral count) }
{
    let digits = format!(in alloc; "{}", count)?;
    out.extend_from_slice(digits.as_bytes())?;
    Ok(())
}

fn push_turns(out: &mut Vec<u8>, turns: &[u32]) -> Result<(), OutOfMemory>
    ensures { OnOk result (out.new.items ≡ out.old.items ++ turns_text turns.now) }
{
    for task in turns {
        out.push(b' ')?;
        push_number(out, u64::from(*task))?;
    }
    Ok(())
}

// Prints a schedule: the first turns, and those that follow.
fn push_schedule(out: &mut Vec<u8>, first: &[u32], rest: &[u32]) -> Result<(), OutOfMemory>
    ensures { OnOk result (out.new.items ≡ out.old.items ++ codes "\nschedule"
        ++ turns_text first.now ++ turns_text rest.now ++ codes "\n") }
{
    out.extend_from_slice(b"\nschedule")?;
    push_turns(out, first)?;
    push_turns(out, rest)?;
    out.extend_from_slice(b"\n")
}

fn push_row(alloc: Global, out: &mut Vec<u8>, first: &[u32], row: &Row) -> Result<(), OutOfMemory>
    ensures { OnOk result (out.new.items ≡ out.old.items ++ row_text first.now row.now) }
{
    out.extend_from_slice(b"outcome ")?;
    push_count(alloc, out, row.counted.count)?;
    push_schedule(out, first, row.counted.order.as_slice())?;
    out.extend_from_slice(row.outcome.as_slice())
}

fn push_rows(
    alloc: Global,
    out: &mut Vec<u8>,
    first: &[u32],
    rows: &[Row],
) -> Result<(), OutOfMemory>
    ensures { OnOk result
        (out.new.items ≡ out.old.items ++ flat_map (row_text first.now) rows.now) }
{
    for row in rows {
        push_row(alloc, out, first, row)?;
    }
    Ok(())
}

/// The number of all orders, if it has at most 128 bits.
pub fn total_of(rows: &[Row]) -> Option<u128>
    ensures { MatchOption result (2 ^ 128 ≤ total_count rows.now)
        (λ total. total ≡ total_count rows.now) }
{
    let mut total = 0u128;
    for row in rows {
        total = total.checked_add(row.counted.count)?;
    }
    Some(total)
}

fn push_head(alloc: Global, out: &mut Vec<u8>, total: u128, rows: &[Row]) -> Result<(), OutOfMemory>
    requires { total ≡ total_count rows.now }
    ensures { OnOk result (out.new.items ≡ out.old.items ++ head_text rows.now) }
{
    out.extend_from_slice(b"imakern orders 1\norders ")?;
    push_count(alloc, out, total)?;
    out.extend_from_slice(b" outcomes ")?;
    push_number(out, rows.len() as u64)?;
    out.extend_from_slice(b"\n")?;
    Ok(())
}

/// The text of the rows, which have `total` orders together, all with the same first turns.
pub fn table_text(
    alloc: Global,
    total: u128,
    first: &[u32],
    rows: &[Row],
) -> Result<Vec<u8>, OutOfMemory>
    requires { total ≡ total_count rows.now }
    ensures { IfOk result (λ text. text.items ≡ table_text first.now rows.now) }
{
    let mut out = Vec::new(alloc);
    push_head(alloc, &mut out, total, rows)?;
    push_rows(alloc, &mut out, first, rows)?;
    out.extend_from_slice(b"end\n")?;
    Ok(out)
}
