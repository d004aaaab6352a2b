// The command `carry`: the measurement list that goes on from the one that an earlier boot left.
ghost use Rattle.std.specs.Prelude.{◌≡◌, ◌∷◌, ◌++◌, ◌≤◌, length, IfOk, OnOk, map};
ghost use Rattle.measure_book.specs.Replay.{banks_of};
ghost use Rattle.list_carry.specs.Form.{IsCarried};
ghost use Rattle.ima_top.specs.Answered.{Answers};
ghost use Rattle.ima_top.specs.Limits.{most_input};
ghost use Rattle.ima_top.specs.commands.Carry.{bad_carry_line, carried_list, carry_refusal, carry_text, entries_in, form_line, IsCarryOutput};

use crate::commands::entries::entries_of;
use crate::not_done::NotDone;
use ima_templates::Entry;
use list_carry::{Carried, CarryFault, CarryText, CarryTextErr, carry_on, parse, save};
use list_format::append_hex;
use measure_book::registers::Banks;
use report_text::{push_entries, push_registers};
use std::alloc::{AllocError as OutOfMemory, Global};

/// The list of this boot after the carried one, its registers and its carried form, or the line
/// that names the first fault of the carry text.
#[tactic(auto, unfolding(crate::specs::commands::Carry::carry_refusal, crate::specs::commands::Carry::IsCarryOutput))]
pub fn answer(alloc: Global, input: &[u8]) -> Result<Vec<u8>, NotDone>
    requires { length input.now ≤ most_input }
    ensures { Answers result (carry_refusal input.now)
        (λ output. IsCarryOutput input.now output.items) }
{
    match parse(alloc, input) {
        Ok(text) => {
            let (list, banks) = carried_list(alloc, text)?;
            Ok(carry_text(alloc, &list, &banks)?)
        }
        Err(CarryTextErr::Refused(fault)) => Err(NotDone::Refused(bad_carry_line(alloc, fault)?)),
        Err(CarryTextErr::OutOfMemory) => Err(NotDone::OutOfMemory),
    }
}

// The fault as a line `line L: CAUSE`.
fn bad_carry_line(alloc: Global, fault: CarryFault) -> Result<Vec<u8>, OutOfMemory>
    ensures { IfOk result (λ line. line.items ≡ bad_carry_line fault) }
{
    let line = format!(in alloc; "line {}: {}\n", fault.line, fault.cause)?;
    Ok(line.into_bytes())
}

// The whole list and its registers.
fn carried_list(alloc: Global, text: CarryText) -> Result<(Vec<Entry>, Banks), OutOfMemory>
    ensures list { IfOk result (λ r. r.0.items ≡ carried_list text) }
    ensures banks { IfOk result (λ r. r.1 ≡ banks_of r.0.items) }
    ensures carried { IfOk result (λ r. IsCarried r.0.items) }
{
    let (carried, entries) = entries_in(alloc, text)?;
    carry_on(alloc, carried, entries)
}

// The carried list, and the entries that this boot adds.
fn entries_in(alloc: Global, text: CarryText) -> Result<(Option<Carried>, Vec<Entry>), OutOfMemory>
    ensures carried { IfOk result (λ r. r.0 ≡ text.carried) }
    ensures entries { IfOk result (λ r. r.1.items ≡ entries_in text) }
    ensures some { IfOk result (λ r. 1 ≤ length r.1.items) }
{
    let (carried, boot, files) = text.into_parts();
    let entries = entries_of(alloc, &boot, &files)?;
    Ok((carried, entries))
}

fn carry_text(alloc: Global, list: &[Entry], banks: &Banks) -> Result<Vec<u8>, OutOfMemory>
    requires banks { banks.now ≡ banks_of list.now }
    requires carried { IsCarried list.now }
    ensures { IfOk result (λ text. text.items ≡ carry_text list.now) }
{
    let mut text = Vec::new(alloc);
    push_entries(&mut text, list)?;
    push_registers(&mut text, list, banks)?;
    push_form(alloc, &mut text, list)?;
    Ok(text)
}

// Prints the carried form of the list, as the line that the text of the next boot has.
fn push_form(alloc: Global, text: &mut Vec<u8>, list: &[Entry]) -> Result<(), OutOfMemory>
    requires { IsCarried list.now }
    ensures { OnOk result (text.new.items ≡ text.old.items ++ form_line list.now) }
{
    let mut form = Vec::new(alloc);
    save(list, &mut form)?;
    text.extend_from_slice(b"carried hex")?;
    append_hex(text, b':', form.as_slice())?;
    text.push(b'\n')?;
    Ok(())
}
