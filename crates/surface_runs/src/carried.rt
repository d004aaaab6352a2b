// A measurement list that goes from one boot into the next.

ghost use Rattle.std.specs.Prelude.{◌-◌, ◌<◌, ◌≤◌, ◌^◌, length};
ghost use Rattle.list_carry.specs.Form.{IsCarried};

use crate::inode::EntryPass;
use script_text::LineCause;
use std::alloc::Global;

// ---- list_carry

pub fn types(fault: list_carry::CarryFault, err: list_carry::CarryErr) {
    let _: u32 = fault.line;
    match fault.cause {
        list_carry::CarryLine::Line(cause) => {
            let _: LineCause = cause;
        }
        list_carry::CarryLine::Carried(cause) => {
            let _: list_carry::CarryCause = cause;
        }
    }
    match err {
        list_carry::CarryErr::Refused(
            list_carry::CarryCause::Header
            | list_carry::CarryCause::Short
            | list_carry::CarryCause::Trailing
            | list_carry::CarryCause::Record
            | list_carry::CarryCause::Twice,
        )
        | list_carry::CarryErr::OutOfMemory => {}
    }
}

pub fn carry_cause_word(cause: list_carry::CarryCause) -> &'static str {
    list_carry::CarryCause::word(cause)
}

pub fn carry_parse(
    alloc: Global,
    b: &[u8],
) -> Result<list_carry::CarryText, list_carry::CarryTextErr>
    requires { length b.now < 2 ^ 32 - 1 }
{
    list_carry::parse(alloc, b)
}

// "The fields of a carry text are handed out by a call": contracts see its digest as 32 bytes.
pub fn carry_text_into_parts(
    text: list_carry::CarryText,
) -> (
    Option<list_carry::Carried>,
    hash_algos::Digest,
    Vec<(xattr_store::Bytes, xattr_store::Bytes)>,
) {
    list_carry::CarryText::into_parts(text)
}

pub fn carry_load(alloc: Global, b: &[u8]) -> Result<list_carry::Carried, list_carry::CarryErr> {
    list_carry::load(alloc, b)
}

pub fn carry_save(
    list: &[ima_templates::Entry],
    out: &mut Vec<u8>,
) -> Result<(), list_carry::OutOfMemory>
    requires { IsCarried list.now }
{
    list_carry::save(list, out)
}

pub fn carry_resume(
    list: list_carry::Carried,
) -> Result<(measure_book::Book, EntryPass), list_carry::OutOfMemory> {
    list_carry::resume(list)
}

pub fn carry_on(
    alloc: Global,
    carried: Option<list_carry::Carried>,
    entries: Vec<ima_templates::Entry>,
) -> Result<(Vec<ima_templates::Entry>, pcr_bank::Banks), list_carry::OutOfMemory>
    requires { 1 ≤ length entries.items }
{
    list_carry::carry_on(alloc, carried, entries)
}
