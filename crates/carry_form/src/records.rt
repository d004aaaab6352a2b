// Reading records.

ghost use Rattle.std.specs.Prelude.{◌≡◌, IfOk, option_copied, option_map};
ghost use Rattle.carry_form.specs.Reading.{Takes, flag_by, parts_in, parts_of, record_in, records_in, six_then, template_by};

use crate::cut::sized_in;
use crate::entries::entry_in;
use byteorder::{ByteOrder, LittleEndian};
use ima_templates::Entry;
use inode_meta::Template;
use std::alloc::{AllocError as OutOfMemory, Global};

/// The parts of a record, and the bytes after the record.
#[derive(Clone, Copy)]
pub(crate) struct Parts<'a> {
    pub(crate) violation: bool,
    pub(crate) pcr: u32,
    pub(crate) template: Template,
    /// The template data.
    pub(crate) bytes: &'a [u8],
    pub(crate) rest: &'a [u8],
}

/// The entries of this number of records; `None` exactly if the bytes aren't the records of as many
/// valid entries and nothing else. No memory is taken for the number itself.
pub(crate) fn records_in(
    alloc: Global,
    count: u64,
    bytes: &[u8],
) -> Result<Option<Vec<Entry>>, OutOfMemory>
    ensures { IfOk result (λ o. option_map (λ v. v.items) o ≡ records_in count bytes.now) }
{
    let mut list = Vec::new(alloc);
    let mut rest = bytes;
    let mut left = count;
    while left > 0 {
        match take_record(alloc, &mut list, rest)? {
            Some(after) => rest = after,
            None => return Ok(None),
        }
        left -= 1;
    }
    if rest.is_empty() {
        Ok(Some(list))
    } else {
        Ok(None)
    }
}

// Appends the entry of the first record to the list, and returns the bytes after the record; `None`
// if the bytes don't begin with a record of a valid entry.
#[tactic(auto, unfolding(crate::specs::Reading::record_in))]
fn take_record<'a>(
    alloc: Global,
    list: &mut Vec<Entry>,
    bytes: &'a [u8],
) -> Result<Option<&'a [u8]>, OutOfMemory>
    ensures { IfOk result (λ rest. Takes list.old.items list.new.items (option_copied rest)
        (record_in bytes.now)) }
{
    let Some(parts) = parts_in(bytes) else {
        return Ok(None);
    };
    match entry_in(
        alloc,
        parts.pcr,
        parts.template,
        parts.violation,
        parts.bytes,
    )? {
        Some(entry) => {
            list.push(entry)?;
            Ok(Some(parts.rest))
        }
        None => Ok(None),
    }
}

// The parts of the first record: a byte for a violation, the register in 4 bytes, a byte for the
// template, and the template data after their length in 4 bytes.
fn parts_in(bytes: &[u8]) -> Option<Parts<'_>>
    ensures { option_map parts_of result ≡ parts_in bytes.now }
{
    if bytes.len() < 6 {
        return None;
    }
    let pcr = LittleEndian::read_u32(&bytes[1..]);
    six_then(bytes[0], pcr, bytes[5], &bytes[6..])
}

// The parts of a record with this first byte, this register, this sixth byte and these bytes after
// them.
fn six_then(first: u8, pcr: u32, sixth: u8, bytes: &[u8]) -> Option<Parts<'_>>
    ensures { option_map parts_of result ≡ six_then first pcr sixth bytes.now }
{
    let violation = flag_by(first)?;
    let template = template_by(sixth)?;
    let (data, rest) = sized_in(bytes)?;
    Some(Parts {
        violation,
        pcr,
        template,
        bytes: data,
        rest,
    })
}

fn flag_by(number: u8) -> Option<bool>
    ensures { result ≡ flag_by number }
{
    match number {
        0 => Some(false),
        1 => Some(true),
        _ => None,
    }
}

fn template_by(number: u8) -> Option<Template>
    ensures { result ≡ template_by number }
{
    match number {
        0 => Some(Template::Ima),
        1 => Some(Template::ImaNg),
        2 => Some(Template::ImaSig),
        3 => Some(Template::ImaBuf),
        _ => None,
    }
}
