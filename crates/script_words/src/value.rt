ghost use Rattle.std.specs.Prelude.{◌≡◌, ◌≤◌, length, ok_or, IfOk, replicate};
ghost use Rattle.std.specs.List.{list_all};
ghost use Rattle.text_forms.specs.Words.{is_visible};
ghost use Rattle.script_words.specs.declared.fault.LineCause.TheVariants as cause;
ghost use Rattle.script_words.specs.Gives.{VecGives, LineGives};
ghost use Rattle.inode_pages.specs.Content.{most_bytes};
ghost use Rattle.script_words.specs.Value.{any_value, byte_of, end_byte, fill_of, fill_value, fill_within, hex_value, hex_within, text_value, text_within, value_of, within};

use crate::fault::{LineCause, LineErr};
use hex::{FromHexError, decode};
use inode_pages::{Content, MOST_BYTES, PageErr};
use std::alloc::{AllocError as OutOfMemory, Global};
use text_forms::short_number_of;
use xattr_store::Bytes;

// The most bytes of a content.
const CONTENT: usize = MOST_BYTES as usize;

/// The bytes of a value, from `least` to `most` of them: `hex:` and two hexadecimal digits for each
/// byte; `txt:` and the bytes themselves, 0x21 to 0x7e; or `fill:NUM:BB`, NUM times the byte BB.
pub fn value_of(alloc: Global, text: &[u8], least: usize, most: usize) -> Result<Bytes, LineErr>
    ensures value { LineGives result (ok_or (value_of least most text.now) cause.BadField) }
    ensures sized { IfOk result (λ v. (least ≤ length v) × (length v ≤ most)) }
{
    let bytes = any_value(alloc, text, most)?;
    if bytes.len() < least || most < bytes.len() {
        return Err(LineErr::Refused(LineCause::BadField));
    }
    Ok(Bytes::from_vec(bytes))
}

/// The content of a value, of at most as many bytes as a file may have. The bytes of `fill:` are
/// never laid out one after another.
pub fn content_of(alloc: Global, text: &[u8]) -> Result<Content, LineErr>
    ensures { LineGives result (ok_or (value_of 0 most_bytes text.now) cause.BadField) }
{
    if let Some(digits) = text.strip_prefix(b"hex:") {
        return hex_content(alloc, digits);
    }
    if let Some(bytes) = text.strip_prefix(b"txt:") {
        return text_content(alloc, bytes);
    }
    if let Some(fill) = text.strip_prefix(b"fill:") {
        return fill_content(alloc, fill);
    }
    Err(LineErr::Refused(LineCause::BadField))
}

// The content of these bytes, if it is within the limit.
fn paged(alloc: Global, bytes: &[u8]) -> Result<Content, LineErr>
    ensures { LineGives result (ok_or (within 0 most_bytes bytes.now) cause.BadField) }
{
    match Content::from_slice(alloc, bytes) {
        Ok(content) => Ok(content),
        Err(PageErr::TooBig) => Err(LineErr::Refused(LineCause::BadField)),
        Err(PageErr::OutOfMemory) => Err(LineErr::OutOfMemory),
    }
}

fn hex_content(alloc: Global, digits: &[u8]) -> Result<Content, LineErr>
    ensures { LineGives result (ok_or (hex_within most_bytes digits.now) cause.BadField) }
{
    let bytes = hex_value(alloc, digits)?;
    paged(alloc, bytes.as_slice())
}

fn text_content(alloc: Global, bytes: &[u8]) -> Result<Content, LineErr>
    ensures { LineGives result (ok_or (text_within most_bytes bytes.now) cause.BadField) }
{
    if !is_text(bytes) {
        return Err(LineErr::Refused(LineCause::BadField));
    }
    paged(alloc, bytes)
}

fn fill_content(alloc: Global, fill: &[u8]) -> Result<Content, LineErr>
    ensures { LineGives result (ok_or (fill_within most_bytes fill.now) cause.BadField) }
{
    let (count, byte) = fill_of(fill, CONTENT).ok_or(LineCause::BadField)?;
    match Content::filled(alloc, count as u64, byte) {
        Ok(content) => Ok(content),
        Err(PageErr::TooBig) => Err(LineErr::Refused(LineCause::BadField)),
        Err(PageErr::OutOfMemory) => Err(LineErr::OutOfMemory),
    }
}

fn any_value(alloc: Global, text: &[u8], most: usize) -> Result<Vec<u8>, LineErr>
    ensures { VecGives result (ok_or (any_value most text.now) cause.BadField) }
{
    if let Some(digits) = text.strip_prefix(b"hex:") {
        return hex_value(alloc, digits);
    }
    if let Some(bytes) = text.strip_prefix(b"txt:") {
        return text_value(alloc, bytes);
    }
    if let Some(fill) = text.strip_prefix(b"fill:") {
        return fill_value(alloc, fill, most);
    }
    Err(LineErr::Refused(LineCause::BadField))
}

fn hex_value(alloc: Global, digits: &[u8]) -> Result<Vec<u8>, LineErr>
    ensures { VecGives result (ok_or (hex_value digits.now) cause.BadField) }
{
    match decode(alloc, digits) {
        Ok(bytes) => Ok(bytes),
        Err(FromHexError::OutOfMemory) => Err(LineErr::OutOfMemory),
        Err(_) => Err(LineErr::Refused(LineCause::BadField)),
    }
}

fn text_value(alloc: Global, bytes: &[u8]) -> Result<Vec<u8>, LineErr>
    ensures { VecGives result (ok_or (text_value bytes.now) cause.BadField) }
{
    if !is_text(bytes) {
        return Err(LineErr::Refused(LineCause::BadField));
    }
    Ok(bytes.to_vec(alloc)?)
}

fn is_text(bytes: &[u8]) -> bool
    ensures { result ≡ list_all is_visible bytes.now }
{
    bytes.iter().all(|b| (0x21..=0x7e).contains(b))
}

fn fill_value(alloc: Global, fill: &[u8], most: usize) -> Result<Vec<u8>, LineErr>
    ensures { VecGives result (ok_or (fill_value most fill.now) cause.BadField) }
{
    let (count, byte) = fill_of(fill, most).ok_or(LineCause::BadField)?;
    Ok(vec![in alloc; byte; count]?)
}

fn fill_of(fill: &[u8], most: usize) -> Option<(usize, u8)>
    ensures { result ≡ fill_of most fill.now }
{
    if fill.len() < 3 {
        return None;
    }
    let (digits, end) = fill.split_at(fill.len() - 3);
    let byte = end_byte(end)?;
    let count = short_number_of(digits, 10, most as u64)?;
    Some((count as usize, byte))
}

fn end_byte(end: &[u8]) -> Option<u8>
    ensures { result ≡ end_byte end.now }
{
    match end {
        [b':', high, low] => byte_of(*high, *low),
        _ => None,
    }
}

fn byte_of(high: u8, low: u8) -> Option<u8>
    ensures { result ≡ byte_of high low }
{
    let high = char::from(high).to_digit(16)?;
    let low = char::from(low).to_digit(16)?;
    Some((16 * high + low) as u8)
}
