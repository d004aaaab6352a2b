// The entry whose template data some bytes are.

ghost use Rattle.std.specs.Prelude.{◌≡◌, IfOk};
ghost use Rattle.std.specs.List.{list_all};
ghost use Rattle.ima_templates.specs.IsEntry.{IsEntry};
ghost use Rattle.carry_form.specs.Contents.{shown};
ghost use Rattle.carry_form.specs.Entries.{entry_in, entry_with, has_violations, is_graphic, is_name, is_valid, is_violation, most_name};

use crate::contents::{Contents, contents_in, is_zero};
use ima_templates::{Entry, restore};
use inode_meta::{DEFAULT_PCR, Template};
use std::alloc::{AllocError as OutOfMemory, Global};
use xattr_store::{Bytes, MAX_VALUE};

/// The entry of this register and template, a violation or not, whose template data these bytes
/// are; `None` exactly if there is no such entry.
#[tactic(auto, unfolding(crate::specs::Entries::entry_in))]
pub(crate) fn entry_in(
    alloc: Global,
    pcr: u32,
    template: Template,
    violation: bool,
    bytes: &[u8],
) -> Result<Option<Entry>, OutOfMemory>
    ensures { IfOk result (λ e. e ≡ entry_in pcr template violation bytes.now) }
{
    let Some(contents) = contents_in(template, bytes) else {
        return Ok(None);
    };
    if !is_valid(pcr, template, violation, &contents) {
        return Ok(None);
    }
    let entry = entry_with(alloc, pcr, template, violation, &contents)?;
    Ok(Some(entry))
}

// The entry with these contents.
fn entry_with(
    alloc: Global,
    pcr: u32,
    template: Template,
    violation: bool,
    contents: &Contents<'_>,
) -> Result<Entry, OutOfMemory>
    requires { IsEntry (entry_with pcr template violation (shown contents.now)) }
    ensures { IfOk result (λ e. e ≡ entry_with pcr template violation (shown contents.now)) }
{
    let name = Bytes::from_slice(alloc, contents.name)?;
    let sig = Bytes::from_slice(alloc, contents.sig)?;
    restore(pcr as u8, template, contents.digest, name, sig, violation)
}

// Whether an entry with these contents is valid.
fn is_valid(pcr: u32, template: Template, violation: bool, contents: &Contents<'_>) -> bool
    ensures { result ≡ is_valid pcr template violation (shown contents.now) }
{
    pcr < 24
        && is_name(template, contents.name)
        && contents.sig.len() <= MAX_VALUE
        && (!violation || is_violation(pcr, template, contents))
}

// Whether the contents are those of a violation.
fn is_violation(pcr: u32, template: Template, contents: &Contents<'_>) -> bool
    ensures { result ≡ is_violation pcr template (shown contents.now) }
{
    pcr == u32::from(DEFAULT_PCR)
        && is_zero(contents.digest.as_slice())
        && contents.sig.is_empty()
        && has_violations(template)
}

fn has_violations(template: Template) -> bool
    ensures { result ≡ has_violations template }
{
    match template {
        Template::Ima | Template::ImaNg | Template::ImaSig => true,
        Template::ImaBuf => false,
    }
}

// Whether an entry of the template can have the name.
fn is_name(template: Template, name: &[u8]) -> bool
    ensures { result ≡ is_name template name.now }
{
    1 <= name.len() && name.len() <= most_name(template) && is_graphic(name)
}

fn is_graphic(name: &[u8]) -> bool
    ensures { result ≡ list_all is_graphic name.now }
{
    name.iter().all(|b| (0x21..=0x7e).contains(b))
}

// The most bytes of a name.
fn most_name(template: Template) -> usize
    ensures { result ≡ most_name template }
{
    match template {
        Template::Ima => 255,
        Template::ImaNg | Template::ImaSig | Template::ImaBuf => 1024,
    }
}
