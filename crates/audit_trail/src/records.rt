// The records of a check, as they are printed.

ghost use Rattle.std.specs.Prelude.{◌≡◌, ◌+◌, ◌≤◌, ◌∷◌, ◌++◌, length, vec_len, IfOk, OnOk};
ghost use Rattle.world_model.specs.model.events.forms.Words.{text_of};
ghost use Rattle.audit_trail.specs.Texts.{check_text, front_text};
ghost use Rattle.audit_trail.specs.Trail.{audit_line, hash_line, if_line, label_word, lines_of};

use crate::site::Site;
use hash_algos::Digest;
use inode_events::labels::{MAX_LABEL, write_label};
use inode_meta::Who;
use list_format::{append_hex, append_named_digest};
use report_text::{push_number, push_numbers, push_who};
use std::alloc::AllocError as OutOfMemory;

// Prints the place of a check after the number of its inode: `.K TASK.CALL.STEP`.
fn push_place(out: &mut Vec<u8>, place: u64, who: Who) -> Result<(), OutOfMemory>
    ensures { OnOk result (out.new.items ≡ out.old.items ++ check_text place who) }
{
    out.extend_from_slice(b".")?;
    push_number(out, place)?;
    out.extend_from_slice(b" ")?;
    push_who(out, who)
}

// Prints a record up to its value: the word, the check, the line and the path.
fn push_front(
    out: &mut Vec<u8>,
    word: &[u8],
    site: &Site<'_>,
    place: u64,
    who: Who,
    line: u64,
) -> Result<(), OutOfMemory>
    ensures { OnOk result (out.new.items ≡ out.old.items ++ front_text word.now
        site.now.number place who line site.now.file.now.path) }
{
    push_numbers(out, word, &[site.number])?;
    push_place(out, place, who)?;
    push_numbers(out, b" line", &[line])?;
    out.extend_from_slice(b" ")?;
    out.extend_from_slice(site.file.path.as_slice())
}

// Prints a space and the label of the digest in hexadecimal.
fn push_label(out: &mut Vec<u8>, digest: &Digest) -> Result<(), OutOfMemory>
    ensures { OnOk result (out.new.items ≡ out.old.items ++ 32 ∷ label_word digest.now) }
{
    let mut label = [0; MAX_LABEL];
    let len = write_label(digest, &mut label);
    append_hex(out, b' ', &label[..len])
}

// Prints the record of the family `audit`, if there is a line, and returns how many were printed.
fn push_audit(
    out: &mut Vec<u8>,
    site: &Site<'_>,
    place: u64,
    who: Who,
    digest: &Digest,
    line: Option<usize>,
) -> Result<u64, OutOfMemory>
    ensures text { IfOk result (λ n. out.new.items ≡ out.old.items ++ text_of (if_line
        (audit_line site.now.number place who site.now.file.now.path digest.now) line)) }
    ensures count { IfOk result (λ n. n ≡ length (if_line
        (audit_line site.now.number place who site.now.file.now.path digest.now) line)) }
    ensures grows { IfOk result (λ n. vec_len out.old + n ≤ vec_len out.new) }
{
    let Some(line) = line else {
        return Ok(0);
    };
    push_front(out, b"audit", site, place, who, line as u64)?;
    append_named_digest(digest, out)?;
    out.extend_from_slice(b"\n")?;
    Ok(1)
}

// Prints the record of the family `hash`, if there is a line, and returns how many were printed.
fn push_hash(
    out: &mut Vec<u8>,
    site: &Site<'_>,
    place: u64,
    who: Who,
    digest: &Digest,
    line: Option<usize>,
) -> Result<u64, OutOfMemory>
    ensures text { IfOk result (λ n. out.new.items ≡ out.old.items ++ text_of (if_line
        (hash_line site.now.number place who site.now.file.now.path digest.now) line)) }
    ensures count { IfOk result (λ n. n ≡ length (if_line
        (hash_line site.now.number place who site.now.file.now.path digest.now) line)) }
    ensures grows { IfOk result (λ n. vec_len out.old + n ≤ vec_len out.new) }
{
    let Some(line) = line else {
        return Ok(0);
    };
    push_front(out, b"hash", site, place, who, line as u64)?;
    push_label(out, digest)?;
    out.extend_from_slice(b"\n")?;
    Ok(1)
}

// Prints the records of a check, by the lines of the two families that ask for one, and returns how
// many were printed.
pub fn push_records(
    out: &mut Vec<u8>,
    site: &Site<'_>,
    place: u64,
    who: Who,
    digest: &Digest,
    lines: (Option<usize>, Option<usize>),
) -> Result<u64, OutOfMemory>
    ensures text { IfOk result (λ n. out.new.items ≡ out.old.items ++ text_of (lines_of
        site.now.number place who site.now.file.now.path digest.now lines.0 lines.1)) }
    ensures count { IfOk result (λ n. n ≡ length (lines_of
        site.now.number place who site.now.file.now.path digest.now lines.0 lines.1)) }
    ensures grows { IfOk result (λ n. vec_len out.old + n ≤ vec_len out.new) }
{
    let audits = push_audit(out, site, place, who, digest, lines.0)?;
    let hashes = push_hash(out, site, place, who, digest, lines.1)?;
    Ok(audits + hashes)
}
