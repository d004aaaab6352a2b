// The section of the inodes: their heads, attributes and journals.

ghost use Rattle.std.specs.Prelude.{◌≡◌, [], ◌∷◌, ◌++◌, length, IfOk, OnOk, codes};
ghost use Rattle.report_events.specs.Numerals.{numeral};
ghost use Rattle.std.specs.List.{flat_map};
ghost use Rattle.text_forms.specs.Words.{text_of};
ghost use Rattle.report_text.specs.Report.{all_inode_lines, attr_line, force_word, inode_head, inode_lines};
ghost use Rattle.report_events.specs.Texts.{line_text};

use crate::pieces::cut;
use hash_algos::Digest;
use ima_io::Pieces;
use inode_events::EndedInode;
use inode_meta::Template;
use list_format::{append_hex, append_named_digest};
use report_events::{push_events, push_numbered};
use std::alloc::{AllocError as OutOfMemory, Global};
use xattr_store::{Attrs, Bytes};

pub fn push_inodes(
    out: &mut Vec<u8>,
    default: Template,
    grows: bool,
    inodes: &[EndedInode],
) -> Result<(), OutOfMemory>
    ensures { OnOk result (out.new.items
        ≡ out.old.items ++ text_of (all_inode_lines default grows 0 inodes.now)) }
{
    for (number, inode) in inodes.iter().enumerate() {
        push_inode(out, default, grows, number as u64, inode)?;
    }
    Ok(())
}

// Prints each inode and then drops it, so that its memory is free for the text.
pub fn push_inodes_in_pieces(
    alloc: Global,
    out: &mut Pieces,
    default: Template,
    grows: bool,
    inodes: Vec<EndedInode>,
) -> Result<(), OutOfMemory>
    ensures { OnOk result (out.new
        ≡ out.old ++ text_of (all_inode_lines default grows 0 inodes.items)) }
{
    let mut piece = Vec::new(alloc);
    let mut number = 0;
    for inode in inodes {
        piece = push_next(alloc, out, piece, default, grows, number, &inode)?;
        number += 1;
    }
    out.push(piece)?;
    Ok(())
}

// Prints an inode after the piece so far, and returns the text to go on with.
fn push_next(
    alloc: Global,
    out: &mut Pieces,
    piece: Vec<u8>,
    default: Template,
    grows: bool,
    number: u64,
    inode: &EndedInode,
) -> Result<Vec<u8>, OutOfMemory>
    ensures { IfOk result (λ rest. out.new ++ rest.items ≡ out.old
        ++ (piece.items ++ text_of (inode_lines default grows number inode.now))) }
{
    let mut piece = piece;
    push_inode(&mut piece, default, grows, number, inode)?;
    cut(alloc, out, piece)
}

fn push_inode(
    out: &mut Vec<u8>,
    default: Template,
    grows: bool,
    number: u64,
    inode: &EndedInode,
) -> Result<(), OutOfMemory>
    ensures { OnOk result (out.new.items
        ≡ out.old.items ++ text_of (inode_lines default grows number inode.now)) }
{
    let journal = inode.journal.as_slice();
    push_head(out, number, inode)?;
    push_force(out, &inode.force)?;
    push_attrs(out, &inode.attrs)?;
    push_numbered(out, b"events", journal.len() as u64)?;
    out.extend_from_slice(b"\n")?;
    push_events(out, default, grows, journal)
}

// Prints the head of an inode: its number, its path, and how many descriptors are still open on it.
fn push_head(out: &mut Vec<u8>, number: u64, inode: &EndedInode) -> Result<(), OutOfMemory>
    ensures { OnOk result (out.new.items
        ≡ out.old.items ++ line_text (inode_head number inode.now)) }
{
    push_numbered(out, b"inode", number)?;
    out.extend_from_slice(b" ")?;
    out.extend_from_slice(inode.path.as_slice())?;
    push_numbered(out, b" writers", inode.writers)?;
    push_numbered(out, b" readers", inode.readers)?;
    push_numbered(out, b" execs", inode.execs)?;
    out.extend_from_slice(b"\n")
}

// Prints the digest in force as `ALGO:HEX`, or `none`.
fn push_force(out: &mut Vec<u8>, force: &Option<Digest>) -> Result<(), OutOfMemory>
    ensures { OnOk result (out.new.items
        ≡ out.old.items ++ line_text (codes "force" ∷ force_word force.now ∷ [])) }
{
    let Some(digest) = force else {
        return out.extend_from_slice(b"force none\n");
    };
    out.extend_from_slice(b"force")?;
    append_named_digest(digest, out)?;
    out.extend_from_slice(b"\n")
}

fn push_attrs(out: &mut Vec<u8>, attrs: &Attrs) -> Result<(), OutOfMemory>
    ensures { OnOk result (out.new.items ≡ out.old.items
        ++ line_text (codes "attrs" ∷ numeral (length attrs.now) ∷ [])
        ++ flat_map (λ p. line_text (attr_line p)) attrs.now) }
{
    push_numbered(out, b"attrs", attrs.as_slice().len() as u64)?;
    out.extend_from_slice(b"\n")?;
    push_pairs(out, attrs.as_slice())
}

fn push_pairs(out: &mut Vec<u8>, pairs: &[(Bytes, Bytes)]) -> Result<(), OutOfMemory>
    ensures { OnOk result (out.new.items
        ≡ out.old.items ++ flat_map (λ p. line_text (attr_line p)) pairs.now) }
{
    for pair in pairs {
        push_attr(out, pair.0.as_slice(), pair.1.as_slice())?;
    }
    Ok(())
}

fn push_attr(out: &mut Vec<u8>, name: &[u8], value: &[u8]) -> Result<(), OutOfMemory>
    ensures { OnOk result (out.new.items
        ≡ out.old.items ++ line_text (attr_line (name.now, value.now))) }
{
    out.extend_from_slice(name)?;
    append_hex(out, b' ', value)?;
    out.extend_from_slice(b"\n")
}
