// The blocks of files.

ghost use Rattle.std.specs.Prelude.{◌≡◌, ◌++◌, codes, flat_map, OnOk};
ghost use Rattle.call_lines.specs.Lines.{line_text, lines_text, spaced};
ghost use Rattle.call_lines.specs.Form.{hex_text};
ghost use Rattle.script_spelling.specs.Spelling.{attr_line, content_words, file_line, file_lines, kind_word, meta_words};

use crate::pushed::{push_hex, push_number, push_octal, push_value, push_word};
use inode_events::Image;
use inode_meta::Meta;
use inode_pages::Content;
use script_text::FileBlock;
use std::alloc::AllocError as OutOfMemory;
use xattr_store::Bytes;

pub fn push_files(out: &mut Vec<u8>, files: &[FileBlock]) -> Result<(), OutOfMemory>
    ensures { OnOk result (
        out.new.items ≡ out.old.items ++ flat_map (λ f. lines_text (file_lines f)) files.now) }
{
    for file in files {
        push_file(out, file)?;
    }
    Ok(())
}

fn push_file(out: &mut Vec<u8>, file: &FileBlock) -> Result<(), OutOfMemory>
    ensures { OnOk result (out.new.items ≡ out.old.items ++ lines_text (file_lines file.now)) }
{
    push_front(out, file)?;
    push_attrs(out, file.image.attrs.as_slice())
}

fn push_front(out: &mut Vec<u8>, file: &FileBlock) -> Result<(), OutOfMemory>
    ensures { OnOk result (out.new.items ≡ out.old.items ++ line_text (file_line file.now)) }
{
    out.extend_from_slice(kind_word(file.image.present))?;
    push_word(out, file.path.as_slice())?;
    push_number(out, b" fs=", u64::from(file.fs))?;
    push_meta(out, &file.image.meta)?;
    push_content(out, &file.image)?;
    out.push(b'\n')?;
    Ok(())
}

fn kind_word(present: bool) -> &'static [u8]
    ensures { result.now ≡ kind_word present }
{
    if present { b"file" } else { b"absent" }
}

fn push_meta(out: &mut Vec<u8>, meta: &Meta) -> Result<(), OutOfMemory>
    ensures { OnOk result (out.new.items ≡ out.old.items ++ spaced (meta_words meta.now)) }
{
    push_number(out, b" ino=", meta.ino)?;
    push_number(out, b" gen=", u64::from(meta.generation))?;
    push_number(out, b" uid=", u64::from(meta.uid))?;
    push_number(out, b" gid=", u64::from(meta.gid))?;
    push_octal(out, b" mode=", meta.mode)
}

fn push_content(out: &mut Vec<u8>, image: &Image) -> Result<(), OutOfMemory>
    ensures { OnOk result (out.new.items ≡ out.old.items ++ spaced (content_words image.now)) }
{
    if image.present {
        push_pages(out, &image.content)?;
    }
    Ok(())
}

// Appends the word `content=hex:` with the bytes of a content, page by page.
fn push_pages(out: &mut Vec<u8>, content: &Content) -> Result<(), OutOfMemory>
    ensures { OnOk result (
        out.new.items ≡ out.old.items ++ (codes " content=" ++ hex_text content.now)) }
{
    let pages = content.pages();
    out.extend_from_slice(b" content=hex:")?;
    for page in pages {
        push_hex(out, page.as_slice())?;
    }
    Ok(())
}

fn push_attrs(out: &mut Vec<u8>, attrs: &[(Bytes, Bytes)]) -> Result<(), OutOfMemory>
    ensures { OnOk result (
        out.new.items ≡ out.old.items ++ flat_map (λ a. line_text (attr_line a)) attrs.now) }
{
    for attr in attrs {
        push_attr(out, attr.0.as_slice(), attr.1.as_slice())?;
    }
    Ok(())
}

fn push_attr(out: &mut Vec<u8>, name: &[u8], bytes: &[u8]) -> Result<(), OutOfMemory>
    ensures { OnOk result (
        out.new.items ≡ out.old.items ++ line_text (attr_line (name.now, bytes.now))) }
{
    out.extend_from_slice(b"attr ")?;
    out.extend_from_slice(name)?;
    push_value(out, b" ", bytes)?;
    out.push(b'\n')?;
    Ok(())
}
