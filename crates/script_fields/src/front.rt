//! The words of the lines of files.

ghost use Rattle.std.specs.Prelude.{◌≡◌, codes, map, ok_or, option_map};
ghost use Rattle.std.specs.Option.{option_copied};
ghost use Rattle.script_words.specs.declared.fault.LineCause.TheVariants as cause;
ghost use Rattle.script_words.specs.Forms.{after_key_by, ino_of, mode_of};
ghost use Rattle.script_words.specs.Gives.{LineGives};
ghost use Rattle.script_fields.specs.FileFields.{content_of, file_in, front_in, front_of, numeral_of, path_of};
ghost use Rattle.script_fields.specs.FrontView.{front_view};

use crate::words::id_after;
use inode_pages::Content;
use script_words::{LineCause, LineErr, content_of, ino_of, mode_of};
use std::alloc::Global;
use text_forms::{is_path, is_short_numeral};

/// The words that `file` and `absent` share. The number of the file system may have any length.
#[derive(Drop)]
pub struct Front<'a> {
    pub path: &'a [u8],
    pub fs: &'a [u8],
    pub ino: u64,
    pub generation: u32,
    pub uid: u32,
    pub gid: u32,
    pub mode: u16,
}

/// The words that `file` and `absent` share, if there are no others.
pub fn front_in<'a>(fields: &[&'a [u8]]) -> Option<Front<'a>>
    ensures { option_map front_view result ≡ front_in (map (λ w. w.now) fields.now) }
{
    let [path, fs, ino, generation, uid, gid, mode] = fields else {
        return None;
    };
    front_of(path, fs, ino, generation, uid, gid, mode)
}

/// The words of `file`: those that it shares with `absent`, and the content.
pub fn file_in<'a>(fields: &[&'a [u8]]) -> Option<(Front<'a>, &'a [u8])>
    ensures { option_map (λ f. (front_view f.0, f.1.now)) result
        ≡ file_in (map (λ w. w.now) fields.now) }
{
    let Some((content, front)) = fields.split_last() else {
        return None;
    };
    let front = front_in(front)?;
    Some((front, *content))
}

fn front_of<'a>(
    path: &'a [u8],
    fs: &'a [u8],
    ino: &[u8],
    generation: &[u8],
    uid: &[u8],
    gid: &[u8],
    mode: &[u8],
) -> Option<Front<'a>>
    ensures { option_map front_view result ≡ front_of path.now fs.now ino.now generation.now uid.now
        gid.now mode.now }
{
    if let Some(path) = path_of(path)
        && let Some(fs) = numeral_after(fs)
        && let Some(ino) = ino_after(ino)
        && let Some(generation) = id_after(b"gen=", generation)
        && let Some(uid) = id_after(b"uid=", uid)
        && let Some(gid) = id_after(b"gid=", gid)
        && let Some(mode) = mode_after(mode)
    {
        Some(Front {
            path,
            fs,
            ino,
            generation,
            uid,
            gid,
            mode,
        })
    } else {
        None
    }
}

fn path_of(text: &[u8]) -> Option<&[u8]>
    ensures { option_copied result ≡ path_of text.now }
{
    if is_path(text) { Some(text) } else { None }
}

fn numeral_after(text: &[u8]) -> Option<&[u8]>
    ensures { option_copied result ≡ after_key_by numeral_of (codes "fs=") text.now }
{
    let number = text.strip_prefix(b"fs=")?;
    if is_short_numeral(number, 10) {
        Some(number)
    } else {
        None
    }
}

fn ino_after(text: &[u8]) -> Option<u64>
    ensures { result ≡ after_key_by ino_of (codes "ino=") text.now }
{
    ino_of(text.strip_prefix(b"ino=")?)
}

fn mode_after(text: &[u8]) -> Option<u16>
    ensures { result ≡ after_key_by mode_of (codes "mode=") text.now }
{
    mode_of(text.strip_prefix(b"mode=")?)
}

/// The content of a file, after its key.
pub fn content_after(alloc: Global, text: &[u8]) -> Result<Content, LineErr>
    ensures { LineGives result
        (ok_or (after_key_by content_of (codes "content=") text.now) cause.BadField) }
{
    match text.strip_prefix(b"content=") {
        Some(value) => content_of(alloc, value),
        None => Err(LineErr::Refused(LineCause::BadField)),
    }
}
