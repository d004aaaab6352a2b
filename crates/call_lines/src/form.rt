//! The forms of one word, each read by one function.

ghost use Rattle.std.specs.Prelude.{◌≡◌, ok_or};
ghost use Rattle.script_words.specs.Gives.{LineGives};
ghost use Rattle.call_lines.specs.Form.{mapping_of};

use crate::paths::Paths;
use call_steps::events::BoxedBytes;
use script_words::{
    LineCause, LineErr, descriptor_of, id_of, mode_of, offset_of, portion_of, small_of, value_of,
};
use std::alloc::Global;
use text_forms::{is_path, is_word, look_up};
use xattr_store::Bytes;

/// The form of a word.
pub trait Form {
    ghost use Rattle.std.specs.Prelude.{ℕ, List, Result};
    ghost use Rattle.script_words.specs.declared.fault.LineCause.{LineCause};

    /// What a word of the form says.
    type Value: Drop;

    /// What the word says, if the files have these paths, or the cause for which its line is
    /// refused.
    ghost read: { List (List ℕ) → List ℕ → Result Self.Value LineCause };

    /// Reads a word of the form.
    fn read(alloc: Global, paths: &Paths, word: &[u8]) -> Result<Self::Value, LineErr>
        ensures { LineGives result (read paths.now word.now) };
}

/// What a word says, if it has its form.
pub(crate) fn formed<T: Drop>(value: Option<T>) -> Result<T, LineErr>
    ensures { LineGives result (ok_or value LineCause.BadField) }
{
    match value {
        Some(value) => Ok(value),
        None => Err(LineErr::Refused(LineCause::BadField)),
    }
}

/// A descriptor.
pub struct Descriptor;

impl Form for Descriptor {
    ghost use Rattle.call_lines.specs.Form as spec;

    type Value = u8;

    ghost read = { (spec.form spec.Form.Descriptor).read };

    fn read(_alloc: Global, _paths: &Paths, word: &[u8]) -> Result<u8, LineErr> {
        formed(descriptor_of(word))
    }
}

/// The number of a map, a run or a semaphore.
pub struct Small;

impl Form for Small {
    ghost use Rattle.call_lines.specs.Form as spec;

    type Value = u8;

    ghost read = { (spec.form spec.Form.Small).read };

    fn read(_alloc: Global, _paths: &Paths, word: &[u8]) -> Result<u8, LineErr> {
        formed(small_of(word))
    }
}

/// An offset or a length.
pub struct Offset;

impl Form for Offset {
    ghost use Rattle.call_lines.specs.Form as spec;

    type Value = u64;

    ghost read = { (spec.form spec.Form.Offset).read };

    fn read(_alloc: Global, _paths: &Paths, word: &[u8]) -> Result<u64, LineErr> {
        formed(offset_of(word))
    }
}

/// The length of one read.
pub struct Portion;

impl Form for Portion {
    ghost use Rattle.call_lines.specs.Form as spec;

    type Value = u64;

    ghost read = { (spec.form spec.Form.Portion).read };

    fn read(_alloc: Global, _paths: &Paths, word: &[u8]) -> Result<u64, LineErr> {
        formed(portion_of(word))
    }
}

/// A mode.
pub struct Mode;

impl Form for Mode {
    ghost use Rattle.call_lines.specs.Form as spec;

    type Value = u16;

    ghost read = { (spec.form spec.Form.Mode).read };

    fn read(_alloc: Global, _paths: &Paths, word: &[u8]) -> Result<u16, LineErr> {
        formed(mode_of(word))
    }
}

/// The number of a user or a group.
pub struct Id;

impl Form for Id {
    ghost use Rattle.call_lines.specs.Form as spec;

    type Value = u32;

    ghost read = { (spec.form spec.Form.Id).read };

    fn read(_alloc: Global, _paths: &Paths, word: &[u8]) -> Result<u32, LineErr> {
        formed(id_of(word))
    }
}

/// How a descriptor is mapped: for execution, or only for reading.
pub struct Mapping;

impl Form for Mapping {
    ghost use Rattle.call_lines.specs.Form as spec;

    type Value = bool;

    ghost read = { (spec.form spec.Form.Mapping).read };

    fn read(_alloc: Global, _paths: &Paths, word: &[u8]) -> Result<bool, LineErr> {
        formed(mapping_of(word))
    }
}

// Whether a descriptor is mapped for execution, by the word for it.
const MAPPINGS: [(&[u8], bool); 2] = [(b"read", false), (b"exec", true)];

fn mapping_of(word: &[u8]) -> Option<bool>
    ensures { result ≡ mapping_of word.now }
{
    look_up(&MAPPINGS, word)
}

/// The name of an attribute: 1 to 255 visible bytes.
pub struct Name;

impl Form for Name {
    ghost use Rattle.call_lines.specs.Form as spec;

    type Value = BoxedBytes;

    ghost read = { (spec.form spec.Form.Name).read };

    fn read(alloc: Global, _paths: &Paths, word: &[u8]) -> Result<BoxedBytes, LineErr> {
        if !is_word(word, 255) {
            return Err(LineErr::Refused(LineCause::BadField));
        }
        Ok(BoxedBytes::from_slice(alloc, word)?)
    }
}

/// Bytes, at least `LEAST` and at most `MOST` of them.
pub struct Value<const LEAST: usize, const MOST: usize>;

impl<const LEAST: usize, const MOST: usize> Form for Value<LEAST, MOST> {
    ghost use Rattle.call_lines.specs.Form as spec;

    type Value = Bytes;

    ghost read = { (spec.form (spec.Form.Bytes LEAST MOST)).read };

    fn read(alloc: Global, _paths: &Paths, word: &[u8]) -> Result<Bytes, LineErr> {
        value_of(alloc, word, LEAST, MOST)
    }
}

/// The path of a file, which says the file's number.
pub struct Path;

impl Form for Path {
    ghost use Rattle.call_lines.specs.Form as spec;

    type Value = u32;

    ghost read = { (spec.form spec.Form.Path).read };

    fn read(_alloc: Global, paths: &Paths, word: &[u8]) -> Result<u32, LineErr> {
        if !is_path(word) {
            return Err(LineErr::Refused(LineCause::BadField));
        }
        Ok(paths.place(word).ok_or(LineCause::Unknown)?)
    }
}
