//! The words of the line of a file system.

ghost use Rattle.std.specs.Prelude.{◌≡◌, codes, map, ok_or};
ghost use Rattle.std.specs.Option.{option_copied};
ghost use Rattle.text_forms.specs.FileSystems.{magic_of, uuid_of};
ghost use Rattle.script_words.specs.declared.fault.LineCause.TheVariants as cause;
ghost use Rattle.script_words.specs.Forms.{after_key_by};
ghost use Rattle.script_words.specs.Gives.{LineGives};
ghost use Rattle.script_fields.specs.SuperFields.{name_of, super_in, super_of, versions_of};

use policy_rules::Super;
use script_words::{LineCause, LineErr};
use std::alloc::Global;
use text_forms::{is_word, magic_of, uuid_of};
use xattr_store::Bytes;

/// The file system in the words `magic=MAGIC uuid=UUID name=WORD versions`, or the same with
/// `noversions`.
pub fn super_in(alloc: Global, fields: &[&[u8]]) -> Result<Super, LineErr>
    ensures { LineGives result (ok_or (super_in (map (λ w. w.now) fields.now)) cause.BadField) }
{
    let [magic, uuid, name, versions] = fields else {
        return Err(LineErr::Refused(LineCause::BadField));
    };
    super_of(alloc, magic, uuid, name, versions)
}

fn super_of(
    alloc: Global,
    magic: &[u8],
    uuid: &[u8],
    name: &[u8],
    versions: &[u8],
) -> Result<Super, LineErr>
    ensures { LineGives result
        (ok_or (super_of magic.now uuid.now name.now versions.now) cause.BadField) }
{
    if let Some(magic) = magic_after(magic)
        && let Some(uuid) = uuid_after(uuid)
        && let Some(name) = name_after(name)
        && let Some(versions) = versions_of(versions)
    {
        let name = Bytes::from_slice(alloc, name)?;
        Ok(Super {
            magic,
            uuid,
            name,
            versions,
        })
    } else {
        Err(LineErr::Refused(LineCause::BadField))
    }
}

fn magic_after(text: &[u8]) -> Option<u64>
    ensures { result ≡ after_key_by magic_of (codes "magic=") text.now }
{
    magic_of(text.strip_prefix(b"magic=")?)
}

fn uuid_after(text: &[u8]) -> Option<u128>
    ensures { result ≡ after_key_by uuid_of (codes "uuid=") text.now }
{
    uuid_of(text.strip_prefix(b"uuid=")?)
}

fn name_after(text: &[u8]) -> Option<&[u8]>
    ensures { option_copied result ≡ after_key_by name_of (codes "name=") text.now }
{
    let name = text.strip_prefix(b"name=")?;
    if is_word(name, 255) { Some(name) } else { None }
}

fn versions_of(word: &[u8]) -> Option<bool>
    ensures { result ≡ versions_of word.now }
{
    if word == b"versions".as_slice() {
        Some(true)
    } else if word == b"noversions".as_slice() {
        Some(false)
    } else {
        None
    }
}
