//! The words of a line, as many as they have to be.

ghost use Rattle.std.specs.Prelude.{◌≡◌, map, option_map};
ghost use Rattle.std.specs.Option.{option_copied};
ghost use Rattle.text_forms.specs.Tokens.{is_filled};
ghost use Rattle.script_words.specs.Forms.{after_key_by, id_of};
ghost use Rattle.script_fields.specs.FileFields.{two};
ghost use Rattle.script_fields.specs.SettingFields.{one};
ghost use Rattle.script_fields.specs.SuperFields.{name_of};

use script_words::id_of;
use text_forms::is_word;

/// Whether there are any words.
pub fn is_filled(words: &[&[u8]]) -> bool
    ensures { result ≡ is_filled (map (λ w. w.now) words.now) }
{
    match words {
        [] => false,
        _ => true,
    }
}

/// The word, if there is exactly one.
pub fn one<'a>(fields: &[&'a [u8]]) -> Option<&'a [u8]>
    ensures { option_copied result ≡ one (map (λ w. w.now) fields.now) }
{
    match fields {
        [word] => Some(word),
        _ => None,
    }
}

/// The two words, if there are exactly two.
pub fn two<'a>(fields: &[&'a [u8]]) -> Option<(&'a [u8], &'a [u8])>
    ensures { option_map (λ w. (w.0.now, w.1.now)) result ≡ two (map (λ w. w.now) fields.now) }
{
    match fields {
        [a, b] => Some((a, b)),
        _ => None,
    }
}

/// The name of an attribute: 1 to 255 visible bytes.
pub fn name_of(text: &[u8]) -> Option<&[u8]>
    ensures { option_copied result ≡ name_of text.now }
{
    if is_word(text, 255) { Some(text) } else { None }
}

/// The number of a user or a group, or a generation, after its key.
pub fn id_after(key: &[u8], text: &[u8]) -> Option<u32>
    ensures { result ≡ after_key_by id_of key.now text.now }
{
    id_of(text.strip_prefix(key)?)
}
