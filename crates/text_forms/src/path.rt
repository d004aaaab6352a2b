ghost use Rattle.std.specs.Prelude.{◌≡◌, ◌==◌};
ghost use Rattle.std.specs.List.{list_all, slice_split};
ghost use Rattle.text_forms.specs.Paths.{is_path};
ghost use Rattle.text_forms.specs.Words.{is_word};

use crate::word::is_word;

/// Whether the text is the path of a file: at most 1,024 bytes, and components of 1 to 255 visible
/// bytes, each after one slash. So it doesn't end with a slash.
pub fn is_path(text: &[u8]) -> bool
    ensures { result ≡ is_path text.now }
{
    match text {
        [b'/', parts @ ..] => text.len() <= 1024 && has_components(parts),
        _ => false,
    }
}

fn has_components(parts: &[u8]) -> bool
    ensures { result ≡ list_all (is_word 255) (slice_split (λ c. c == 47) parts.now) }
{
    for part in parts.split(|b| *b == b'/') {
        if !is_word(part, 255) {
            return false;
        }
    }
    true
}
