// Sets of texts, kept in byte order.

ghost use Rattle.std.specs.Prelude.{◌≡◌, ◌≤◌, length, IfSome, OnOk};
ghost use Rattle.order_outcomes.specs.Sets.{place_for, with_text};

use std::alloc::AllocError as OutOfMemory;
use std::cmp::Ordering;
use xattr_store::Bytes;

// The place at which the text goes into the set, or `None` if it is there already.
fn place_for(texts: &[Bytes], text: &[u8]) -> Option<usize>
    ensures place { result ≡ place_for text.now texts.now }
    ensures within { IfSome result (λ place. place ≤ length texts.now) }
{
    for (place, other) in texts.iter().enumerate() {
        match text.cmp(other.as_slice()) {
            Ordering::Less => return Some(place),
            Ordering::Equal => return None,
            Ordering::Greater => {}
        }
    }
    Some(texts.len())
}

/// Adds the text to the set, unless it is there already.
pub fn add_text(texts: &mut Vec<Bytes>, text: Bytes) -> Result<(), OutOfMemory>
    ensures { OnOk result (texts.new.items ≡ with_text text texts.old.items) }
{
    if let Some(place) = place_for(texts.as_slice(), text.as_slice()) {
        texts.insert(place, text)?;
    }
    Ok(())
}
