// The values of attributes that calls give and labels have, and copies of what a file has.
ghost use Rattle.std.specs.Prelude.{◌≡◌, Some, IfOk};
ghost use Rattle.std.specs.Option.{option_copied};
ghost use Rattle.inode_events.specs.Listing.{signature_in};
ghost use Rattle.inode_events.specs.Says.{is_no_label, is_too_long};

use inode_events::{BoxedValue, Image};
use inode_pages::Content;
use std::alloc::{AllocError as OutOfMemory, Global};
use xattr_store::{Attrs, Bytes, MAX_VALUE};

// The highest type of a label that the kernel knows.
const LAST_TYPE: u8 = 6;

/// Whether the value has more bytes than an attribute may have.
pub fn is_too_long(value: &Option<Bytes>) -> bool
    ensures { result ≡ is_too_long value.now }
{
    match value {
        None => false,
        Some(bytes) => bytes.as_slice().len() > MAX_VALUE,
    }
}

fn is_no_label_bytes(bytes: &[u8]) -> bool
    ensures { result ≡ is_no_label (Some bytes.now) }
{
    match bytes {
        [] => true,
        [kind, ..] => *kind > LAST_TYPE,
    }
}

/// Whether the value has no type of a label that the kernel knows.
pub fn is_no_label(value: &Option<Bytes>) -> bool
    ensures { result ≡ is_no_label value.now }
{
    match value {
        None => false,
        Some(bytes) => is_no_label_bytes(bytes.as_slice()),
    }
}

/// The value in its own memory.
pub fn copied(alloc: Global, value: Option<&[u8]>) -> Result<BoxedValue, OutOfMemory>
    ensures { IfOk result (λ copy. copy ≡ option_copied value.entry) }
{
    let copy = match value {
        None => None,
        Some(bytes) => Some(Bytes::from_slice(alloc, bytes)?),
    };
    BoxedValue::new(alloc, copy)
}

/// Copies of the path and of the image's content and attributes.
pub fn copies(
    alloc: Global,
    path: &[u8],
    image: &Image,
) -> Result<(Bytes, Content, Attrs), OutOfMemory>
    ensures { IfOk result (λ r. (r.0 ≡ path.now)
        × ((r.1 ≡ image.now.content) × (r.2 ≡ image.now.attrs))) }
{
    let content = image.content.share(alloc)?;
    let attrs = image.attrs.copy()?;
    let path = Bytes::from_slice(alloc, path)?;
    Ok((path, content, attrs))
}

/// The label, if it is a signature; otherwise no bytes.
pub fn signature_in(label: Option<&[u8]>) -> &[u8]
    ensures { result.now ≡ signature_in (option_copied label.entry) }
{
    match label {
        Some(bytes) => match bytes.first() {
            Some(3 | 6) => bytes,
            _ => &[],
        },
        None => &[],
    }
}
