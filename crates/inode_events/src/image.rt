ghost use Rattle.std.specs.Prelude.{◌≡◌, IfOk};

use inode_meta::Meta;
use inode_pages::Content;
use std::alloc::{AllocError as OutOfMemory, Global};
use std::marker::Model;
use xattr_store::Attrs;

/// An inode as its script describes it.
#[derive(Drop)]
pub struct Image {
    /// Whether the file exists. An absent one is created by an open with `create`.
    pub present: bool,
    /// The content of the file, as pages.
    pub content: Content,
    /// The extended attributes, in byte order of their names.
    pub attrs: Attrs,
    /// The metadata that EVM covers.
    pub meta: Meta,
    /// Whether the file system has change versions (`STATX_CHANGE_COOKIE`). Without them each close
    /// by the last writer counts as a change.
    pub versions: bool,
}

/// An image in memory of its own, so that it doesn't enlarge the events that have none. Contracts
/// see the image.
pub struct BoxedImage {
    image: Box<Image>,
}

// Written out, so that the drop is proved here once, and not again in each crate above.
impl Drop for BoxedImage {
    fn drop(self) {
        let BoxedImage { image: _ } = self;
    }
}

impl Model for BoxedImage {
    ghost use Rattle.inode_events.specs.declared.image.Image.{Image as AnyImage};

    ghost Value = { AnyImage };

    ghost view = { λ b. b.image.value };
}

impl BoxedImage {
    /// Moves the image to memory of its own.
    pub fn new(alloc: Global, image: Image) -> Result<BoxedImage, OutOfMemory>
        ensures { IfOk result (λ b. b ≡ image) }
    {
        let image = Box::new(alloc, image)?;
        Ok(BoxedImage { image })
    }

    /// The image, borrowed.
    pub fn get(&self) -> &Image
        ensures { result.now ≡ self.now }
    {
        &*self.image
    }
}
