ghost use Rattle.std.specs.Prelude.{◌≡◌, IfOk};

use std::alloc::{AllocError as OutOfMemory, Global};
use std::marker::Model;
use xattr_store::Bytes;

/// The new value of an attribute, or `None` for its removal, in memory of its own, so that it
/// doesn't enlarge the deeds and calls that have none. Contracts see the value.
pub struct BoxedValue {
    value: Box<Option<Bytes>>,
}

// Written out, so that the drop is proved here once, and not again in each crate above.
impl Drop for BoxedValue {
    fn drop(self) {
        let BoxedValue { value: _ } = self;
    }
}

impl Model for BoxedValue {
    ghost use Rattle.std.specs.Prelude.{ℕ, List, Option};

    ghost Value = { Option (List ℕ) };

    ghost view = { λ b. b.value.value };
}

impl BoxedValue {
    /// Moves the value to memory of its own.
    pub fn new(alloc: Global, value: Option<Bytes>) -> Result<BoxedValue, OutOfMemory>
        ensures { IfOk result (λ b. b ≡ value) }
    {
        let value = Box::new(alloc, value)?;
        Ok(BoxedValue { value })
    }

    /// The new value, or `None` for a removal.
    pub fn get(&self) -> &Option<Bytes>
        ensures { result.now ≡ self.now }
    {
        &*self.value
    }
}
