// Changes of attributes, and the attributes that would result from them.

ghost use Rattle.std.specs.Prelude.{◌≡◌, IfOk};
ghost use Rattle.std.specs.Option.{option_copied};
ghost use Rattle.xattr_store.specs.Attrs.{changed, value};

use crate::attrs::Attrs;
use crate::bytes::Bytes;
use std::alloc::{AllocError as OutOfMemory, Global};
use std::marker::Model;

/// A change of one attribute: a new value, or its removal.
#[derive(Clone, Copy)]
pub struct NewValue<'a> {
    /// The name of the attribute to change.
    pub name: &'a [u8],
    /// The new value, or `None` if the attribute is to be removed.
    pub value: Option<&'a [u8]>,
}

impl NewValue<'_> {
    // Copies of the name and of the value: all the memory that the change needs.
    pub(crate) fn copied(self, alloc: Global) -> Result<(Bytes, Option<Bytes>), OutOfMemory>
        ensures name { IfOk result (λ r. r.0 ≡ self.entry.name.now) }
        ensures value { IfOk result (λ r. r.1 ≡ option_copied self.entry.value) }
    {
        let value = match self.value {
            Some(bytes) => Some(Bytes::from_slice(alloc, bytes)?),
            None => None,
        };
        Ok((Bytes::from_slice(alloc, self.name)?, value))
    }
}

/// The attributes of an inode as they are, or as a change would leave them. Contracts see the list
/// of pairs of name and value.
#[derive(Drop)]
pub struct After<'a> {
    attrs: &'a Attrs,
    change: Option<NewValue<'a>>,
}

impl<'a> Model for After<'a> {
    ghost use Rattle.std.specs.Prelude.{List};
    ghost use Rattle.xattr_store.specs.Attrs.{Pair};
    ghost use Rattle.xattr_store.specs.Changes.{after};

    ghost Value = { List Pair };

    ghost view = { λ a. after a.change a.attrs.now };
}

impl<'a> After<'a> {
    /// The attributes unchanged.
    pub fn none(attrs: &'a Attrs) -> After<'a>
        ensures { result ≡ attrs.now }
    {
        After {
            attrs,
            change: None,
        }
    }

    /// The attributes as `change` would leave them.
    pub fn change(attrs: &'a Attrs, change: NewValue<'a>) -> After<'a>
        ensures { result ≡ changed change.entry.name.now (option_copied change.entry.value)
            attrs.now }
    {
        After {
            attrs,
            change: Some(change),
        }
    }

    /// The value of the attribute `name`; `None` exactly if there is no such attribute.
    pub fn get(&self, name: &[u8]) -> Option<&[u8]>
        ensures { option_copied result ≡ value name.now self.now }
    {
        match self.change {
            Some(change) => self.attrs.get_after(change, name),
            None => self.attrs.get(name),
        }
    }
}
