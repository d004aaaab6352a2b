ghost use Rattle.std.specs.Prelude.{◌≡◌, ◌<◌, ◌↔◌, [], IfOk, IsErr, IsErrOf, OnErr, OnOk, length, slice_get};
ghost use Rattle.std.specs.Option.{option_copied, option_map};
ghost use Rattle.xattr_store.specs.declared.attrs.SetErr.TheVariants.{OutOfMemory};
ghost use Rattle.xattr_store.specs.Attrs.{Fits, changed, most_value, put, value, without};
ghost use Rattle.xattr_store.specs.Names.{evm_name, ima_name};

use crate::bytes::Bytes;
use crate::changes::NewValue;
use crate::names::{EVM_NAME, IMA_NAME};
use crate::places::{change_within, copy_of, find, put_value, value_in};
use std::alloc::{AllocError as OutOfMemory, Global};
use std::marker::Model;

/// The most bytes that the value of an attribute may have.
pub const MAX_VALUE: usize = 4096;

/// Why an attribute could not be set.
#[derive(Clone, Copy, Debug, PartialEq, Eq)]
pub enum SetErr {
    /// The value has more than [`MAX_VALUE`] bytes.
    TooLong,
    /// Memory ran out.
    OutOfMemory,
}

impl From<OutOfMemory> for SetErr {
    ghost from_gives = { λ _ e. e ≡ OutOfMemory };

    fn from(_want: OutOfMemory) -> SetErr {
        SetErr::OutOfMemory
    }
}

/// The error of a removal: there is no attribute of that name.
#[derive(Clone, Copy, Debug, PartialEq, Eq)]
pub struct NoData;

/// The extended attributes of an inode. Contracts see the list of pairs of name and value: the
/// names are distinct and in byte order, and each value has at most [`MAX_VALUE`] bytes.
pub struct Attrs {
    pairs: Vec<(Bytes, Bytes)>,
}

// Written out, so that the drop is proved here once, and not again in each crate above.
impl Drop for Attrs {
    fn drop(self) {
        let Attrs { pairs: _ } = self;
    }
}

impl Model for Attrs {
    ghost use Rattle.std.specs.Prelude.{List};
    ghost use Rattle.xattr_store.specs.Attrs.{Pair, IsAttrs};

    ghost Value = { List Pair };

    ghost view = { λ a. a.pairs.items };

    ghost invariant = { λ a. IsAttrs a.pairs.items };
}

impl Attrs {
    /// The empty set of attributes.
    pub fn new(alloc: Global) -> Attrs
        ensures { result ≡ [] }
    {
        Attrs {
            pairs: Vec::new(alloc),
        }
    }

    /// The value of the attribute `name`; `None` exactly if there is no such attribute.
    pub fn get(&self, name: &[u8]) -> Option<&[u8]>
        ensures { option_copied result ≡ value name.now self.now }
    {
        value_in(&self.pairs, name)
    }

    /// The file's label, the value of `security.ima`; `None` exactly if there is none.
    pub fn label(&self) -> Option<&[u8]>
        ensures { option_copied result ≡ value ima_name self.now }
    {
        self.get(IMA_NAME)
    }

    /// EVM's HMAC, the value of `security.evm`; `None` exactly if there is none.
    pub fn hmac(&self) -> Option<&[u8]>
        ensures { option_copied result ≡ value evm_name self.now }
    {
        self.get(EVM_NAME)
    }

    /// Sets the attribute `name` to `value`, replacing an older value. On an error the attributes
    /// don't change.
    pub fn set(&mut self, name: &[u8], value: &[u8]) -> Result<(), SetErr>
        ensures ok { OnOk result (self.new ≡ put name.now value.now self.old) }
        ensures too_long { IsErrOf result SetErr.TooLong ↔ (most_value < length value.now) }
        ensures err { OnErr result (self.new ≡ self.old) }
    {
        if value.len() > MAX_VALUE {
            return Err(SetErr::TooLong);
        }
        put_value(&mut self.pairs, name, value)?;
        Ok(())
    }

    /// Removes the attribute `name`; `NoData` exactly if there is none, and then the attributes
    /// don't change.
    pub fn remove(&mut self, name: &[u8]) -> Result<(), NoData>
        ensures ok { OnOk result (self.new ≡ without name.now self.old) }
        ensures no_data { IsErr result ↔ (value name.now self.old ≡ None) }
        ensures err { OnErr result (self.new ≡ self.old) }
    {
        match find(&self.pairs, name) {
            Ok(place) => {
                let _ = self.pairs.remove(place);
                Ok(())
            }
            Err(_) => Err(NoData),
        }
    }

    /// A law: the attribute `name`, if there is one, has a value of at most [`MAX_VALUE`] bytes.
    pub fn value_fits(&self, name: &[u8])
        ensures { Fits (value name.now self.now) }
    {
        let _ = self.pairs.as_slice();
    }

    /// The value that the attribute `name` would have after the change; `None` exactly if there
    /// would be no such attribute.
    pub fn get_after<'a>(&'a self, change: NewValue<'a>, name: &[u8]) -> Option<&'a [u8]>
        ensures { option_copied result ≡ value name.now
            (changed change.entry.name.now (option_copied change.entry.value) self.now) }
    {
        let pairs = self.pairs.as_slice();
        if change.name == name {
            change.value
        } else {
            value_in(pairs, name)
        }
    }

    /// Applies the change. If memory runs out, the attributes don't change.
    pub fn change(&mut self, change: NewValue<'_>) -> Result<(), OutOfMemory>
        requires fits { Fits (option_copied change.value) }
        ensures ok { OnOk result (self.new
            ≡ changed change.entry.name.now (option_copied change.entry.value) self.old) }
        ensures err { OnErr result (self.new ≡ self.old) }
    {
        let (name, value) = change.copied(*self.pairs.allocator())?;
        self.pairs.reserve(1)?;
        change_within(&mut self.pairs, name, value);
        Ok(())
    }

    /// Applies the first change and then the second, or neither: if memory runs out, the attributes
    /// don't change.
    pub fn change_both(
        &mut self,
        first: NewValue<'_>,
        second: NewValue<'_>,
    ) -> Result<(), OutOfMemory>
        requires fits { Fits (option_copied first.value) }
        requires second_fits { Fits (option_copied second.value) }
        ensures ok { OnOk result (self.new
            ≡ changed second.entry.name.now (option_copied second.entry.value)
            (changed first.entry.name.now (option_copied first.entry.value) self.old)) }
        ensures err { OnErr result (self.new ≡ self.old) }
    {
        let alloc = *self.pairs.allocator();
        let (name, value) = first.copied(alloc)?;
        let (second_name, second_value) = second.copied(alloc)?;
        self.pairs.reserve(2)?;
        change_within(&mut self.pairs, name, value);
        change_within(&mut self.pairs, second_name, second_value);
        Ok(())
    }

    /// A copy with equal names and values, in its own memory.
    pub fn copy(&self) -> Result<Attrs, OutOfMemory>
        ensures { IfOk result (λ copy. copy ≡ self.now) }
    {
        let alloc = *self.pairs.allocator();
        let mut pairs = Vec::with_capacity(alloc, self.pairs.len())?;
        for pair in self.pairs.iter() {
            pairs.push(copy_of(alloc, pair)?)?;
        }
        Ok(Attrs { pairs })
    }

    /// The pairs of name and value, in byte order of the names.
    pub fn as_slice(&self) -> &[(Bytes, Bytes)]
        ensures { result.now ≡ self.now }
    {
        self.pairs.as_slice()
    }

    /// The name and the value at index `k`, counted from 0; `None` exactly if there are no more
    /// than `k` attributes.
    pub fn at(&self, k: usize) -> Option<(&[u8], &[u8])>
        ensures { option_map (λ p. (p.0.now, p.1.now)) result ≡ slice_get self.now k }
    {
        match self.pairs.get(k) {
            Some(pair) => Some((pair.0.as_slice(), pair.1.as_slice())),
            None => None,
        }
    }
}
