ghost use Rattle.std.specs.Option.{option_copied};
ghost use Rattle.std.specs.Prelude.{◌≡◌, IfOk, OnErr, OnOk};
ghost use Rattle.xattr_store.specs.Attrs.{Fits, changed};
ghost use Rattle.evm_verify.specs.Changes.{allows_attr, allows_meta, may_change, may_set_meta, protects};
ghost use Rattle.evm_verify.specs.Status.{compared, evm_status, is_blank, renewed};
ghost use Rattle.evm_verify.specs.Input.{evm_input, evm_value, old_input};

use crate::input::{HMAC_TYPE, VALUE_LEN, value_of};
use crate::names::{any_present, any_present_after, is_among, protected_names};
use inode_meta::{EvmStatus, Meta};
use std::alloc::{AllocError as OutOfMemory, Global};
use std::marker::Model;
use xattr_store::{After, Attrs, Bytes, EVM_NAME, NewValue};

// The number of names that are always protected.
const FIVE: usize = 5;

/// EVM under a script's settings. Contracts see its key, the added names and the format.
pub struct Evm {
    key: Option<Bytes>,
    // The five fixed names, followed by the added ones.
    names: Vec<Bytes>,
    format: u8,
}

// Written out, so that the drop is proved here once, and not again in each crate above.
impl Drop for Evm {
    fn drop(self) {
        let Evm {
            key: _,
            names: _,
            format: _,
        } = self;
    }
}

impl Model for Evm {
    ghost use Rattle.std.specs.Prelude.{◌≡◌, drop, take};
    ghost use Rattle.evm_verify.specs.Input.{five_names};
    ghost use Rattle.evm_verify.specs.Setup.{Setup};

    ghost Value = { Setup };

    ghost view = { λ e. record { key = e.key; added = drop 5 e.names.items; format = e.format } };

    ghost invariant = { λ e. take 5 e.names.items ≡ five_names };
}

// Whether the value is absent or has the form of an HMAC.
fn is_blank(value: Option<&[u8]>) -> bool
    ensures { result ≡ is_blank (option_copied value.entry) }
{
    match value {
        None => true,
        Some(bytes) => bytes.len() == VALUE_LEN && bytes[0] == HMAC_TYPE,
    }
}

// Whether EVM lets a call change a protected attribute of an inode with this status.
fn allows_attr(status: EvmStatus, new: bool) -> bool
    ensures { result ≡ allows_attr status new }
{
    match status {
        EvmStatus::Pass | EvmStatus::Unknown => true,
        EvmStatus::NoXattrs => new,
        EvmStatus::NoLabel | EvmStatus::Fail | EvmStatus::Old => false,
    }
}

// Whether EVM lets a call change the mode or the owner of an inode with this status.
fn allows_meta(status: EvmStatus) -> bool
    ensures { result ≡ allows_meta status }
{
    match status {
        EvmStatus::Pass | EvmStatus::Unknown | EvmStatus::NoXattrs => true,
        EvmStatus::NoLabel | EvmStatus::Fail | EvmStatus::Old => false,
    }
}

impl Evm {
    /// EVM with its key, if there is one, the names that are protected in addition to the kernel's
    /// five, in the order in which they were added, and the format of the HMAC's message: 1, or 2
    /// with the file system's UUID.
    pub fn new(
        alloc: Global,
        key: Option<&[u8]>,
        added: &[Bytes],
        format: u8,
    ) -> Result<Evm, OutOfMemory>
        ensures { IfOk result (λ evm. evm
            ≡ record { key = option_copied key.entry; added = added.now; format = format }) }
    {
        let key = match key {
            Some(bytes) => Some(Bytes::from_slice(alloc, bytes)?),
            None => None,
        };
        let names = protected_names(alloc, added)?;
        Ok(Evm { key, names, format })
    }

    /// A copy with equal settings, in its own memory.
    pub fn copy(&self) -> Result<Evm, OutOfMemory>
        ensures { IfOk result (λ copy. copy ≡ self.now) }
    {
        let key = match &self.key {
            Some(bytes) => Some(bytes.as_slice()),
            None => None,
        };
        let alloc = *self.names.allocator();
        Evm::new(alloc, key, &self.names[FIVE..], self.format)
    }

    /// Whether the name is a protected attribute.
    pub fn protects(&self, name: &[u8]) -> bool
        ensures { result ≡ protects self.now name.now }
    {
        is_among(name, &self.names)
    }

    // The right value of `security.evm` for the inode as it is.
    fn value_now(&self, key: &[u8], attrs: &Attrs, meta: &Meta) -> [u8; VALUE_LEN]
        ensures { result ≡ evm_value key.now (evm_input self.now attrs.now meta.now) }
    {
        self.value_after(key, &After::none(attrs), meta)
    }

    // The right value of `security.evm` for the attributes as they are, or as a change would leave
    // them.
    fn value_after(&self, key: &[u8], attrs: &After<'_>, meta: &Meta) -> [u8; VALUE_LEN]
        ensures { result ≡ evm_value key.now (evm_input self.now attrs.now meta.now) }
    {
        value_of(key, &self.names, self.format, attrs, meta)
    }

    // The value of `security.evm` in the older form: the five names only, and no UUID.
    fn value_old(&self, key: &[u8], attrs: &Attrs, meta: &Meta) -> [u8; VALUE_LEN]
        ensures { result ≡ evm_value key.now (old_input attrs.now meta.now) }
    {
        value_of(key, &self.names[..FIVE], 1, &After::none(attrs), meta)
    }

    /// The EVM status of an inode: whether `security.evm` is the HMAC of its protected attributes
    /// and metadata as they are, is the HMAC in the older form, is missing or doesn't match, or
    /// whether there is nothing to protect or no key.
    pub fn status(&self, attrs: &Attrs, meta: &Meta) -> EvmStatus
        ensures { result ≡ evm_status self.now attrs.now meta.now }
    {
        let Some(key) = &self.key else {
            return EvmStatus::Unknown;
        };
        let value = attrs.hmac();
        if !any_present(&self.names, attrs) && is_blank(value) {
            EvmStatus::NoXattrs
        } else {
            self.compared(key.as_slice(), value, attrs, meta)
        }
    }

    // The status by the value of `security.evm`, if there are protected attributes or the value
    // doesn't have the form of an HMAC.
    fn compared(&self, key: &[u8], value: Option<&[u8]>, attrs: &Attrs, meta: &Meta) -> EvmStatus
        ensures { result ≡ compared (option_copied value.entry)
            (evm_value key.now (evm_input self.now attrs.now meta.now))
            (evm_value key.now (old_input attrs.now meta.now)) }
    {
        let Some(bytes) = value else {
            return EvmStatus::NoLabel;
        };
        if bytes == self.value_now(key, attrs, meta).as_slice() {
            EvmStatus::Pass
        } else if bytes == self.value_old(key, attrs, meta).as_slice() {
            EvmStatus::Old
        } else {
            EvmStatus::Fail
        }
    }

    /// Recomputes the HMAC, or removes `security.evm` if no protected attribute is left. Without a
    /// key nothing changes. If memory runs out, the attributes don't change.
    pub fn renew(&self, attrs: &mut Attrs, meta: &Meta) -> Result<(), OutOfMemory>
        ensures ok { OnOk result (attrs.new ≡ renewed self.now attrs.old meta.now) }
        ensures err { OnErr result (attrs.new ≡ attrs.old) }
    {
        let Some(key) = &self.key else {
            return Ok(());
        };
        if !any_present(&self.names, attrs) {
            let _ = attrs.remove(EVM_NAME);
            return Ok(());
        }
        let value = self.value_now(key.as_slice(), attrs, meta);
        match attrs.set(EVM_NAME, &value) {
            Ok(()) => Ok(()),
            // The error must be memory: a value of 21 bytes is never too long.
            Err(_) => Err(OutOfMemory),
        }
    }

    /// Applies the change and then renews the HMAC as [`Evm::renew`] does, or does neither: if
    /// memory runs out, the attributes don't change.
    pub fn change(
        &self,
        attrs: &mut Attrs,
        change: NewValue<'_>,
        meta: &Meta,
    ) -> Result<(), OutOfMemory>
        requires fits { Fits (option_copied change.value) }
        ensures ok { OnOk result (attrs.new ≡ renewed self.now
            (changed change.entry.name.now (option_copied change.entry.value) attrs.old) meta.now) }
        ensures err { OnErr result (attrs.new ≡ attrs.old) }
    {
        let Some(key) = &self.key else {
            return attrs.change(change);
        };
        let after = After::change(attrs, change);
        if !any_present_after(&self.names, &after) {
            let gone = NewValue {
                name: EVM_NAME,
                value: None,
            };
            return attrs.change_both(change, gone);
        }
        let value = self.value_after(key.as_slice(), &after, meta);
        let renewed = NewValue {
            name: EVM_NAME,
            value: Some(&value),
        };
        attrs.change_both(change, renewed)
    }

    /// Whether a call may change the attribute. It is refused, with the status, exactly if the name
    /// is protected and the status is neither Pass, nor Unknown, nor NoXattrs on a new file.
    pub fn may_change(
        &self,
        name: &[u8],
        attrs: &Attrs,
        meta: &Meta,
        new: bool,
    ) -> Result<(), EvmStatus>
        ensures { result ≡ may_change self.now name.now attrs.now meta.now new }
    {
        if !self.protects(name) {
            return Ok(());
        }
        let status = self.status(attrs, meta);
        if allows_attr(status, new) {
            Ok(())
        } else {
            Err(status)
        }
    }

    /// Whether a call may change the mode or the owner. It is refused, with the status, exactly if
    /// the status is NoLabel, Fail or Old.
    pub fn may_set_meta(&self, attrs: &Attrs, meta: &Meta) -> Result<(), EvmStatus>
        ensures { result ≡ may_set_meta self.now attrs.now meta.now }
    {
        let status = self.status(attrs, meta);
        if allows_meta(status) {
            Ok(())
        } else {
            Err(status)
        }
    }
}
