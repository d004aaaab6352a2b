// Changes of attributes and metadata.
ghost use Rattle.std.specs.Prelude.{◌≡◌, ◌≤◌, ◌+◌, false, is_some, List, Some, IfOk, OnErr};
ghost use Rattle.std.specs.Option.{option_copied};
ghost use Rattle.ima_templates.specs.declared.entry.Entry.{Entry as AnyEntry};
ghost use Rattle.inode_events.specs.Integrity.{collecting};
ghost use Rattle.inode_events.specs.NewestFirst.{newest_first};
ghost use Rattle.inode_events.specs.Says.{is_no_label, is_too_long, set_attr_told, set_meta_told};
ghost use Rattle.inode_cell.specs.Acts.{Acts, Stays};
ghost use Rattle.inode_answers.specs.Answers.{set_told};

use crate::cell::InodeCell;
use grow_list::Pass;
use inode_answers::{Set, by_status, copied, is_no_label, is_too_long, set_outcome};
use inode_events::{BoxedBytes, BoxedValue, Change, Deed, Event, Told};
use inode_meta::{Cred, EvmStatus, Who};
use inode_state::Facts;
use std::alloc::{AllocError as OutOfMemory, Global};
use xattr_store::{Bytes, EVM_NAME, IMA_NAME, MAX_VALUE};

impl InodeCell {
    // The result of a change of an attribute if no collection is open: the first refusal that
    // applies, or else done.
    fn attr_answer(&self, name: &[u8], value: &Option<Bytes>, admin: bool) -> Set
        ensures { set_told result ≡ Some (set_attr_told self.now.inode name.now value.now admin
            (newest_first self.now.list)) }
    {
        let is_label = name == IMA_NAME;
        if !self.is_present() {
            Set::NotFound
        } else if name == EVM_NAME {
            Set::EvmName
        } else if is_label && !admin {
            Set::NotAdmin
        } else if is_too_long(value) {
            Set::TooLong
        } else if is_label && is_no_label(value) {
            Set::Invalid
        } else if value.is_none() && self.attrs.get(name).is_none() {
            Set::NoData
        } else {
            let evm = &self.kept.settings().evm;
            by_status(evm.may_change(name, &self.attrs, &self.meta(), self.is_new()))
        }
    }

    // The result of a change of mode or owner if no collection is open.
    fn meta_answer(&self) -> Set
        ensures { set_told result
            ≡ Some (set_meta_told self.now.inode (newest_first self.now.list)) }
    {
        if self.is_present() {
            let evm = &self.kept.settings().evm;
            by_status(evm.may_set_meta(&self.attrs, &self.meta()))
        } else {
            Set::NotFound
        }
    }

    /// Changes the mode or the owner and group, and renews the HMAC.
    pub fn set_meta(
        &mut self,
        pass: &mut Pass<Event>,
        who: Who,
        change: Change,
    ) -> Result<Set, OutOfMemory>
        requires name { pass.old.name ≡ self.old.journal }
        requires number { pass.old.number ≡ who.task + 1 }
        ensures acts { IfOk result (λ s. (list : List AnyEntry)
            → Acts self.old self.new list list pass.old pass.new who (Deed.SetMeta change)
            (set_told s)) }
        ensures err { OnErr result (Stays self.old self.new pass.old pass.new) }
    {
        if self.is_collecting() {
            self.block(pass);
            return Ok(Set::Blocked);
        }
        self.reserve()?;
        match self.meta_answer() {
            Set::Done => {
                let deed = Deed::SetMeta { change };
                self.step_with(pass, who, deed, Told::Done, &Facts::nothing(), None)?;
                Ok(Set::Done)
            }
            refusal => {
                let facts = Facts::nothing();
                self.step(
                    pass,
                    who,
                    Deed::SetMeta { change },
                    set_outcome(refusal),
                    &facts,
                );
                Ok(refusal)
            }
        }
    }

    /// Sets an attribute, or removes it if `value` is `None`. The HMAC is renewed if EVM protects
    /// the name.
    pub fn set_attr(
        &mut self,
        pass: &mut Pass<Event>,
        who: Who,
        cred: &Cred,
        name: &[u8],
        value: Option<&[u8]>,
    ) -> Result<Set, OutOfMemory>
        requires name { pass.old.name ≡ self.old.journal }
        requires number { pass.old.number ≡ who.task + 1 }
        ensures acts { IfOk result (λ s. (list : List AnyEntry)
            → Acts self.old self.new list list pass.old pass.new who (Deed.SetAttr name.now
            (option_copied value.entry) cred.now.admin) (set_told s)) }
        ensures err { OnErr result (Stays self.old self.new pass.old pass.new) }
    {
        if self.is_collecting() {
            self.block(pass);
            return Ok(Set::Blocked);
        }
        self.reserve()?;
        let name = BoxedBytes::from_slice(self.alloc, name)?;
        let value = copied(self.alloc, value)?;
        self.set_free(pass, who, name, value, cred.admin)
    }

    // Sets or removes an attribute in room that was reserved, while no collection is open.
    fn set_free(
        &mut self,
        pass: &mut Pass<Event>,
        who: Who,
        name: BoxedBytes,
        value: BoxedValue,
        admin: bool,
    ) -> Result<Set, OutOfMemory>
        requires name { pass.old.name ≡ self.old.journal }
        requires number { pass.old.number ≡ who.task + 1 }
        requires room { 1 ≤ self.old.spare }
        requires free { is_some (collecting self.old.inode (newest_first self.old.list)) ≡ false }
        ensures acts { IfOk result (λ s. (list : List AnyEntry)
            → Acts self.old self.new list list pass.old pass.new who (Deed.SetAttr name value
            admin) (set_told s)) }
        ensures err { OnErr result (Stays self.old self.new pass.old pass.new) }
    {
        match self.attr_answer(name.as_slice(), value.get(), admin) {
            Set::Done => {
                let deed = Deed::SetAttr { name, value, admin };
                self.step_with(pass, who, deed, Told::Done, &Facts::nothing(), None)?;
                Ok(Set::Done)
            }
            refusal => {
                let deed = Deed::SetAttr { name, value, admin };
                self.step(pass, who, deed, set_outcome(refusal), &Facts::nothing());
                Ok(refusal)
            }
        }
    }
}
