//! What a rule has, and the test of an access by each key of it.

ghost use Rattle.std.specs.Prelude.{◌≡◌, ◌==◌};
ghost use Rattle.std.specs.Str.{bytes_eq};
ghost use Rattle.policy_rules.specs.Key.{row};
ghost use Rattle.policy_rules.specs.RuleValue.{if_there};
ghost use Rattle.policy_rules.specs.Tests.{id_holds, mask_holds, same_func};

use crate::access::Access;
use crate::key::Key;
use crate::rule::{Func, IdTest, MaskTest, Rule};
use inode_meta::Need;
use xattr_store::Bytes;

impl Rule {
    /// Whether the rule has the key. An id key counts as one key, whatever its sign.
    pub fn has(&self, key: Key) -> bool
        ensures { result ≡ (row key).is_in self.now }
    {
        match key {
            Key::Func => self.func.is_some(),
            Key::Mask => self.mask.is_some(),
            Key::FsMagic => self.fsmagic.is_some(),
            Key::FsUuid => self.fsuuid.is_some(),
            Key::FsName => self.fsname.is_some(),
            Key::Uid => self.uid.is_some(),
            Key::Euid => self.euid.is_some(),
            Key::Gid => self.gid.is_some(),
            Key::Egid => self.egid.is_some(),
            Key::Fowner => self.fowner.is_some(),
            Key::Fgroup => self.fgroup.is_some(),
            Key::AppraiseType => self.need != Need::Any,
            Key::AppraiseFlag => self.blacklist,
            Key::AppraiseAlgos => self.algos.is_some(),
            Key::Directio => self.directio,
            Key::Pcr => self.pcr.is_some(),
            Key::Template => self.template.is_some(),
        }
    }
}

impl Key {
    /// Whether the access satisfies the rule's condition with this key. It does if the rule doesn't
    /// have the key or the key is that of an option.
    pub fn holds(self, rule: &Rule, access: &Access) -> bool
        ensures { result ≡ (row self).holds rule.now access.now }
    {
        match self {
            Key::Func => func_holds(rule.func, access.func),
            Key::Mask => mask_holds(rule.mask, access.mask),
            Key::FsMagic => magic_holds(rule.fsmagic, access.place.magic),
            Key::FsUuid => uuid_holds(rule.fsuuid, access.place.uuid),
            Key::FsName => name_holds(&rule.fsname, &access.place.name),
            Key::Uid => id_holds(rule.uid, access.cred.uid),
            Key::Euid => id_holds(rule.euid, access.cred.euid),
            Key::Gid => id_holds(rule.gid, access.cred.gid),
            Key::Egid => id_holds(rule.egid, access.cred.egid),
            Key::Fowner => id_holds(rule.fowner, access.owner),
            Key::Fgroup => id_holds(rule.fgroup, access.group),
            _ => true,
        }
    }
}

fn func_holds(wanted: Option<Func>, func: Func) -> bool
    ensures { result ≡ if_there (λ f. same_func f func) wanted }
{
    wanted.is_none_or(|f| f == func)
}

fn mask_holds(wanted: Option<MaskTest>, mask: u8) -> bool
    ensures { result ≡ if_there (λ m. mask_holds m mask) wanted }
{
    wanted.is_none_or(|m| m.holds(mask))
}

fn magic_holds(wanted: Option<u64>, magic: u64) -> bool
    ensures { result ≡ if_there (λ n. n == magic) wanted }
{
    wanted.is_none_or(|n| n == magic)
}

fn uuid_holds(wanted: Option<u128>, uuid: u128) -> bool
    ensures { result ≡ if_there (λ n. n == uuid) wanted }
{
    wanted.is_none_or(|n| n == uuid)
}

fn name_holds(wanted: &Option<Bytes>, name: &Bytes) -> bool
    ensures { result ≡ if_there (λ n. bytes_eq n name.now) wanted.now }
{
    match wanted {
        Some(wanted) => wanted.as_slice() == name.as_slice(),
        None => true,
    }
}

fn id_holds(wanted: Option<IdTest>, id: u32) -> bool
    ensures { result ≡ if_there (λ t. id_holds t id) wanted }
{
    wanted.is_none_or(|t| t.holds(id))
}
