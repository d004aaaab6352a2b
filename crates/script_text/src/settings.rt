//! The settings of a script, and its file systems.

ghost use Rattle.std.specs.Prelude.{◌≡◌, [], ◌∷◌, map};
ghost use Rattle.script_words.specs.Gives.{LineMakes};
ghost use Rattle.script_text.specs.Settings.{boot_algo, is_protected, locked, with_added, with_boot, with_format, with_hash, with_key, with_mode, with_name, with_super, with_template, with_version};

use crate::draft::Draft;
use evm_verify::is_protected;
use hash_algos::{Algo, Digest, by_name};
use inode_meta::Template;
use policy_text::template_of;
use script_fields::{digest_in, format_of, is_added_name, mode_named, one, super_in};
use script_words::{LineCause, LineErr, value_of};
use std::alloc::Global;
use xattr_store::Bytes;

// The most bytes of a key, the most names that are added, and the most file systems.
const KEY: usize = 128;

const ADDED: usize = 16;

const SUPERS: usize = 16;

impl Draft {
    /// Reads the line `imakern 1`, the version of the script language.
    #[tactic(auto, unfolding(crate::specs::Settings::with_version))]
    pub fn with_version(&mut self, fields: &[&[u8]]) -> Result<(), LineErr>
        ensures { LineMakes result (with_version (map (λ w. w.now) fields.now) self.old) self.new }
    {
        let [version] = fields else {
            return Err(LineErr::Refused(LineCause::BadField));
        };
        if *version == b"1".as_slice() {
            Ok(())
        } else {
            Err(LineErr::Refused(LineCause::BadField))
        }
    }

    /// Reads the line `hash ALGO`, which sets the default algorithm of labels and entries.
    #[tactic(auto, unfolding(crate::specs::Settings::with_hash))]
    pub fn with_hash(&mut self, fields: &[&[u8]]) -> Result<(), LineErr>
        ensures { LineMakes result (with_hash (map (λ w. w.now) fields.now) self.old) self.new }
    {
        let [name] = fields else {
            return Err(LineErr::Refused(LineCause::BadField));
        };
        let hash = by_name(name).ok_or(LineCause::BadField)?;
        self.hash = hash;
        self.boot = Digest::zeros(boot_algo(self.template, hash));
        Ok(())
    }

    /// Reads the line `template ima`, `template ima-ng` or `template ima-sig`.
    #[tactic(auto, unfolding(crate::specs::Settings::with_template))]
    pub fn with_template(&mut self, fields: &[&[u8]]) -> Result<(), LineErr>
        ensures { LineMakes result (with_template (map (λ w. w.now) fields.now) self.old) self.new }
    {
        let [name] = fields else {
            return Err(LineErr::Refused(LineCause::BadField));
        };
        let template = template_of(name).ok_or(LineCause::BadField)?;
        self.template = template;
        self.boot = Digest::zeros(boot_algo(template, self.hash));
        Ok(())
    }

    /// Reads the line `boot VALUE`, which sets the digest of the first entry.
    #[tactic(auto, unfolding(crate::specs::Settings::with_boot))]
    pub fn with_boot(&mut self, alloc: Global, fields: &[&[u8]]) -> Result<(), LineErr>
        ensures { LineMakes result (with_boot (map (λ w. w.now) fields.now) self.old) self.new }
    {
        let word = one(fields).ok_or(LineCause::BadField)?;
        self.boot = digest_in(alloc, boot_algo(self.template, self.hash), word)?;
        Ok(())
    }

    /// Reads the line `appraise enforce`, `appraise log`, `appraise fix` or `appraise off`.
    #[tactic(auto, unfolding(crate::specs::Settings::with_mode))]
    pub fn with_mode(&mut self, fields: &[&[u8]]) -> Result<(), LineErr>
        ensures { LineMakes result (with_mode (map (λ w. w.now) fields.now) self.old) self.new }
    {
        let [name] = fields else {
            return Err(LineErr::Refused(LineCause::BadField));
        };
        self.mode = mode_named(name).ok_or(LineCause::BadField)?;
        Ok(())
    }

    /// Reads the line `evm VALUE`, which sets EVM's key.
    #[tactic(auto, unfolding(crate::specs::Settings::with_key))]
    pub fn with_key(&mut self, alloc: Global, fields: &[&[u8]]) -> Result<(), LineErr>
        ensures { LineMakes result (with_key (map (λ w. w.now) fields.now) self.old) self.new }
    {
        let [value] = fields else {
            return Err(LineErr::Refused(LineCause::BadField));
        };
        self.keyed(alloc, value)
    }

    #[tactic(auto, unfolding(crate::specs::Settings::with_key))]
    fn keyed(&mut self, alloc: Global, value: &[u8]) -> Result<(), LineErr>
        ensures { LineMakes result (with_key (value.now ∷ []) self.old) self.new }
    {
        self.key = Some(value_of(alloc, value, 1, KEY)?);
        Ok(())
    }

    /// Reads the line `evm_xattrs NAME`, which adds a name, or `evm_xattrs .`, which locks the
    /// names.
    #[tactic(auto, unfolding(crate::specs::Settings::with_name))]
    pub fn with_name(&mut self, alloc: Global, fields: &[&[u8]]) -> Result<(), LineErr>
        ensures { LineMakes result (with_name (map (λ w. w.now) fields.now) self.old) self.new }
    {
        let name = one(fields).ok_or(LineCause::BadField)?;
        if name == b".".as_slice() {
            self.locked()
        } else {
            self.with_added(alloc, name)
        }
    }

    #[tactic(auto, unfolding(crate::specs::Settings::locked))]
    fn locked(&mut self) -> Result<(), LineErr>
        ensures { LineMakes result (locked self.old) self.new }
    {
        if self.locked {
            return Err(LineErr::Refused(LineCause::Locked));
        }
        self.locked = true;
        Ok(())
    }

    #[tactic(auto, unfolding(crate::specs::Settings::with_added))]
    fn with_added(&mut self, alloc: Global, name: &[u8]) -> Result<(), LineErr>
        ensures { LineMakes result (with_added name.now self.old) self.new }
    {
        if !is_added_name(name) {
            return Err(LineErr::Refused(LineCause::BadField));
        }
        if self.is_protected(name) {
            return Err(LineErr::Refused(LineCause::Twice));
        }
        if self.added.len() >= ADDED {
            return Err(LineErr::Refused(LineCause::TooMany));
        }
        if self.locked {
            return Err(LineErr::Refused(LineCause::Locked));
        }
        self.added.push(Bytes::from_slice(alloc, name)?)?;
        Ok(())
    }

    fn is_protected(&self, name: &[u8]) -> bool
        ensures { result ≡ is_protected name.now self.now }
    {
        is_protected(name, self.added.as_slice())
    }

    /// Reads the line `evm_format 1` or `evm_format 2`.
    #[tactic(auto, unfolding(crate::specs::Settings::with_format))]
    pub fn with_format(&mut self, fields: &[&[u8]]) -> Result<(), LineErr>
        ensures { LineMakes result (with_format (map (λ w. w.now) fields.now) self.old) self.new }
    {
        let [word] = fields else {
            return Err(LineErr::Refused(LineCause::BadField));
        };
        self.format = format_of(word).ok_or(LineCause::BadField)?;
        Ok(())
    }

    /// Reads the line `fs magic=MAGIC uuid=UUID name=WORD versions`, or the same with `noversions`.
    #[tactic(auto, unfolding(crate::specs::Settings::with_super))]
    pub fn with_super(&mut self, alloc: Global, fields: &[&[u8]]) -> Result<(), LineErr>
        ensures { LineMakes result (with_super (map (λ w. w.now) fields.now) self.old) self.new }
    {
        let place = super_in(alloc, fields)?;
        if self.supers.len() >= SUPERS {
            return Err(LineErr::Refused(LineCause::TooMany));
        }
        self.supers.push(place)?;
        Ok(())
    }
}

// The algorithm of the first entry's digest: SHA-1 under `ima`, else the default.
fn boot_algo(template: Template, hash: Algo) -> Algo
    ensures { result ≡ boot_algo template hash }
{
    match template {
        Template::Ima => Algo::Sha1,
        _ => hash,
    }
}
