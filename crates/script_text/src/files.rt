//! The blocks of files.

ghost use Rattle.std.specs.Prelude.{◌≡◌, ◌+◌, ◌-◌, ◌≤◌, length, take, map, IfOk, IfErr, IfNone, OnOk, OnSome};
ghost use Rattle.hash_algos.specs.Digest.{digest_of};
ghost use Rattle.label_values.specs.Labels.{label_of};
ghost use Rattle.xattr_store.specs.Names.{ima_name};
ghost use Rattle.script_words.specs.Gives.{LineMakes};
ghost use Rattle.script_text.specs.Draft.{change_last, last_of};
ghost use Rattle.script_text.specs.Files.{attrs_put, block_of, counted_length, has_attr, sealed, setup_of, with_absent, with_attr, with_block, with_file, with_front, with_pair, with_seal};
ghost use Rattle.script_fields.specs.FrontView.{front_view};
ghost use Rattle.script_fields.specs.Limits.{most_value};

use crate::blocks::FileBlock;
use crate::draft::Draft;
use call_lines::Paths;
use call_steps::events::Image;
use evm_verify::Evm;
use hash_algos::Algo;
use inode_hashing::digest_of_content;
use inode_meta::Meta;
use inode_pages::Content;
use label_values::{MAX_LABEL, write_label};
use policy_text::Super;
use script_fields::{Front, content_after, file_in, front_in, is_counted, name_of, sum_of, two};
use script_words::{LineCause, LineErr, place_among, value_of};
use std::alloc::{AllocError as OutOfMemory, Global};
use std::mem;
use xattr_store::{Attrs, Bytes, IMA_NAME, MAX_VALUE};

// The most files of a script, and the most attributes of a file.
const FILES: usize = 256;

const ATTRS: usize = 16;

impl Draft {
    /// Reads `file PATH fs=NUM ino=NUM gen=NUM uid=NUM gid=NUM mode=MODE content=VALUE`.
    #[tactic(auto, unfolding(crate::specs::Files::with_file))]
    pub fn with_file(&mut self, alloc: Global, fields: &[&[u8]]) -> Result<(), LineErr>
        ensures { LineMakes result (with_file (map (λ w. w.now) fields.now) self.old) self.new }
    {
        let (front, content) = file_in(fields).ok_or(LineCause::BadField)?;
        let content = content_after(alloc, content)?;
        self.with_front(alloc, &front, true, content)
    }

    /// Reads `absent PATH fs=NUM ino=NUM gen=NUM uid=NUM gid=NUM mode=MODE`.
    #[tactic(auto, unfolding(crate::specs::Files::with_absent))]
    pub fn with_absent(&mut self, alloc: Global, fields: &[&[u8]]) -> Result<(), LineErr>
        ensures { LineMakes result (with_absent (map (λ w. w.now) fields.now) self.old) self.new }
    {
        let front = front_in(fields).ok_or(LineCause::BadField)?;
        self.with_front(alloc, &front, false, Content::new(alloc))
    }

    // Adds a file on the file system that the front names, if there is one.
    fn with_front(
        &mut self,
        alloc: Global,
        front: &Front<'_>,
        present: bool,
        content: Content,
    ) -> Result<(), LineErr>
        ensures { LineMakes result (with_front (front_view front.now) present content self.old)
            self.new }
    {
        let Some(fs) = place_among(self.supers.len(), front.fs) else {
            return Err(LineErr::Refused(LineCause::Unknown));
        };
        let Some(place) = self.supers.get(fs) else {
            return Err(LineErr::Refused(LineCause::Unknown));
        };
        let block = block_of(alloc, front, fs as u32, place, present, content)?;
        self.with_block(alloc, block)
    }

    fn with_block(&mut self, alloc: Global, block: FileBlock) -> Result<(), LineErr>
        ensures { LineMakes result (with_block block self.old) self.new }
    {
        if self.paths.place(block.path.as_slice()).is_some() {
            return Err(LineErr::Refused(LineCause::Twice));
        }
        if self.paths.len() >= FILES {
            return Err(LineErr::Refused(LineCause::TooMany));
        }
        let len = block.image.content.len() as usize;
        let sum = sum_of(self.sum, len).ok_or(LineCause::TooLarge)?;
        let paths = mem::replace(&mut self.paths, Paths::new(alloc));
        self.paths = paths.with(alloc, block.path.as_slice())?;
        self.unsealed = block.image.present;
        self.counted = 0;
        self.sum = sum;
        self.files.push(block)?;
        Ok(())
    }

    /// Reads the line `attr NAME VALUE` in the block of the last file.
    #[tactic(auto, unfolding(crate::specs::Files::with_attr))]
    pub fn with_attr(&mut self, alloc: Global, fields: &[&[u8]]) -> Result<(), LineErr>
        ensures { LineMakes result (with_attr (map (λ w. w.now) fields.now) self.old) self.new }
    {
        if let Some((name, value)) = two(fields)
            && let Some(name) = name_of(name)
        {
            let value = value_of(alloc, value, 0, MAX_VALUE)?;
            self.with_pair(name, value.as_slice())
        } else {
            Err(LineErr::Refused(LineCause::BadField))
        }
    }

    fn with_pair(&mut self, name: &[u8], value: &[u8]) -> Result<(), LineErr>
        requires { length value.now ≤ most_value }
        ensures { LineMakes result (with_pair name.now value.now self.old) self.new }
    {
        if self.has_attr(name) {
            return Err(LineErr::Refused(LineCause::Twice));
        }
        let counts = is_counted(name);
        if counts && self.counted >= ATTRS {
            return Err(LineErr::Refused(LineCause::TooMany));
        }
        let sum = sum_of(self.sum, counted_length(name, value)).ok_or(LineCause::TooLarge)?;
        put_on_last(&mut self.files, name, value)?;
        self.sum = sum;
        if counts {
            self.counted += 1;
        }
        Ok(())
    }

    // Whether the last file has the attribute.
    fn has_attr(&self, name: &[u8]) -> bool
        ensures { result ≡ has_attr name.now self.now }
    {
        match self.files.as_slice().last() {
            Some(file) => file.image.attrs.get(name).is_some(),
            None => false,
        }
    }

    /// Reads the line `seal`, which sets the last file's label by the default algorithm, and its
    /// HMAC if there is a key.
    #[tactic(auto, unfolding(crate::specs::Files::with_seal))]
    pub fn with_seal(&mut self, alloc: Global, fields: &[&[u8]]) -> Result<(), LineErr>
        ensures { LineMakes result (with_seal (map (λ w. w.now) fields.now) self.old) self.new }
    {
        if !fields.is_empty() {
            return Err(LineErr::Refused(LineCause::BadField));
        }
        let evm = self.evm(alloc)?;
        seal_last(&mut self.files, &evm, self.hash)?;
        self.unsealed = false;
        Ok(())
    }

    // EVM as the settings configure it.
    fn evm(&self, alloc: Global) -> Result<Evm, OutOfMemory>
        ensures { IfOk result (λ evm. evm ≡ setup_of self.now.script) }
    {
        match &self.key {
            Some(key) => Evm::new(alloc, Some(key.as_slice()), &self.added, self.format),
            None => Evm::new(alloc, None, &self.added, self.format),
        }
    }
}

/// Removes and returns the last element of a list.
pub fn pop_last<T>(items: &mut Vec<T>) -> Option<T>
    ensures last { result ≡ last_of items.old.items }
    ensures rest { items.new.items ≡ take (length items.old.items - 1) items.old.items }
    ensures less { OnSome result (length items.new.items + 1 ≡ length items.old.items) }
    ensures none { IfNone result (items.new.items ≡ items.old.items) }
{
    items.pop()
}

// Sets an attribute of the last file.
#[tactic(auto, unfolding(crate::specs::Draft::change_last))]
fn put_on_last(files: &mut Vec<FileBlock>, name: &[u8], value: &[u8]) -> Result<(), LineErr>
    requires { length value.now ≤ most_value }
    ensures ok { OnOk result (files.new.items
        ≡ change_last (attrs_put name.now value.now) files.old.items) }
    ensures err { IfErr result (λ e. e ≡ LineErr.OutOfMemory) }
{
    match pop_last(files) {
        Some(file) => {
            let file = attrs_put(file, name, value)?;
            files.push(file)?;
            Ok(())
        }
        None => Ok(()),
    }
}

// Seals the last file.
#[tactic(auto, unfolding(crate::specs::Draft::change_last))]
fn seal_last(files: &mut Vec<FileBlock>, evm: &Evm, hash: Algo) -> Result<(), LineErr>
    ensures ok { OnOk result (files.new.items ≡ change_last (sealed evm.now hash) files.old.items) }
    ensures err { IfErr result (λ e. e ≡ LineErr.OutOfMemory) }
{
    match pop_last(files) {
        Some(file) => {
            let file = sealed(evm, hash, file)?;
            files.push(file)?;
            Ok(())
        }
        None => Ok(()),
    }
}

// The file as its block begins.
fn block_of(
    alloc: Global,
    front: &Front<'_>,
    fs: u32,
    place: &Super,
    present: bool,
    content: Content,
) -> Result<FileBlock, OutOfMemory>
    ensures { IfOk result (λ block. block
        ≡ block_of (front_view front.now) fs place.now present content) }
{
    let meta = Meta {
        ino: front.ino,
        generation: front.generation,
        uid: front.uid,
        gid: front.gid,
        mode: front.mode,
        place: place.uuid,
    };
    let image = Image {
        present,
        content,
        attrs: Attrs::new(alloc),
        meta,
        versions: place.versions,
    };
    let path = Bytes::from_slice(alloc, front.path)?;
    Ok(FileBlock { path, fs, image })
}

fn counted_length(name: &[u8], value: &[u8]) -> usize
    ensures { result ≡ counted_length name.now value.now }
{
    if is_counted(name) { value.len() } else { 0 }
}

// The file with the attribute set.
fn attrs_put(file: FileBlock, name: &[u8], value: &[u8]) -> Result<FileBlock, LineErr>
    requires { length value.now ≤ most_value }
    ensures ok { IfOk result (λ b. b ≡ attrs_put name.now value.now file) }
    ensures err { IfErr result (λ e. e ≡ LineErr.OutOfMemory) }
{
    let mut file = file;
    match file.image.attrs.set(name, value) {
        Ok(()) => Ok(file),
        Err(_) => Err(LineErr::OutOfMemory),
    }
}

// The file with the label of its content.
fn label_put(algo: Algo, file: FileBlock) -> Result<FileBlock, LineErr>
    ensures ok { IfOk result
        (λ b. b ≡ attrs_put ima_name (label_of (digest_of algo file.image.content)) file) }
    ensures err { IfErr result (λ e. e ≡ LineErr.OutOfMemory) }
{
    let mut out = [0; MAX_LABEL];
    let digest = digest_of_content(algo, &file.image.content);
    let len = write_label(&digest, &mut out);
    attrs_put(file, IMA_NAME, &out[..len])
}

fn sealed(evm: &Evm, algo: Algo, file: FileBlock) -> Result<FileBlock, LineErr>
    ensures ok { IfOk result (λ b. b ≡ sealed evm.now algo file) }
    ensures err { IfErr result (λ e. e ≡ LineErr.OutOfMemory) }
{
    let mut file = label_put(algo, file)?;
    evm.renew(&mut file.image.attrs, &file.image.meta)?;
    Ok(file)
}
