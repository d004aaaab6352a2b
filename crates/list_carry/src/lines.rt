// The lines of a carry text.

ghost use Rattle.std.specs.Prelude.{◌≡◌, IsTrue, IfOk, map, ok_or};
ghost use Rattle.script_text.specs.ListGrammar.{listed};
ghost use Rattle.script_text.specs.fields.SettingFields.{digest_in, digest_sized};
ghost use Rattle.script_text.specs.events.forms.Paths.{is_path};
ghost use Rattle.script_text.specs.script_lines.Gives.{LineGives, LineMakes};
ghost use Rattle.list_carry.specs.Draft.{as_list, with_list};
ghost use Rattle.list_carry.specs.Grammar.{by_form, counted, form_in, form_of, room_for, with_boot, with_carried, with_carried_list, with_digest, with_end, with_file, with_listed, with_version};
ghost use Rattle.carry_form.specs.Reading.{load_of};

use crate::draft::Draft;
use crate::line_cause::{CarryLine, CarryLineErr};
use carry_form::{Carried, CarryErr, load};
use hash_algos::{Algo, Digest};
use script_text::{sum_of, two};
use script_words::{LineCause, LineErr, value_of};
use std::alloc::Global;
use text_forms::is_path;
use xattr_store::Bytes;

// The most bytes of a carried form, of any digest and of a content, and the most files.
const FORM: usize = 4_194_304;

const DIGEST: usize = 64;

const CONTENT: usize = 262_144;

const FILES: usize = 256;

impl Draft {
    /// Reads the line `imacarry 1`, the version of carry texts.
    #[tactic(auto, unfolding(crate::specs::Grammar::with_version))]
    pub(crate) fn with_version(&mut self, fields: &[&[u8]]) -> Result<(), LineErr>
        ensures { LineMakes result (with_version (map (λ w. w.now) fields.now) self.old) self.new }
    {
        let [version] = fields else {
            return Err(LineErr::Refused(LineCause::BadField));
        };
        if *version == b"1".as_slice() {
            Ok(())
        } else {
            Err(LineErr::Refused(LineCause::BadField))
        }
    }

    /// Reads the line `carried VALUE`, the carried form of an earlier boot's list.
    #[tactic(auto, unfolding(crate::specs::Grammar::with_carried))]
    pub(crate) fn with_carried(
        &mut self,
        alloc: Global,
        fields: &[&[u8]],
    ) -> Result<(), CarryLineErr>
        ensures { LineMakes result (with_carried (map (λ w. w.now) fields.now) self.old) self.new }
    {
        match self.form_in(alloc, fields) {
            Ok((form, sum)) => self.with_form(alloc, form, sum),
            Err(LineErr::Refused(cause)) => Err(LineErr::Refused(CarryLine::Line(cause))),
            Err(LineErr::OutOfMemory) => Err(LineErr::OutOfMemory),
        }
    }

    // The value of a line `carried VALUE`, and the sum with its length.
    #[tactic(auto, unfolding(crate::specs::Grammar::form_in))]
    fn form_in(&self, alloc: Global, fields: &[&[u8]]) -> Result<(Bytes, usize), LineErr>
        ensures { LineGives result (form_in (map (λ w. w.now) fields.now) self.now) }
    {
        let [value] = fields else {
            return Err(LineErr::Refused(LineCause::BadField));
        };
        self.form_of(alloc, value)
    }

    // The value that a word is, and the sum with its length.
    #[tactic(auto, unfolding(crate::specs::Grammar::form_of))]
    fn form_of(&self, alloc: Global, word: &[u8]) -> Result<(Bytes, usize), LineErr>
        ensures { LineGives result (form_of word.now self.now) }
    {
        let form = value_of(alloc, word, 0, FORM)?;
        let sum = self.counted(form.as_slice())?;
        Ok((form, sum))
    }

    // Reads the carried form of the list.
    fn with_form(&mut self, alloc: Global, form: Bytes, sum: usize) -> Result<(), CarryLineErr>
        ensures { LineMakes result (with_carried_list (form, sum) self.old) self.new }
    {
        let list = loaded(alloc, form.as_slice())?;
        self.carried = Some(list);
        self.sum = sum;
        Ok(())
    }

    // The sum with the length of one more value.
    fn counted(&self, value: &[u8]) -> Result<usize, LineCause>
        ensures { result ≡ counted value.now self.now }
    {
        sum_of(self.sum, value.len()).ok_or(LineCause::TooLarge)
    }

    /// Reads the line `boot VALUE`, the digest of the boot aggregate.
    #[tactic(auto, unfolding(crate::specs::Grammar::with_boot))]
    pub(crate) fn with_boot(&mut self, alloc: Global, fields: &[&[u8]]) -> Result<(), LineErr>
        ensures { LineMakes result (with_boot (map (λ w. w.now) fields.now) self.old) self.new }
    {
        let [value] = fields else {
            return Err(LineErr::Refused(LineCause::BadField));
        };
        self.with_digest(alloc, value)
    }

    // Reads the digest of the boot aggregate.
    #[tactic(auto, unfolding(crate::specs::Grammar::with_digest))]
    fn with_digest(&mut self, alloc: Global, value: &[u8]) -> Result<(), LineErr>
        ensures { LineMakes result (with_digest value.now self.old) self.new }
    {
        let boot = digest_in(alloc, value)?;
        self.sum = self.counted(boot.as_slice())?;
        self.boot = boot;
        Ok(())
    }

    /// Reads the line `file PATH VALUE`, which adds a file.
    #[tactic(auto, unfolding(crate::specs::Grammar::with_file))]
    pub(crate) fn with_file(&mut self, alloc: Global, fields: &[&[u8]]) -> Result<(), LineErr>
        ensures { LineMakes result (with_file (map (λ w. w.now) fields.now) self.old) self.new }
    {
        let (path, value) = two(fields).ok_or(LineCause::BadField)?;
        if !is_path(path) {
            return Err(LineErr::Refused(LineCause::BadField));
        }
        let content = value_of(alloc, value, 0, CONTENT)?;
        let path = Bytes::from_slice(alloc, path)?;
        self.listed((path, content))
    }

    // Appends a file, if the limits allow it.
    fn listed(&mut self, file: (Bytes, Bytes)) -> Result<(), LineErr>
        requires { IsTrue (is_path file.0) }
        ensures { LineMakes result (with_listed file self.old) self.new }
    {
        self.sum = self.room_for(file.1.as_slice())?;
        self.files.push(file)?;
        Ok(())
    }

    // The sum with the length of one more content, if there can be one more file.
    fn room_for(&self, content: &[u8]) -> Result<usize, LineCause>
        ensures { result ≡ room_for content.now self.now }
    {
        if self.files.len() >= FILES {
            return Err(LineCause::TooMany);
        }
        self.counted(content)
    }

    /// Reads the line `end`, which ends the text.
    #[tactic(auto, unfolding(crate::specs::Grammar::with_end))]
    pub(crate) fn with_end(&mut self, fields: &[&[u8]]) -> Result<(), LineErr>
        ensures { LineMakes result (with_end (map (λ w. w.now) fields.now) self.old) self.new }
    {
        if fields.is_empty() {
            Ok(())
        } else {
            Err(LineErr::Refused(LineCause::BadField))
        }
    }
}

// A SHA-256 digest.
fn digest_in(alloc: Global, word: &[u8]) -> Result<Digest, LineErr>
    ensures digest { LineGives result (digest_in Algo.Sha256 word.now) }
    ensures sha256 { IfOk result (λ d. d.algo ≡ Algo.Sha256) }
{
    let bytes = value_of(alloc, word, 0, DIGEST)?;
    digest_sized(bytes.as_slice())
}

fn digest_sized(bytes: &[u8]) -> Result<Digest, LineErr>
    ensures digest { LineGives result (digest_sized Algo.Sha256 bytes.now) }
    ensures sha256 { IfOk result (λ d. d.algo ≡ Algo.Sha256) }
{
    match Digest::from_slice(Algo::Sha256, bytes) {
        Some(digest) => Ok(digest),
        None => Err(LineErr::Refused(LineCause::BadField)),
    }
}

// The list whose carried form these bytes are.
fn loaded(alloc: Global, form: &[u8]) -> Result<Carried, CarryLineErr>
    ensures { LineGives result (by_form (load_of form.now)) }
{
    match load(alloc, form) {
        Ok(list) => Ok(list),
        Err(CarryErr::Refused(cause)) => Err(LineErr::Refused(CarryLine::Carried(cause))),
        Err(CarryErr::OutOfMemory) => Err(LineErr::OutOfMemory),
    }
}
