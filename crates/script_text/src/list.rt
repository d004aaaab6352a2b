//! List texts: paths and contents.

ghost use Rattle.std.specs.Prelude.{◌≡◌, ◌-◌, ◌<◌, ◌^◌, length, map};
ghost use Rattle.std.specs.Option.{option_copied};
ghost use Rattle.script_words.specs.Gives.{Gives, LineMakes};
ghost use Rattle.script_text.specs.ListGrammar.{list_of, listed, placed, stands, start, with_end, with_file, with_head, with_version};

use crate::list_head::{ListHead, head_of};
use inode_pages::MOST_BYTES;
use script_fields::{sum_of, two};
use script_words::{Grammar, LineCause, LineErr, ScriptErr, cut_line, fields, read_text, value_of};
use std::alloc::Global;
use std::marker::Model;
use text_forms::is_path;
use xattr_store::Bytes;

// The most files of a list, and the most bytes of a content.
const FILES: usize = 256;

const CONTENT: usize = MOST_BYTES as usize;

/// The files of a list text, each with its path and its content. Contracts see the list of pairs.
#[derive(Drop)]
pub struct ListText {
    /// The files, in order. The same path may occur twice.
    pub files: Vec<(Bytes, Bytes)>,
}

impl Model for ListText {
    ghost use Rattle.std.specs.Prelude.{List};
    ghost use Rattle.script_text.specs.ListGrammar.{Listed};

    ghost Value = { List Listed };

    ghost view = { λ l. l.files.items };
}

/// Reads the files of a list text.
///
/// The result is `Refused` exactly if the text isn't in the grammar, with the first bad line and
/// the first of the causes that hold of it.
pub fn parse_list(alloc: Global, text: &[u8]) -> Result<ListText, ScriptErr>
    requires { length text.now < 2 ^ 32 - 1 }
    ensures { Gives result (list_of text.now) }
{
    let draft = read_text(alloc, ListDraft::new(alloc), text)?;
    Ok(draft.finish())
}

/// A list text while its lines are read.
#[derive(Drop)]
struct ListDraft {
    files: Vec<(Bytes, Bytes)>,
    at: u8,
    sum: usize,
}

impl Model for ListDraft {
    ghost use Rattle.script_text.specs.ListGrammar as spec;

    ghost Value = { spec.ListDraft };

    ghost view = { λ d. record { files = d.files.items; at = d.at; sum = d.sum } };
}

impl Grammar for ListDraft {
    ghost use Rattle.script_words.specs.declared.fault.LineCause.TheVariants.{NoEnd};
    ghost use Rattle.script_text.specs.ListGrammar.{add, is_over};

    type Cause = LineCause;

    ghost step = { add };

    ghost ends = { is_over };

    ghost no_end = { NoEnd };

    fn add_line(&mut self, alloc: Global, line: &[u8]) -> Result<(), LineErr> {
        let (word, text) = cut_line(line);
        let head = head_of(word).ok_or(LineCause::BadWord)?;
        let fields = fields(alloc, text)?;
        self.placed(alloc, head, &fields)
    }

    fn may_end(&self) -> bool {
        self.at == 2
    }

    fn no_end() -> LineCause {
        LineCause::NoEnd
    }
}

impl ListDraft {
    fn new(alloc: Global) -> ListDraft
        ensures { result ≡ start }
    {
        ListDraft {
            files: Vec::new(alloc),
            at: 0,
            sum: 0,
        }
    }

    fn finish(self) -> ListText
        ensures { result ≡ self.files }
    {
        ListText { files: self.files }
    }

    fn stands(&self, head: ListHead) -> bool
        ensures { result ≡ stands head self.now }
    {
        match head {
            ListHead::Imalist => self.at == 0,
            _ => self.at == 1,
        }
    }

    fn placed(&mut self, alloc: Global, head: ListHead, fields: &[&[u8]]) -> Result<(), LineErr>
        ensures { LineMakes result (placed head (map (λ w. w.now) fields.now) self.old) self.new }
    {
        if !self.stands(head) {
            return Err(LineErr::Refused(LineCause::OutOfPlace));
        }
        match head {
            ListHead::Imalist => self.with_version(fields),
            ListHead::File => self.with_file(alloc, fields),
            ListHead::End => self.with_end(fields),
        }
    }

    // Reads the line `imalist 1`, the version of list texts.
    fn with_version(&mut self, fields: &[&[u8]]) -> Result<(), LineErr>
        ensures { LineMakes result (with_version (map (λ w. w.now) fields.now) self.old) self.new }
    {
        let [version] = fields else {
            return Err(LineErr::Refused(LineCause::BadField));
        };
        if *version != b"1".as_slice() {
            return Err(LineErr::Refused(LineCause::BadField));
        }
        self.at = 1;
        Ok(())
    }

    // Reads the line `file PATH VALUE`, which adds a file.
    fn with_file(&mut self, alloc: Global, fields: &[&[u8]]) -> Result<(), LineErr>
        ensures { LineMakes result (with_file (map (λ w. w.now) fields.now) self.old) self.new }
    {
        if let Some((path, value)) = two(fields)
            && is_path(path)
        {
            let content = value_of(alloc, value, 0, CONTENT)?;
            let path = Bytes::from_slice(alloc, path)?;
            self.listed(path, content)
        } else {
            Err(LineErr::Refused(LineCause::BadField))
        }
    }

    fn listed(&mut self, path: Bytes, content: Bytes) -> Result<(), LineErr>
        ensures { LineMakes result (listed (path, content) self.old) self.new }
    {
        if self.files.len() >= FILES {
            return Err(LineErr::Refused(LineCause::TooMany));
        }
        self.sum = sum_of(self.sum, content.as_slice().len()).ok_or(LineCause::TooLarge)?;
        self.files.push((path, content))?;
        Ok(())
    }

    // Reads the line `end`, which ends the list.
    fn with_end(&mut self, fields: &[&[u8]]) -> Result<(), LineErr>
        ensures { LineMakes result (with_end (map (λ w. w.now) fields.now) self.old) self.new }
    {
        if !fields.is_empty() {
            return Err(LineErr::Refused(LineCause::BadField));
        }
        self.at = 2;
        Ok(())
    }
}
