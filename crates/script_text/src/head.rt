ghost use Rattle.std.specs.Prelude.{◌≡◌};
ghost use Rattle.script_text.specs.Heads.{head_of, in_order, rank, repeats, section_of};

use call_lines::{CallWord, call_word_of};
use text_forms::look_up;

/// The kind of a line of a script, by its first word.
#[derive(Clone, Copy)]
pub enum Head {
    Imakern,
    Hash,
    Template,
    Boot,
    Appraise,
    Evm,
    EvmXattrs,
    EvmFormat,
    Fs,
    File,
    Absent,
    Attr,
    Seal,
    Rule,
    Task,
    Call(CallWord),
    Schedule,
    Rounds,
    Threads,
}

/// The line's kind, by its first word.
pub fn head_of(word: &[u8]) -> Option<Head>
    ensures { result ≡ head_of word.now }
{
    match call_word_of(word) {
        Some(call) => Some(Head::Call(call)),
        None => section_of(word),
    }
}

// The other lines by their first words.
const SECTIONS: [(&[u8], Head); 18] = [
    (b"imakern", Head::Imakern),
    (b"hash", Head::Hash),
    (b"template", Head::Template),
    (b"boot", Head::Boot),
    (b"appraise", Head::Appraise),
    (b"evm", Head::Evm),
    (b"evm_xattrs", Head::EvmXattrs),
    (b"evm_format", Head::EvmFormat),
    (b"fs", Head::Fs),
    (b"file", Head::File),
    (b"absent", Head::Absent),
    (b"attr", Head::Attr),
    (b"seal", Head::Seal),
    (b"rule", Head::Rule),
    (b"task", Head::Task),
    (b"schedule", Head::Schedule),
    (b"rounds", Head::Rounds),
    (b"threads", Head::Threads),
];

fn section_of(word: &[u8]) -> Option<Head>
    ensures { result ≡ section_of word.now }
{
    look_up(&SECTIONS, word)
}

impl Head {
    /// The rank of the line. Lines come in the order of their ranks.
    pub fn rank(self) -> u8
        ensures { result ≡ rank self }
    {
        match self {
            Head::Imakern => 1,
            Head::Hash => 2,
            Head::Template => 3,
            Head::Boot => 4,
            Head::Appraise => 5,
            Head::Evm => 6,
            Head::EvmXattrs => 7,
            Head::EvmFormat => 8,
            Head::Fs => 9,
            Head::File | Head::Absent | Head::Attr | Head::Seal => 10,
            Head::Rule => 11,
            Head::Task | Head::Call(_) => 12,
            Head::Schedule | Head::Rounds | Head::Threads => 13,
        }
    }

    /// Whether there may be several lines of this kind.
    pub fn repeats(self) -> bool
        ensures { result ≡ repeats self }
    {
        match self {
            Head::EvmXattrs | Head::Fs | Head::File | Head::Absent | Head::Rule | Head::Task => {
                true
            }
            _ => false,
        }
    }
}

/// Whether a line of this rank can follow lines of which the last had the rank `at`.
pub fn in_order(rank: u8, again: bool, at: u8) -> bool
    ensures { result ≡ in_order rank again at }
{
    1 <= at && (at < rank || (again && at == rank))
}
