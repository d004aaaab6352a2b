// The deeds of event lines: each function gives the deed that the words begin with, and the words
// after it.

ghost use Rattle.std.specs.Prelude.{◌≡◌, map, option_map};
ghost use Rattle.report_words.specs.Deeds as spec;
ghost use Rattle.report_words.specs.Forms.{after_by};

use crate::acts::check_in;
use crate::event::{Deed, Kind};
use crate::forms::{after, after_any, number_in};
use script_words::mode_of;
use text_forms::look_up;

/// The first word of a deed.
#[derive(Clone, Copy)]
pub enum DeedWord {
    Count,
    Check,
    Take,
    Chunk,
    Finish,
    Read,
    Write,
    Trunc,
    SetAttr,
    SetMeta,
    Close,
    CloseTake,
    CloseChunk,
    CloseFinish,
}

const DEEDS: [(&[u8], DeedWord); 14] = [
    (b"count", DeedWord::Count),
    (b"check", DeedWord::Check),
    (b"take", DeedWord::Take),
    (b"chunk", DeedWord::Chunk),
    (b"finish", DeedWord::Finish),
    (b"read", DeedWord::Read),
    (b"write", DeedWord::Write),
    (b"trunc", DeedWord::Trunc),
    (b"set-attr", DeedWord::SetAttr),
    (b"set-meta", DeedWord::SetMeta),
    (b"close", DeedWord::Close),
    (b"close-take", DeedWord::CloseTake),
    (b"close-chunk", DeedWord::CloseChunk),
    (b"close-finish", DeedWord::CloseFinish),
];

const KINDS: [(&[u8], Kind); 4] = [
    (b"r", Kind::Read),
    (b"w", Kind::Write),
    (b"rw", Kind::ReadWrite),
    (b"x", Kind::Exec),
];

/// The deed that the words begin with, and the words after it.
#[tactic(auto, unfolding(crate::specs::Deeds::deed_in))]
pub fn deed_in<'w>(words: &'w [&'w [u8]]) -> Option<(Deed, &'w [&'w [u8]])>
    ensures { option_map (λ p. (p.0, map (λ w. w.now) p.1.now)) result
        ≡ spec.deed_in (map (λ w. w.now) words.now) }
{
    match words {
        [] => None,
        [first, rest @ ..] => {
            let word = word_of(first)?;
            deed_by(word, rest)
        }
    }
}

fn word_of(text: &[u8]) -> Option<DeedWord>
    ensures { result ≡ spec.word_of text.now }
{
    look_up(&DEEDS, text)
}

// The deed whose first word is this, by the words after it.
#[tactic(auto, unfolding(crate::specs::Deeds::deed_by))]
fn deed_by<'w>(word: DeedWord, words: &'w [&'w [u8]]) -> Option<(Deed, &'w [&'w [u8]])>
    ensures { option_map (λ p. (p.0, map (λ w. w.now) p.1.now)) result
        ≡ spec.deed_by word (map (λ w. w.now) words.now) }
{
    match word {
        DeedWord::Count => count_in(words),
        DeedWord::Check => check_in(words),
        DeedWord::Read => read_in(words),
        DeedWord::Write => write_in(words),
        DeedWord::Trunc => trunc_in(words),
        DeedWord::SetAttr => set_attr_in(words),
        DeedWord::SetMeta => set_meta_in(words),
        _ => file_deed_in(word, words),
    }
}

// The deed of a word after which stands its file alone.
fn file_deed(word: DeedWord, file: u32) -> Option<Deed>
    ensures { result ≡ spec.file_deed word file }
{
    match word {
        DeedWord::Take => Some(Deed::Take(file)),
        DeedWord::Chunk => Some(Deed::Chunk(file)),
        DeedWord::Finish => Some(Deed::Finish(file)),
        DeedWord::Close => Some(Deed::Close(file)),
        DeedWord::CloseTake => Some(Deed::CloseTake(file)),
        DeedWord::CloseChunk => Some(Deed::CloseChunk(file)),
        DeedWord::CloseFinish => Some(Deed::CloseFinish(file)),
        _ => None,
    }
}

fn file_deed_in<'w>(word: DeedWord, words: &'w [&'w [u8]]) -> Option<(Deed, &'w [&'w [u8]])>
    ensures { option_map (λ p. (p.0, map (λ w. w.now) p.1.now)) result
        ≡ spec.file_deed_in word (map (λ w. w.now) words.now) }
{
    let (file, rest) = number_in(words)?;
    let deed = file_deed(word, file)?;
    Some((deed, rest))
}

fn kind_of(word: &[u8]) -> Option<Kind>
    ensures { result ≡ spec.kind_of word.now }
{
    look_up(&KINDS, word)
}

// `count KIND`, with `create` after it if given.
fn count_in<'w>(words: &'w [&'w [u8]]) -> Option<(Deed, &'w [&'w [u8]])>
    ensures { option_map (λ p. (p.0, map (λ w. w.now) p.1.now)) result
        ≡ spec.count_in (map (λ w. w.now) words.now) }
{
    match words {
        [] => None,
        [first, rest @ ..] => {
            let kind = kind_of(first)?;
            Some(count_by(kind, rest))
        }
    }
}

// An execution creates nothing.
fn count_by<'w>(kind: Kind, words: &'w [&'w [u8]]) -> (Deed, &'w [&'w [u8]])
    ensures { (result.0, map (λ w. w.now) result.1.now)
        ≡ spec.count_by kind (map (λ w. w.now) words.now) }
{
    match after(b"create", words) {
        Some(rest) if !is_exec(kind) => {
            let create = true;
            (Deed::Count { kind, create }, rest)
        }
        _ => {
            let create = false;
            (Deed::Count { kind, create }, words)
        }
    }
}

fn is_exec(kind: Kind) -> bool
    ensures { result ≡ spec.is_exec kind }
{
    match kind {
        Kind::Exec => true,
        Kind::Read | Kind::Write | Kind::ReadWrite => false,
    }
}

fn read_in<'w>(words: &'w [&'w [u8]]) -> Option<(Deed, &'w [&'w [u8]])>
    ensures { option_map (λ p. (p.0, map (λ w. w.now) p.1.now)) result
        ≡ spec.read_in (map (λ w. w.now) words.now) }
{
    let (file, rest) = number_in(words)?;
    let (from, rest) = number_in(rest)?;
    let (len, rest) = number_in(rest)?;
    Some((Deed::Read { file, from, len }, rest))
}

fn write_in<'w>(words: &'w [&'w [u8]]) -> Option<(Deed, &'w [&'w [u8]])>
    ensures { option_map (λ p. (p.0, map (λ w. w.now) p.1.now)) result
        ≡ spec.write_in (map (λ w. w.now) words.now) }
{
    let (file, rest) = number_in(words)?;
    let (from, rest) = number_in(rest)?;
    let (len, rest) = number_in(rest)?;
    Some((Deed::Write { file, from, len }, rest))
}

fn trunc_in<'w>(words: &'w [&'w [u8]]) -> Option<(Deed, &'w [&'w [u8]])>
    ensures { option_map (λ p. (p.0, map (λ w. w.now) p.1.now)) result
        ≡ spec.trunc_in (map (λ w. w.now) words.now) }
{
    let (file, rest) = number_in(words)?;
    let (len, rest) = number_in(rest)?;
    Some((Deed::Trunc { file, len }, rest))
}

// `set-attr NAME LEN`, or a dash in place of the length for a removal.
fn set_attr_in<'w>(words: &'w [&'w [u8]]) -> Option<(Deed, &'w [&'w [u8]])>
    ensures { option_map (λ p. (p.0, map (λ w. w.now) p.1.now)) result
        ≡ spec.set_attr_in (map (λ w. w.now) words.now) }
{
    let rest = after_any(words)?;
    match after(b"-", rest) {
        Some(rest) => Some((Deed::RemoveAttr, rest)),
        None => {
            let (_, rest) = number_in(rest)?;
            Some((Deed::SetAttr, rest))
        }
    }
}

fn after_mode<'w>(words: &'w [&'w [u8]]) -> Option<&'w [&'w [u8]]>
    ensures { option_map (λ r. map (λ w. w.now) r.now) result
        ≡ after_by spec.is_mode (map (λ w. w.now) words.now) }
{
    match words {
        [] => None,
        [first, rest @ ..] => if mode_of(first).is_some() {
            Some(rest)
        } else {
            None
        },
    }
}

// `set-meta mode OCTAL` or `set-meta owner UID GID`.
fn set_meta_in<'w>(words: &'w [&'w [u8]]) -> Option<(Deed, &'w [&'w [u8]])>
    ensures { option_map (λ p. (p.0, map (λ w. w.now) p.1.now)) result
        ≡ spec.set_meta_in (map (λ w. w.now) words.now) }
{
    match after(b"mode", words) {
        Some(rest) => {
            let rest = after_mode(rest)?;
            Some((Deed::SetMeta, rest))
        }
        None => owner_in(words),
    }
}

fn owner_in<'w>(words: &'w [&'w [u8]]) -> Option<(Deed, &'w [&'w [u8]])>
    ensures { option_map (λ p. (p.0, map (λ w. w.now) p.1.now)) result
        ≡ spec.owner_in (map (λ w. w.now) words.now) }
{
    let rest = after(b"owner", words)?;
    let (_, rest) = number_in(rest)?;
    let (_, rest) = number_in(rest)?;
    Some((Deed::SetMeta, rest))
}
