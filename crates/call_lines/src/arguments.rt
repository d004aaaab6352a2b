//! The arguments of a call: words of forms, one after another.

ghost use Rattle.std.specs.Prelude.{◌≡◌, IfErr, IfOk, map};
ghost use Rattle.script_words.specs.Gives.{LineGives};
ghost use Rattle.call_lines.specs.Arguments.{flags_of, opened, way_of};

use crate::form::{Form, formed};
use crate::paths::Paths;
use call_steps::events::How;
use script_words::{LineCause, LineErr};
use std::alloc::Global;
use std::marker::PhantomData;
use text_forms::look_up;

/// The forms of the words of a line.
pub trait Forms {
    ghost use Rattle.std.specs.Prelude.{ℕ, List, Result};
    ghost use Rattle.script_words.specs.declared.fault.LineCause.{LineCause};

    /// What words of the forms say.
    type Values: Drop;

    /// What the words say, if the files have these paths, or the cause for which the line is
    /// refused.
    ghost values_of: { List (List ℕ) → List (List ℕ) → Result Self.Values LineCause };

    /// Reads words of the forms.
    fn read(alloc: Global, paths: &Paths, words: &[&[u8]]) -> Result<Self::Values, LineErr>
        ensures { LineGives result (values_of paths.now (map (λ w. w.now) words.now)) };
}

/// No more words.
pub struct Alone;

impl Forms for Alone {
    ghost use Rattle.call_lines.specs.Arguments.{no_words};

    type Values = ();

    ghost values_of = { λ paths. no_words };

    fn read(_alloc: Global, _paths: &Paths, words: &[&[u8]]) -> Result<(), LineErr> {
        match words {
            [] => Ok(()),
            _ => Err(LineErr::Refused(LineCause::BadField)),
        }
    }
}

/// A way of opening, and its flags.
pub struct Way;

impl Forms for Way {
    ghost use Rattle.std.specs.Prelude.{ok_or};
    ghost use Rattle.script_words.specs.declared.fault.LineCause.TheVariants.{BadField};
    ghost use Rattle.call_lines.specs.Arguments.{way_of};

    type Values = (How, bool);

    ghost values_of = { λ paths words. ok_or (way_of words) BadField };

    fn read(_alloc: Global, _paths: &Paths, words: &[&[u8]]) -> Result<(How, bool), LineErr> {
        formed(way_of(words))
    }
}

/// A word of the first form, and then words of the others.
pub struct Then<F, R> {
    forms: PhantomData<(F, R)>,
}

impl<F: Form, R: Forms> Forms for Then<F, R> {
    ghost use Rattle.call_lines.specs.Arguments.{word_first};

    type Values = (F::Value, R::Values);

    ghost values_of = { λ paths. word_first (F.read paths) (R.values_of paths) };

    fn read(
        alloc: Global,
        paths: &Paths,
        words: &[&[u8]],
    ) -> Result<(F::Value, R::Values), LineErr> {
        let [word, rest @ ..] = words else {
            return Err(LineErr::Refused(LineCause::BadField));
        };
        match F::read(alloc, paths, word) {
            Ok(first) => after(first, R::read(alloc, paths, rest)),
            Err(LineErr::Refused(LineCause::Unknown)) => {
                let _ = R::read(alloc, paths, rest)?;
                Err(LineErr::Refused(LineCause::Unknown))
            }
            Err(err) => Err(err),
        }
    }
}

// What the first word says, and what the others say.
fn after<A: Drop, B: Drop>(first: A, rest: Result<B, LineErr>) -> Result<(A, B), LineErr>
    ensures ok { IfOk result (λ r. (r.0 ≡ first) × (rest ≡ Ok r.1)) }
    ensures err { IfErr result (λ e. rest ≡ Err e) }
{
    match rest {
        Ok(values) => Ok((first, values)),
        Err(err) => Err(err),
    }
}

// How a file is opened, and whether it is truncated.
fn way_of(words: &[&[u8]]) -> Option<(How, bool)>
    ensures { result ≡ way_of (map (λ w. w.now) words.now) }
{
    let [way, flags @ ..] = words else {
        return None;
    };
    let (create, trunc) = flags_of(flags)?;
    opened(way, create, trunc)
}

// What one flag says: whether the file is created, and whether it is truncated.
const FLAGS: [(&[u8], (bool, bool)); 2] = [(b"create", (true, false)), (b"trunc", (false, true))];

fn flags_of(flags: &[&[u8]]) -> Option<(bool, bool)>
    ensures { result ≡ flags_of (map (λ w. w.now) flags.now) }
{
    match flags {
        [] => Some((false, false)),
        [flag] => look_up(&FLAGS, flag),
        [create, trunc] => {
            if *create == b"create".as_slice() && *trunc == b"trunc".as_slice() {
                Some((true, true))
            } else {
                None
            }
        }
        _ => None,
    }
}

// Only a file open for writing can be truncated.
fn opened(way: &[u8], create: bool, trunc: bool) -> Option<(How, bool)>
    ensures { result ≡ opened way.now create trunc }
{
    if way == b"r".as_slice() {
        if trunc {
            None
        } else {
            Some((How::Read { create }, false))
        }
    } else if way == b"w".as_slice() {
        let read = false;
        Some((How::Write { read, create }, trunc))
    } else if way == b"rw".as_slice() {
        let read = true;
        Some((How::Write { read, create }, trunc))
    } else {
        None
    }
}
