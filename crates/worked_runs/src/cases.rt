// A case of a family, and the check of an outcome against it.
use crate::numbers::number;
use std::str;
use worked_calls::{Call, Outcome, cut};

/// One case, in the form of its text:
///
/// ```text
/// >>> the case's name
/// the words of the command line
/// the input, any number of lines
/// --- writes 0
/// the whole output; the number is the exit status
/// --- anywhere
/// ends of lines that are somewhere in the output; this part may be missing
/// --- notes
/// the line on the note; if this part is missing, the note is empty
/// ```
///
/// A part `has` in place of `writes` lists only some lines of the output, all of whose lines end in
/// a line feed alone: each must be in the output, in this order, and a line that ends in ` ..`
/// stands for any line that begins with the text before it. The part `anywhere` is for lines whose
/// order and numbers depend on how the threads' steps fall.
///
/// A text that repeats itself is written short, as `spread` reads it. The first line of an input
/// can name a gate: after `# order TASK.CALL.STEP ..` these steps come in this order, after
/// `# exactly` the steps that pass are just these, and after `# meet` or `# apart` the first steps
/// of two tasks, or two callers, wait for each other, and meet or don't.
#[derive(Clone, Copy)]
pub struct Case<'a> {
    pub name: &'a str,
    pub words: &'a str,
    pub input: &'a str,
    pub status: u32,
    pub whole: bool,
    pub out: &'a str,
    pub anywhere: &'a str,
    pub note: &'a str,
}

impl<'a> Case<'a> {
    /// Parses the text of a case, which begins after the mark `>>> `. If a mark isn't there, the
    /// status is a number that no outcome has.
    pub fn of(text: &'a str) -> Case<'a> {
        let (name, rest) = cut(text, "\n");
        let (words, rest) = cut(rest, "\n");
        let (input, rest) = cut(rest, "--- ");
        let (head, rest) = cut(rest, "\n");
        let (form, status) = cut(head, " ");
        let (rest, note) = cut(rest, "--- notes\n");
        let (out, anywhere) = cut(rest, "--- anywhere\n");
        Case {
            name,
            words,
            input,
            status: number(status),
            whole: form == "writes",
            out,
            anywhere,
            note,
        }
    }

    /// The call of the case.
    pub fn call(&self) -> Call<'a> {
        Call::sound(self.words, self.input.as_bytes())
    }

    /// Whether the outcome meets the case.
    pub fn holds(&self, got: &Outcome) -> bool {
        let told = got.status as u32 == self.status && got.note() == self.note.as_bytes();
        told && self.is_written(got.out())
    }

    // Whether the output is that of the case.
    fn is_written(&self, out: &[u8]) -> bool {
        let Ok(text) = str::from_utf8(out) else {
            return false;
        };
        let well = if self.whole {
            text == self.out
        } else {
            are_lines(out) && has_lines(text, self.out)
        };
        well && has_ends(text, self.anywhere)
    }
}

// Whether the bytes are lines, each of which ends in a line feed alone.
fn are_lines(out: &[u8]) -> bool {
    out.ends_with(b"\n") && !out.contains(&b'\r')
}

// Whether the output has all of these lines, in this order.
fn has_lines(out: &str, lines: &str) -> bool {
    let mut lines = lines.lines();
    let mut want = lines.next();
    for line in out.lines() {
        if is_wanted(line, want) {
            want = lines.next();
        }
    }
    want.is_none()
}

// Whether the line is `want` or, if that has ` ..`, begins with the text before it.
fn is_wanted(line: &str, want: Option<&str>) -> bool {
    let Some(want) = want else {
        return false;
    };
    let (front, _) = cut(want, " ..");
    if front.len() < want.len() {
        line.as_bytes().starts_with(front.as_bytes())
    } else {
        line == want
    }
}

// Whether each of these is the end of some line of the output.
fn has_ends(out: &str, ends: &str) -> bool {
    for end in ends.lines() {
        if !has_end(out, end) {
            return false;
        }
    }
    true
}

// Whether some line of the output ends in `end`.
fn has_end(out: &str, end: &str) -> bool {
    for line in out.lines() {
        if line.as_bytes().ends_with(end.as_bytes()) {
            return true;
        }
    }
    false
}
