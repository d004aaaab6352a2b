// Texts that repeat themselves.
use std::alloc::{AllocError as OutOfMemory, Global};
use worked_calls::cut;

/// The text in which each `{{FROM..TO TEXT}}` stands for its TEXT once for each number from FROM on
/// and below TO, with the number in place of each `{}`. Empty if one of them has another form.
pub fn spread(alloc: Global, text: &str) -> Result<String, OutOfMemory> {
    let (front, marks) = cut(text, "{{");
    let mut out = String::from_str(alloc, front)?;
    if front.len() < text.len() && !push_marks(&mut out, marks)? {
        out.clear();
    }
    Ok(out)
}

// Appends what stands after the first `{{`. Answers whether each mark has its form.
fn push_marks(out: &mut String, marks: &str) -> Result<bool, OutOfMemory> {
    for mark in marks.split("{{") {
        if !push_mark(out, mark)? {
            return Ok(false);
        }
    }
    Ok(true)
}

// Appends what stands after a `{{`. Answers whether it has its form.
fn push_mark(out: &mut String, mark: &str) -> Result<bool, OutOfMemory> {
    let (inner, rest) = cut(mark, "}}");
    let (numbers, piece) = cut(inner, " ");
    let Some((from, to)) = numbers_of(numbers) else {
        return Ok(false);
    };
    if inner.len() == mark.len() || numbers.len() == inner.len() {
        return Ok(false);
    }
    for number in from..to {
        push_numbered(out, piece, number)?;
    }
    out.push_str(rest)?;
    Ok(true)
}

// The first number, and the one after the last.
fn numbers_of(text: &str) -> Option<(u32, u32)> {
    let (from, to) = cut(text, "..");
    Some((from.parse().ok()?, to.parse().ok()?))
}

// Appends the text, with the number in place of each `{}`.
fn push_numbered(out: &mut String, piece: &str, number: u32) -> Result<(), OutOfMemory> {
    let alloc = *out.allocator();
    let digits = format!(in alloc; "{number}")?;
    out.push_str(piece.replace(alloc, "{}", digits.as_str())?.as_str())
}
