// An empty word, which a case of `worked_runs` can't have: its words are parted by spaces.
use crate::cases::Cases;
use command_line::command_of;
use std::alloc::{AllocError as OutOfMemory, Global};

// The words, and where the empty one of them is.
static ROWS: [(&[&str], &str); 3] = [
    (&[""], "the only word"),
    (&["", "list"], "before list"),
    (&["gen", ""], "after gen"),
];

// Appends the words.
fn push_words(alloc: Global, words: &mut Vec<String>, texts: &[&str]) -> Result<(), OutOfMemory> {
    for text in texts {
        words.push(String::from_str(alloc, text)?)?;
    }
    Ok(())
}

// Whether the words name no command.
fn name_nothing(alloc: Global, texts: &[&str]) -> Result<bool, OutOfMemory> {
    let mut words = Vec::new(alloc);
    push_words(alloc, &mut words, texts)?;
    Ok(command_of(alloc, &words)?.is_none())
}

/// An empty word is no command.
pub fn try_all(alloc: Global, cases: &mut Cases) {
    for (texts, name) in &ROWS {
        let holds = name_nothing(alloc, texts).unwrap_or(false);
        cases.add("an empty word", name, holds);
    }
}
