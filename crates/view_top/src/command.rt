// The words of the command line, and what they ask for.

ghost use Rattle.std.specs.Prelude.{◌≡◌, map, string_bytes};
ghost use Rattle.view_top.specs.Words as spec;

use text_forms::{is_short_numeral, short_number_of};
use view_journal::Window;

/// An inode of a report, and the places of its journal if not all are asked for.
#[derive(Clone, Copy)]
pub struct Asked {
    pub inode: u32,
    pub range: Option<Window>,
}

/// What the words ask for.
#[derive(Clone, Copy)]
pub enum Command {
    /// The page of a run.
    Page,
    /// The page of two runs, in which the inodes whose journals differ stand side by side.
    Pair,
    /// The page of an inode.
    Inode(Asked),
    /// The drawing of an inode as a file.
    Svg(Asked),
}

// The most that a number is read as. Each place of each report is below it.
const FAR: u32 = 1_000_000_000;

/// What the words ask for, if they are one of the program's forms. The words don't include the
/// program's name.
pub fn command_of(words: &[String]) -> Option<Command>
    ensures { result ≡ spec.command_of (map string_bytes words.now) }
{
    match words {
        [word] => whole(word.as_str()),
        [word, inode] => at_inode(word.as_str(), inode.as_str()),
        [word, inode, first, last] => {
            at_places(word.as_str(), inode.as_str(), first.as_str(), last.as_str())
        }
        _ => None,
    }
}

fn whole(word: &str) -> Option<Command>
    ensures { result ≡ spec.whole word.now }
{
    match word {
        "page" => Some(Command::Page),
        "pair" => Some(Command::Pair),
        _ => None,
    }
}

fn at_inode(word: &str, inode: &str) -> Option<Command>
    ensures { result ≡ spec.at_inode word.now inode.now }
{
    let inode = number_of(inode)?;
    let range = None;
    drawn(word, Asked { inode, range })
}

fn at_places(word: &str, inode: &str, first: &str, last: &str) -> Option<Command>
    ensures { result ≡ spec.at_places word.now inode.now first.now last.now }
{
    let inode = number_of(inode)?;
    let first = number_of(first)?;
    let last = number_of(last)?;
    let range = Some(Window { first, last });
    drawn(word, Asked { inode, range })
}

fn drawn(word: &str, asked: Asked) -> Option<Command>
    ensures { result ≡ spec.drawn word.now asked }
{
    match word {
        "inode" => Some(Command::Inode(asked)),
        "svg" => Some(Command::Svg(asked)),
        _ => None,
    }
}

// The number that a word names, in digits without a leading zero.
fn number_of(word: &str) -> Option<u32>
    ensures { result ≡ spec.number_of word.now }
{
    let digits = word.as_bytes();
    if !is_short_numeral(digits, 10) {
        return None;
    }
    match short_number_of(digits, 10, u64::from(FAR)) {
        Some(number) => Some(number as u32),
        None => Some(FAR),
    }
}
