//! The words with which the lines of calls begin.

ghost use Rattle.std.specs.Prelude.{◌≡◌};
ghost use Rattle.call_lines.specs.Table.{call_word_of};

use text_forms::look_up;

/// The kind of a call's line, by its first word.
#[derive(Clone, Copy)]
pub enum CallWord {
    Open,
    Read,
    Write,
    Ftruncate,
    Close,
    Mmap,
    Mread,
    Munmap,
    Exec,
    Endexec,
    SetAttr,
    RemoveAttr,
    Chmod,
    Chown,
    Post,
    Wait,
    AddRule,
    Module,
    Firmware,
}

// The calls by the words with which their lines begin.
const CALLS: [(&[u8], CallWord); 19] = [
    (b"open", CallWord::Open),
    (b"read", CallWord::Read),
    (b"write", CallWord::Write),
    (b"ftruncate", CallWord::Ftruncate),
    (b"close", CallWord::Close),
    (b"mmap", CallWord::Mmap),
    (b"mread", CallWord::Mread),
    (b"munmap", CallWord::Munmap),
    (b"exec", CallWord::Exec),
    (b"endexec", CallWord::Endexec),
    (b"setxattr", CallWord::SetAttr),
    (b"removexattr", CallWord::RemoveAttr),
    (b"chmod", CallWord::Chmod),
    (b"chown", CallWord::Chown),
    (b"post", CallWord::Post),
    (b"wait", CallWord::Wait),
    (b"addrule", CallWord::AddRule),
    (b"module", CallWord::Module),
    (b"firmware", CallWord::Firmware),
];

/// The kind of a call's line with this first word, if a call has it.
pub fn call_word_of(word: &[u8]) -> Option<CallWord>
    ensures { result ≡ call_word_of word.now }
{
    look_up(&CALLS, word)
}
