ghost use Rattle.std.specs.Prelude.{◌≡◌};
ghost use Rattle.script_text.specs.ListGrammar.{head_of};

/// The kind of a line of a list text, by its first word.
#[derive(Clone, Copy)]
pub enum ListHead {
    Imalist,
    File,
    End,
}

/// The line's kind, by its first word.
pub fn head_of(word: &[u8]) -> Option<ListHead>
    ensures { result ≡ head_of word.now }
{
    if word == b"file".as_slice() {
        Some(ListHead::File)
    } else if word == b"imalist".as_slice() {
        Some(ListHead::Imalist)
    } else if word == b"end".as_slice() {
        Some(ListHead::End)
    } else {
        None
    }
}
