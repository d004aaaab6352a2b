ghost use Rattle.std.specs.Prelude.{◌≡◌};
ghost use Rattle.buffer_text.specs.Heads.{head_of, rank, repeats};

use text_forms::look_up;

/// The kind of a line of a text of buffers, by its first word.
#[derive(Clone, Copy)]
pub enum BufferHead {
    Imabuffers,
    Hash,
    Rule,
    Caller,
    Critical,
    Threads,
}

// The kinds of lines by their first words.
const HEADS: [(&[u8], BufferHead); 6] = [
    (b"imabuffers", BufferHead::Imabuffers),
    (b"hash", BufferHead::Hash),
    (b"rule", BufferHead::Rule),
    (b"caller", BufferHead::Caller),
    (b"critical", BufferHead::Critical),
    (b"threads", BufferHead::Threads),
];

/// The line's kind, by its first word.
pub fn head_of(word: &[u8]) -> Option<BufferHead>
    ensures { result ≡ head_of word.now }
{
    look_up(&HEADS, word)
}

impl BufferHead {
    /// The rank of the line. Lines come in the order of their ranks.
    pub fn rank(self) -> u8
        ensures { result ≡ rank self }
    {
        match self {
            BufferHead::Imabuffers => 1,
            BufferHead::Hash => 2,
            BufferHead::Rule => 3,
            BufferHead::Caller | BufferHead::Critical => 4,
            BufferHead::Threads => 5,
        }
    }

    /// Whether there may be several lines of this kind.
    pub fn repeats(self) -> bool
        ensures { result ≡ repeats self }
    {
        match self {
            BufferHead::Rule | BufferHead::Caller => true,
            _ => false,
        }
    }
}
