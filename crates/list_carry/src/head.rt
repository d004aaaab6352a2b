// The kinds of lines of a carry text.

ghost use Rattle.std.specs.Prelude.{◌≡◌};
ghost use Rattle.list_carry.specs.Heads.{head_of, rank};

/// The kind of a line of a carry text, by its first word.
#[derive(Clone, Copy)]
pub(crate) enum CarryHead {
    Imacarry,
    Carried,
    Boot,
    File,
    End,
}

/// The line's kind, by its first word.
pub(crate) fn head_of(word: &[u8]) -> Option<CarryHead>
    ensures { result ≡ head_of word.now }
{
    if word == b"imacarry".as_slice() {
        Some(CarryHead::Imacarry)
    } else if word == b"carried".as_slice() {
        Some(CarryHead::Carried)
    } else if word == b"boot".as_slice() {
        Some(CarryHead::Boot)
    } else if word == b"file".as_slice() {
        Some(CarryHead::File)
    } else if word == b"end".as_slice() {
        Some(CarryHead::End)
    } else {
        None
    }
}

impl CarryHead {
    /// The rank of the line. Lines come in the order of their ranks.
    pub(crate) fn rank(self) -> u8
        ensures { result ≡ rank self }
    {
        match self {
            CarryHead::Imacarry => 1,
            CarryHead::Carried => 2,
            CarryHead::Boot => 3,
            CarryHead::File => 4,
            CarryHead::End => 5,
        }
    }
}
