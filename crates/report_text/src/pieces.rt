// Cuts a long text into pieces.

ghost use Rattle.std.specs.Prelude.{◌≡◌, ◌++◌, IfOk};

use ima_io::Pieces;
use std::alloc::{AllocError as OutOfMemory, Global};

// The length in bytes at which a text is cut off as a piece.
const PIECE: usize = 32_768;

// Moves the text to `out` if it is long enough for a piece, and returns the text to go on with.
pub fn cut(alloc: Global, out: &mut Pieces, piece: Vec<u8>) -> Result<Vec<u8>, OutOfMemory>
    ensures { IfOk result (λ rest. out.new ++ rest.items ≡ out.old ++ piece.items) }
{
    if piece.len() < PIECE {
        return Ok(piece);
    }
    out.push(piece)?;
    Ok(Vec::new(alloc))
}
