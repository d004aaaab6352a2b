// Bytes in pieces that are never moved.
ghost use Rattle.std.specs.Prelude.{◌≡◌, [], ◌++◌, IfOk, OnOk};
ghost use Rattle.std.specs.List.{flat_map};

use std::alloc::{AllocError as OutOfMemory, Global};
use std::marker::Model;

/// Bytes in pieces that needn't be contiguous in memory, so that a new piece doesn't move the older
/// ones. Contracts see the concatenated bytes.
#[derive(Drop)]
pub struct Pieces {
    pieces: Vec<Vec<u8>>,
}

impl Model for Pieces {
    ghost use Rattle.std.specs.Prelude.{ℕ, List};
    ghost use Rattle.std.specs.List.{flat_map};

    ghost Value = { List ℕ };

    ghost view = { λ p. flat_map (λ piece. piece.items) p.pieces.items };
}

impl Pieces {
    /// An empty collection of pieces.
    pub fn new(alloc: Global) -> Pieces
        ensures { result ≡ [] }
    {
        Pieces {
            pieces: Vec::new(alloc),
        }
    }

    /// Appends a piece after the others.
    pub fn push(&mut self, piece: Vec<u8>) -> Result<(), OutOfMemory>
        ensures { OnOk result (self.new ≡ self.old ++ piece.items) }
    {
        self.pieces.push(piece)?;
        Ok(())
    }

    /// The pieces, in order.
    pub fn as_slice(&self) -> &[Vec<u8>]
        ensures { flat_map (λ piece. piece.items) result.now ≡ self.now }
    {
        self.pieces.as_slice()
    }

    /// The bytes of all pieces, copied into one vector.
    pub fn joined(&self, alloc: Global) -> Result<Vec<u8>, OutOfMemory>
        ensures { IfOk result (λ bytes. bytes.items ≡ self.now) }
    {
        let mut bytes = Vec::new(alloc);
        for piece in self.as_slice() {
            bytes.extend_from_slice(piece)?;
        }
        Ok(bytes)
    }
}
