ghost use Rattle.std.specs.Prelude.{◌≡◌};

use crate::outside::{Failed, Sink};
use std::io::Write;

/// A sink that writes to a writer. Contracts know its bytes as far as they know the writer's, so
/// not at all for a stream of the system. Its count of faults has 64 bits and saturates; it rises
/// at each `Err` of the writer, and at each write that takes no byte of a nonempty piece.
#[derive(Drop)]
pub struct StdSink<W> {
    writer: W,
    faults: u64,
}

impl<W: Write> StdSink<W> {
    /// A sink that writes to `writer` and hasn't failed yet.
    pub fn new(writer: W) -> StdSink<W>
        ensures { ⟦<StdSink<W> as Sink>⟧.faults result ≡ 0 }
    {
        StdSink { writer, faults: 0 }
    }
}

impl<W: Write> Sink for StdSink<W> {
    ghost taken = { λ s. W.contents s.writer };

    ghost faults = { λ s. s.faults };

    fn write(&mut self, piece: &[u8]) -> Result<usize, Failed> {
        match self.writer.write(piece) {
            Ok(n) if n > 0 || piece.is_empty() => Ok(n),
            _ => {
                self.faults = self.faults.saturating_add(1);
                Err(Failed)
            }
        }
    }
}
