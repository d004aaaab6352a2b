ghost use Rattle.std.specs.Prelude.{◌≡◌};

use crate::outside::{Failed, Source};
use std::io::Read;

/// A source that reads from a reader. Contracts know its bytes as far as they know the reader's, so
/// not at all for a stream of the system. Its count of faults has 64 bits and saturates; it rises
/// at each `Err` of the reader.
#[derive(Drop)]
pub struct StdSource<R> {
    reader: R,
    faults: u64,
}

impl<R: Read> StdSource<R> {
    /// A source that reads from `reader` and hasn't failed yet.
    pub fn new(reader: R) -> StdSource<R>
        ensures { ⟦<StdSource<R> as Source>⟧.faults result ≡ 0 }
    {
        StdSource { reader, faults: 0 }
    }
}

impl<R: Read> Source for StdSource<R> {
    ghost left = { λ s. R.remaining s.reader };

    ghost faults = { λ s. s.faults };

    fn read(&mut self, buf: &mut [u8]) -> Result<usize, Failed> {
        match self.reader.read(buf) {
            Ok(n) => Ok(n),
            Err(_) => {
                self.faults = self.faults.saturating_add(1);
                Err(Failed)
            }
        }
    }
}
