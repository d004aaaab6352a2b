// The traits through which a run sees the outside.
ghost use Rattle.std.specs.Prelude.{ℕ, ◌<◌, ◌≤◌, List, length, Option, IfOk, OnErr};
ghost use Rattle.std.specs.Io.KnownBytes.{ReadConsumes, WriteAppends};
ghost use Rattle.ima_io.specs.Counts.{Rose};

/// The only error of a single read or write: the outside failed in this call, and its count of
/// faults rose. No byte was transferred.
#[derive(Clone, Copy, Debug, PartialEq, Eq)]
pub struct Failed;

/// A supplier of input bytes.
pub trait Source {
    // The bytes left, if the source lets contracts know them.
    ghost left: { Self → Option (List ℕ) };

    // How often the source has failed.
    ghost faults: { Self → ℕ };

    /// Fills the beginning of `buf` with the next bytes and returns their number. If `buf` isn't
    /// empty, 0 means the end of input. `Failed` is returned only if the source's count of faults
    /// rose in this call.
    fn read(&mut self, buf: &mut [u8]) -> Result<usize, Failed>
        ensures fits { IfOk result (λ n. n ≤ length buf.old) }

        // The bytes are the next ones, and the end is reported only if none is left. A fault
        // consumes none.
        ensures bytes { ReadConsumes (left self.old) (left self.new) result buf.new }

        ensures count { faults self.old ≤ faults self.new }
        ensures cause { OnErr result (Rose (faults self.old) (faults self.new)) };
}

/// A taker of output bytes.
pub trait Sink {
    // The bytes taken, if the sink lets contracts know them.
    ghost taken: { Self → Option (List ℕ) };

    // How often the sink has failed.
    ghost faults: { Self → ℕ };

    /// Takes a prefix of `piece` and returns its length, at least 1 if `piece` isn't empty.
    /// `Failed` is returned only if the sink's count of faults rose in this call.
    fn write(&mut self, piece: &[u8]) -> Result<usize, Failed>
        ensures fits { IfOk result (λ n. n ≤ length piece.now) }
        ensures moves { IfOk result (λ n. 0 < length piece.now → 0 < n) }

        // The prefix is appended to the bytes taken. A fault appends none.
        ensures bytes { WriteAppends (taken self.old) (taken self.new) result piece.now }

        ensures count { faults self.old ≤ faults self.new }
        ensures cause { OnErr result (Rose (faults self.old) (faults self.new)) };
}

/// The position of a step in a run: the task, the task's call, and the step of that call, each
/// counted from 0.
#[derive(Clone, Copy, PartialEq, Eq)]
pub struct Who {
    pub task: u32,
    pub call: u32,
    pub step: u32,
}

/// A hook that can hold up a task. `pass` is called before each turn of a task, outside every lock,
/// and has no effect on the run itself: a test uses it to delay a step.
pub trait Gate {
    fn pass(&self, who: Who);
}

/// The gate that never holds up a task.
#[derive(Clone, Copy)]
pub struct FreeGate;

impl Gate for FreeGate {
    fn pass(&self, _who: Who) {}
}
