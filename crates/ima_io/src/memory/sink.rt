ghost use Rattle.std.specs.Prelude.{◌≡◌, ◌-◌, ◌<◌, ◌≤◌, ◌==◌, ◌&&◌, ◌||◌, nat_lt, [], length, min, is_err, IfOk, OnErr, Some, if◌then◌else◌};
ghost use Rattle.std.specs.Io.KnownBytes.{WriteAppends};
ghost use Rattle.ima_io.specs.Counts.{Rose, counted_on};
ghost use Rattle.ima_io.specs.Memory.{fails_at};

use crate::outside::{Failed, Sink};
use std::alloc::{AllocError as OutOfMemory, Global};
use std::marker::Model;

/// A sink into memory of a fixed capacity. It takes at most `piece` bytes in one call. A call fails
/// if its number, counted from 0, is in `fails`, or if it brings a nonempty piece when the capacity
/// is used up.
#[derive(Drop)]
pub struct MemSink {
    taken: Vec<u8>,
    room: usize,
    piece: usize,
    fails: Vec<u64>,
    call: u64,
    faults: u64,
}

impl Model for MemSink {
    ghost use Rattle.std.specs.Prelude.{ℕ, ◌<◌, ◌≤◌, vec_len, vec_capacity};
    ghost use Rattle.ima_io.specs.Memory.{Store};

    ghost Value = { Store };

    ghost view = { λ s. record {
      taken = s.taken.items;
      room = s.room;
      piece = s.piece;
      fails = s.fails.items;
      call = s.call;
      faults = s.faults;
    } };

    ghost invariant = { λ s. (vec_len s.taken ≤ s.room) × (s.room ≤ vec_capacity s.taken)
        × (0 < s.piece) };
}

impl MemSink {
    /// A sink before its first call. Its whole capacity is reserved at once, so no write allocates
    /// memory. `piece` is at least 1.
    pub fn new(
        alloc: Global,
        room: usize,
        piece: usize,
        fails: Vec<u64>,
    ) -> Result<MemSink, OutOfMemory>
        requires { 0 < piece }
        ensures { IfOk result (λ sink. sink ≡ record {
          taken = [];
          room = room;
          piece = piece;
          fails = fails.items;
          call = 0;
          faults = 0;
        }) }
    {
        Ok(MemSink {
            taken: Vec::with_capacity(alloc, room)?,
            room,
            piece,
            fails,
            call: 0,
            faults: 0,
        })
    }

    /// The bytes that the sink took, in order.
    pub fn taken(&self) -> &[u8]
        ensures { result.now ≡ self.now.taken }
    {
        self.taken.as_slice()
    }
}

impl Sink for MemSink {
    ghost taken = { λ s. Some s.taken };

    ghost faults = { λ s. s.faults };

    fn write(&mut self, piece: &[u8]) -> Result<usize, Failed>
        ensures fits { IfOk result (λ n. n ≤ length piece.now) }
        ensures moves { IfOk result (λ n. 0 < length piece.now → 0 < n) }
        ensures bytes { WriteAppends (Some self.old.taken) (Some self.new.taken) result piece.now }
        ensures count { self.old.faults ≤ self.new.faults }
        ensures cause { OnErr result (Rose self.old.faults self.new.faults) }

        // It fails exactly at the calls with those numbers and when no room is left for a byte, and
        // otherwise takes as many bytes as it may.
        ensures failed { is_err result ≡ (fails_at self.old.fails self.old.call
            || (self.old.room == length self.old.taken && nat_lt 0 (length piece.now))) }
        ensures took { IfOk result
            (λ n. n ≡ min (min (length piece.now) self.old.piece)
            (self.old.room - length self.old.taken)) }
        ensures after { self.new ≡ record self.old {
          taken = self.new.taken;
          call = counted_on self.old.call;
          faults = if is_err result then counted_on self.old.faults else self.old.faults;
        } }
    {
        let fails = self.fails.contains(&self.call);
        self.call = self.call.saturating_add(1);
        let room = self.room - self.taken.len();
        if fails || (room == 0 && !piece.is_empty()) {
            self.faults = self.faults.saturating_add(1);
            return Err(Failed);
        }
        let n = piece.len().min(self.piece).min(room);
        match self.taken.extend_from_slice(&piece[..n]) {
            Ok(()) => Ok(n),
            Err(_) => unreachable!(),
        }
    }
}
