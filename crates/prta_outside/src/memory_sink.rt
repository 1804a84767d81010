//! A sink over memory, some of whose puts can be made to fail.

ghost use Rattle.std.specs.Prelude.{◌≡◌, ◌<◌, ◌≤◌, ◌^◌, ◌++◌, [], ◌∷◌, length, Some, IfOk, OnOk, OnErr};
ghost use Rattle.std.specs.Result.{result_ok};
ghost use Rattle.prta_outside.specs.Sink.{HasRisen};
ghost use Rattle.prta_outside.specs.MemorySink.{empty_sink, put_takes, after_put};

use crate::calls::Calls;
use crate::sink::{Sink, SinkFault};
use prta_mass::NoMemory;
use std::alloc::Global;
use std::marker::Model;

/// A sink that keeps the bytes taken in memory.
///
/// It takes only so many bytes in all and in one put, and puts can be made to fail, so that a caller's way with
/// short puts and faults can be tried.
#[derive(Debug, Drop)]
pub struct MemorySink {
    taken: Vec<u8>,
    room: usize,
    most: usize,
    puts: Calls,
    faults: u64,
}

impl Model for MemorySink {
    ghost use Rattle.std.specs.Prelude.{◌<◌, ◌≤◌, vec_len, vec_capacity};
    ghost use Rattle.prta_outside.specs.MemorySink.{SinkState};

    ghost Value = { SinkState };

    ghost view = { λ s. record { taken = s.taken.items; room = s.room; most = s.most; puts = s.puts; faults = s.faults } };

    // The memory for all bytes is there from the start.
    ghost invariant = { λ s. (0 < s.most) × (vec_len s.taken ≤ s.room) × (s.room ≤ vec_capacity s.taken) };
}

impl MemorySink {
    /// Makes an empty sink that takes at most `room` bytes in all, and at most `most` bytes in one put. It takes the
    /// memory for all of them here, and none later. Fails for want of memory alone.
    pub fn with_room(alloc: Global, room: usize, most: usize) -> Result<MemorySink, NoMemory>
        requires { 0 < most }
        ensures { IfOk result (λ sink. sink ≡ empty_sink room most) }
    {
        Ok(MemorySink {
            taken: Vec::with_capacity(alloc, room)?,
            room,
            most,
            puts: Calls::new(alloc),
            faults: 0,
        })
    }

    /// Lets the put of this number fail. Puts are counted from 1 since `with_room`, and the number of a put stays at
    /// 2^64 - 1 once it is reached. Fails for want of memory alone.
    pub fn refuse(&mut self, call: u64) -> Result<(), NoMemory>
        ensures listed { OnOk result (self.new ≡
            record self.old { puts = record self.old.puts { refused = self.old.puts.refused ++ call ∷ [] } }) }
        ensures unchanged { OnErr result (self.new ≡ self.old) }
    {
        self.puts.refuse(call)
    }

    /// The bytes taken.
    pub fn bytes(&self) -> &[u8]
        ensures { result.now ≡ self.now.taken }
    {
        &self.taken
    }
}

impl Sink for MemorySink {
    ghost taken = { λ s. Some s.taken };

    ghost faults = { λ s. s.faults };

    /// Counts the put, and fails, taking nothing, where its number is refused or the sink is full.
    fn put(&mut self, piece: &[u8]) -> Result<usize, SinkFault>
        requires { 0 < length piece.now }
        ensures answer { result_ok result ≡ put_takes self.old piece.now }
        ensures after { self.new ≡ after_put self.old piece.now (result_ok result) }
        ensures some { IfOk result (λ n. (0 < n) × (n ≤ length piece.now)) }
        ensures fault { OnErr result (HasRisen self.old.faults self.new.faults) }
        ensures never_falls { self.old.faults ≤ self.new.faults }
        ensures bounded { self.new.faults < 2 ^ 64 }
    {
        let refused = self.puts.count();
        let left = self.room - self.taken.len();
        if refused || left == 0 {
            self.faults = self.faults.saturating_add(1);
            return Err(SinkFault);
        }
        let n = piece.len().min(self.most).min(left);
        // The room is reserved, so this takes no memory.
        self.taken.extend_from_slice(&piece[..n]).unwrap();
        Ok(n)
    }
}

#[cfg(test)]
mod tests;
