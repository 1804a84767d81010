//! A sink over a writer.

ghost use Rattle.std.specs.Prelude.{◌≡◌, ◌^◌, ◌<◌, ◌≤◌, None, length, take, IfOk, OnErr, if◌then◌else◌, is_ok};
ghost use Rattle.prta_outside.specs.Sink.{raised, HasRisen};
ghost use Rattle.std.specs.Io.KnownBytes.{Appends};

use crate::sink::{Sink, SinkFault};
use std::io::Write;
use std::marker::Model;

/// A sink that writes to a writer, and flushes it after each write. As a sink it tells nothing of what the writer took.
///
/// An error of a write or a flush is a fault, and so is a write that takes nothing. The bytes of a write whose flush
/// failed may have been written.
///
/// Contracts see the bytes that the writer holds, where it tells them, and the count of faults.
#[derive(Drop)]
pub struct StdSink<W: Write + Drop> {
    to: W,
    faults: u64,
}

impl<W: Write + Drop> Model for StdSink<W> {
    ghost use Rattle.std.specs.Prelude.{◌<◌, ◌^◌};
    ghost use Rattle.prta_outside.specs.StdSink.{WriterState};

    ghost Value = { WriterState };

    ghost view = { λ s. record { holds = W.contents s.to; faults = s.faults } };

    ghost invariant = { λ s. s.faults < 2 ^ 64 };
}

impl<W: Write + Drop> StdSink<W> {
    /// Makes a sink with no faults. This takes no memory.
    pub fn new(to: W) -> StdSink<W>
        ensures { result ≡ record { holds = W.contents to; faults = 0 } }
    {
        StdSink { to, faults: 0 }
    }
}

impl<W: Write + Drop> Sink for StdSink<W> {
    ghost taken = { λ _. None };

    ghost faults = { λ s. s.faults };

    /// Writes once, and flushes. It answers how many bytes the writer took.
    fn put(&mut self, piece: &[u8]) -> Result<usize, SinkFault>
        requires { 0 < length piece.now }
        ensures some { IfOk result (λ n. (0 < n) × (n ≤ length piece.now)) }
        ensures written { IfOk result (λ n. Appends self.old.holds self.new.holds (take n piece.now)) }
        ensures counted { self.new.faults ≡ (if is_ok result then self.old.faults else raised self.old.faults) }
        ensures fault { OnErr result (HasRisen self.old.faults self.new.faults) }
        ensures never_falls { self.old.faults ≤ self.new.faults }
        ensures bounded { self.new.faults < 2 ^ 64 }
    {
        match write_some(&mut self.to, piece) {
            Ok(n) => Ok(n),
            Err(fault) => {
                self.faults = self.faults.saturating_add(1);
                Err(fault)
            }
        }
    }
}

// Writes the first bytes of the piece, and flushes. A write that takes nothing is a fault.
fn write_some<W: Write>(to: &mut W, piece: &[u8]) -> Result<usize, SinkFault>
    ensures some { IfOk result (λ n. (0 < n) × (n ≤ length piece.now)) }
    ensures written { IfOk result (λ n. Appends (W.contents to.old) (W.contents to.new) (take n piece.now)) }
{
    match to.write(piece) {
        Ok(n) if n > 0 => match to.flush() {
            Ok(()) => Ok(n),
            Err(_) => Err(SinkFault),
        },
        _ => Err(SinkFault),
    }
}

#[cfg(test)]
mod tests;
