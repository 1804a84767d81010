//! A sink: it takes bytes.

ghost use Rattle.std.specs.Prelude.{◌≡◌, ℕ, ◌<◌, ◌≤◌, ◌^◌, ◌++◌, Option, option_map, List, length, take, IfOk, OnErr};
ghost use Rattle.prta_outside.specs.Sink.{HasRisen};

use thiserror::Error;

/// The sink can't take the bytes.
#[derive(Clone, Copy, Debug, PartialEq, Eq, Error)]
#[error("the output can't be written")]
pub struct SinkFault;

/// What takes bytes.
///
/// Contracts see a sink in two ways. `taken` is the bytes taken so far, where it tells them.
/// `faults` is a count of its faults, which never falls and stays at 2^64 - 1.
pub trait Sink {
    ghost taken: { Self → Option (List ℕ) };

    ghost faults: { Self → ℕ };

    /// Takes the first bytes of the piece, at least one, and says how many.
    ///
    /// After a fault a sink that tells what it took may have taken some of them, but not all; of one that doesn't, as a
    /// writer whose flush failed after the write, all of them may have gone out. No clause says when a put fails.
    fn put(&mut self, piece: &[u8]) -> Result<usize, SinkFault>
        requires { 0 < length piece.now }
        ensures some { IfOk result (λ n. (0 < n) × (n ≤ length piece.now)) }
        ensures appended { IfOk result (λ n.
            taken self.new ≡ option_map (λ before. before ++ take n piece.now) (taken self.old)) }
        ensures fault { OnErr result (HasRisen (faults self.old) (faults self.new)) }
        ensures cut { OnErr result ((m : ℕ) × (m < length piece.now) ×
            (taken self.new ≡ option_map (λ before. before ++ take m piece.now) (taken self.old))) }
        ensures never_falls { faults self.old ≤ faults self.new }
        ensures bounded { faults self.new < 2 ^ 64 };
}
