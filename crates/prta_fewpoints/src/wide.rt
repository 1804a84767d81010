//! Wide tables: the times of a task with their weights, before they are reduced.

ghost use Rattle.std.specs.Prelude.{◌≡◌, ◌≢◌, Some, None, IfOk, IfErr, IsOk};
ghost use Rattle.prta_fewpoints.specs.Wide.{IsWide, wide_fault};

use prta_mass::{TableFault, fault_within};
use std::alloc::Global;
use std::marker::Model;

/// A wide table has at most this many points.
pub const WIDE_LIMIT: usize = 1024;

/// The execution times of a task, rising, each with its weight, as in a time table, but up to `WIDE_LIMIT` of them.
#[derive(Debug, Drop)]
pub struct WideTable {
    pairs: Vec<(u32, u64)>,
}

impl Model for WideTable {
    ghost use Rattle.prta_mass.specs.Table.{Table};
    ghost use Rattle.prta_fewpoints.specs.Wide.{IsWide};

    ghost Value = { Table };

    ghost view = { λ t. t.pairs.items };

    ghost invariant = { λ t. IsWide t.pairs.items };
}

impl WideTable {
    /// Makes a wide table of just these pairs of a time in ticks and a weight. The faults are those of a time table, in
    /// the same order, but that `TooManyPoints` comes above `WIDE_LIMIT` pairs.
    pub fn new(alloc: Global, pairs: &[(u32, u64)]) -> Result<WideTable, TableFault>
        ensures made { IfOk result (λ wide. wide ≡ pairs.now) }
        ensures accepted { IsOk result → wide_fault pairs.now ≡ None }
        ensures refused { IfErr result (λ fault. fault ≢ TableFault.NoMemory → wide_fault pairs.now ≡ Some fault) }
        ensures memory { result ≡ Err TableFault.NoMemory → wide_fault pairs.now ≡ None }
    {
        if let Some(fault) = fault_within(pairs, WIDE_LIMIT) {
            return Err(fault);
        }
        match Vec::from_slice(alloc, pairs) {
            Ok(pairs) => Ok(WideTable { pairs }),
            Err(_) => Err(TableFault::NoMemory),
        }
    }

    /// The pairs of a time in ticks and its weight, by rising time.
    pub fn pairs(&self) -> &[(u32, u64)]
        ensures pairs { result.now ≡ self.now }
        ensures wide { IsWide self.now }
    {
        &self.pairs
    }
}
