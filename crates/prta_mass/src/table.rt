//! Time tables: the times of a task with their weights.

ghost use Rattle.std.specs.Prelude.{◌≡◌, ◌≢◌, ◌+◌, ◌^◌, ◌<◌, ◌≤◌, Some, None, length, IfOk, IfErr, IsOk};
ghost use Rattle.prta_mass.specs.Table.{Table, total, mean_times_total, greatest, zero_time, zero_weight, not_increasing, shape_within, fault_within, shape_fault, fault_of, IsTable, FaultlessPairs};
ghost use Rattle.prta_mass.specs.Added.{with_added, IsWithAdded};

use crate::added::put_added;
use crate::divisor::Divisor;
use crate::memory::NoMemory;
use std::alloc::Global;
use std::marker::Model;
use thiserror::Error;

/// The weights of a table sum to at most this.
pub const TOTAL_LIMIT: u64 = 281_474_976_710_656;

/// A table has at most this many points.
pub const POINT_LIMIT: usize = 32;

/// Why pairs of a time and a weight make no table.
#[derive(Clone, Copy, Debug, PartialEq, Eq, Error)]
pub enum TableFault {
    /// There are no pairs.
    #[error("no times")]
    Empty,
    /// There are that many pairs, more than `POINT_LIMIT`.
    #[error("{0} times, more than 32")]
    TooManyPoints(usize),
    /// The pair at this place, from 0, is the first with time 0.
    #[error("the time at place {0} is 0")]
    ZeroTime(usize),
    /// The pair at this place is the first whose time isn't above the one before.
    #[error("the time at place {0} isn't above the one before")]
    NotIncreasing(usize),
    /// The pair at this place is the first with weight 0.
    #[error("the weight at place {0} is 0")]
    ZeroWeight(usize),
    /// The weights sum to more than `TOTAL_LIMIT`.
    #[error("the weights sum to more than 281474976710656")]
    TotalTooLarge,
    /// Want of memory.
    #[error("no memory")]
    NoMemory,
}

/// The execution times of a task, rising, each with its weight. The chance of a time is its weight over the total.
#[derive(Debug, Drop)]
pub struct TimeTable {
    points: Vec<(u32, u64)>,
    divisor: Divisor,
}

impl Model for TimeTable {
    ghost Value = { Table };

    ghost view = { λ t. t.points.items };

    ghost invariant = { λ t. IsTable t.points.items × (t.divisor.total ≡ total t.points.items) };
}

impl TimeTable {
    /// Makes a table of just these pairs of a time in ticks and a weight. The faults are tested in the order of
    /// the enum, each over all pairs before the next; memory is taken last.
    pub fn new(alloc: Global, pairs: &[(u32, u64)]) -> Result<TimeTable, TableFault>
        ensures made { IfOk result (λ table. table ≡ pairs.now) }
        ensures accepted { IsOk result → fault_of pairs.now ≡ None }
        ensures refused { IfErr result (λ fault. fault ≢ TableFault.NoMemory → fault_of pairs.now ≡ Some fault) }
        ensures memory { result ≡ Err TableFault.NoMemory → fault_of pairs.now ≡ None }
    {
        if let Some(fault) = fault_within(pairs, POINT_LIMIT) {
            return Err(fault);
        }
        match Vec::from_slice(alloc, pairs) {
            Ok(points) => Ok(TimeTable::of_points(points)),
            Err(_) => Err(TableFault::NoMemory),
        }
    }

    // The table of pairs that make one.
    fn of_points(points: Vec<(u32, u64)>) -> TimeTable
        requires { IsTable points.items }
        ensures { result ≡ points.items }
    {
        let divisor = Divisor::new(total_of(&points) as u64);
        TimeTable { points, divisor }
    }

    /// The pairs of a time in ticks and its weight, by rising time.
    #[tactic(auto, using(crate::proofs::Faultless::no_table_fault))]
    pub fn points(&self) -> &[(u32, u64)]
        ensures pairs { result.now ≡ self.now }
        ensures table { IsTable self.now }
        ensures accepted { fault_of self.now ≡ None }
    {
        &self.points
    }

    /// The sum of the weights.
    pub fn total(&self) -> u64
        ensures total { result ≡ total self.now }
        ensures some { 0 < result }
        ensures table { IsTable self.now }
    {
        self.divisor.total
    }

    /// What divides by the total.
    pub fn divisor(&self) -> Divisor
        ensures total { result.total ≡ total self.now }
        ensures table { IsTable self.now }
    {
        self.divisor
    }

    /// The sum of time times weight: the mean time, in ticks, multiplied by the total.
    pub fn mean_times_total(&self) -> u128
        ensures { result ≡ mean_times_total self.now }
    {
        mean_times_total_of(&self.points)
    }

    /// An equal table.
    pub fn copy(&self, alloc: Global) -> Result<TimeTable, NoMemory>
        ensures { IfOk result (λ table. table ≡ self.now) }
    {
        let points = Vec::from_slice(alloc, &self.points)?;
        Ok(TimeTable {
            points,
            divisor: self.divisor,
        })
    }

    /// The greatest time, in ticks.
    pub fn greatest(&self) -> u32
        ensures greatest { result ≡ greatest self.now }
        ensures table { IsTable self.now }
    {
        self.points[self.points.len() - 1].0
    }

    /// Makes the table, which is the base with some number added to each time, the base with `s` ticks added to each
    /// time. The weights stay. It takes no memory.
    pub fn set_added(&mut self, base: &TimeTable, s: u32)
        requires same { IsWithAdded base.now self.old }
        requires within { greatest base.now + s < 2 ^ 32 }
        ensures { self.new ≡ with_added base.now s }
    {
        put_added(&mut self.points, &base.points, s);
    }
}

/// The fault that `TimeTable::new` finds in the pairs, memory and the sum of the weights aside.
pub fn shape_fault(pairs: &[(u32, u64)]) -> Option<TableFault>
    ensures fault { result ≡ shape_fault pairs.now }
    ensures few { result ≡ None → length pairs.now ≤ POINT_LIMIT }
{
    shape_within(pairs, POINT_LIMIT)
}

// The first fault of the pairs where at most so many are allowed, memory and the sum of the weights aside.
fn shape_within(pairs: &[(u32, u64)], most: usize) -> Option<TableFault>
    ensures fault { result ≡ shape_within most pairs.now }
    ensures few { result ≡ None → length pairs.now ≤ most }
{
    if pairs.is_empty() {
        return Some(TableFault::Empty);
    }
    if pairs.len() > most {
        return Some(TableFault::TooManyPoints(pairs.len()));
    }
    if let Some(i) = first_zero_time(pairs) {
        return Some(TableFault::ZeroTime(i));
    }
    if let Some(i) = first_not_increasing(pairs) {
        return Some(TableFault::NotIncreasing(i));
    }
    if let Some(i) = first_zero_weight(pairs) {
        return Some(TableFault::ZeroWeight(i));
    }
    None
}

/// The first fault of the pairs, memory aside, where a table has at most so many: that of `TimeTable::new` where that is
/// `POINT_LIMIT`.
pub fn fault_within(pairs: &[(u32, u64)], most: usize) -> Option<TableFault>
    requires { most ≤ 65536 }
    ensures { result ≡ fault_within most pairs.now }
{
    if let Some(fault) = shape_within(pairs, most) {
        return Some(fault);
    }
    if total_of(pairs) > TOTAL_LIMIT as u128 {
        return Some(TableFault::TotalTooLarge);
    }
    None
}

fn first_zero_time(pairs: &[(u32, u64)]) -> Option<usize>
    ensures { result ≡ zero_time pairs.now }
{
    pairs.iter().position(|pair| pair.0 == 0)
}

fn first_zero_weight(pairs: &[(u32, u64)]) -> Option<usize>
    ensures { result ≡ zero_weight pairs.now }
{
    pairs.iter().position(|pair| pair.1 == 0)
}

fn first_not_increasing(pairs: &[(u32, u64)]) -> Option<usize>
    ensures { result ≡ not_increasing pairs.now }
{
    for i in 1..pairs.len() {
        if pairs[i].0 <= pairs[i - 1].0 {
            return Some(i);
        }
    }
    None
}

fn total_of(pairs: &[(u32, u64)]) -> u128
    requires { length pairs.now ≤ 65536 }
    ensures { result ≡ total pairs.now }
{
    pairs.iter().map(|pair| pair.1 as u128).sum()
}

fn mean_times_total_of(pairs: &[(u32, u64)]) -> u128
    requires { length pairs.now ≤ 32 }
    ensures { result ≡ mean_times_total pairs.now }
{
    pairs
        .iter()
        .map(|pair| pair.0 as u128 * pair.1 as u128)
        .sum()
}

/// The pairs that make a table are those without a fault.
pub fn faultless_pairs()
    ensures { FaultlessPairs }
{}
