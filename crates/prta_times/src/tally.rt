//! A task's counted times.

ghost use Rattle.std.specs.Prelude.{◌≡◌, ◌+◌, ◌<◌, ◌≤◌, ◌^◌, [], ◌&&◌, nat_le, nat_lt, nat_eq, length, position, slice_index_or, IfOk, OnOk, OnErr};
ghost use Rattle.std.specs.List.{position_or_len};
ghost use Rattle.prta_mass.specs.Table.{total, IsTable};
ghost use Rattle.prta_mass.specs.declared.table.TheConstants.{TOTAL_LIMIT as total_limit};
ghost use Rattle.prta_fewpoints.specs.Wide.{IsWide};
ghost use Rattle.prta_times.specs.Counts.{with_weight};

use prta_fewpoints::{WideTable, faultless_wide_pairs};
use prta_mass::{NoMemory, TableFault, TimeTable, faultless_pairs};
use std::alloc::Global;
use std::marker::Model;

// Times in ticks, rising, each with the sum of its weights.
#[derive(Debug, Drop)]
pub(crate) struct Tally {
    points: Vec<(u32, u128)>,
    weights: u128,
}

impl Model for Tally {
    ghost use Rattle.std.specs.Prelude.{◌≡◌};
    ghost use Rattle.prta_mass.specs.Table.{Table, total};

    ghost Value = { Table };

    ghost view = { λ t. t.points.items };

    ghost invariant = { λ t. t.weights ≡ total t.points.items };
}

impl Tally {
    pub(crate) fn new(alloc: Global) -> Tally
        ensures { result ≡ [] }
    {
        Tally {
            points: Vec::new(alloc),
            weights: 0,
        }
    }

    // The number of different times.
    pub(crate) fn len(&self) -> usize
        ensures { result ≡ length self.now }
    {
        self.points.len()
    }

    // The sum of the weights.
    pub(crate) fn total(&self) -> u128
        ensures { result ≡ total self.now }
    {
        self.weights
    }

    // Adds the weight to that of the time.
    pub(crate) fn add(&mut self, time: u32, weight: u64) -> Result<(), NoMemory>
        requires { total self.old + weight < 2 ^ 128 }
        ensures added { OnOk result (self.new ≡ with_weight time weight self.old) }
        ensures weighs { OnOk result (total self.new ≡ total self.old + weight) }
    {
        add_to(&mut self.points, time, weight as u128)?;
        self.weights += weight as u128;
        Ok(())
    }

    // The table of these times.
    pub(crate) fn table(&self, alloc: Global) -> Result<TimeTable, NoMemory>
        requires { IsTable self.now }
        ensures { IfOk result (λ table. table ≡ self.now) }
    {
        faultless_pairs();
        let pairs = self.pairs(alloc)?;
        match TimeTable::new(alloc, &pairs) {
            Ok(table) => Ok(table),
            Err(TableFault::NoMemory) => Err(NoMemory),
            Err(_) => unreachable!(),
        }
    }

    // The wide table of these times.
    pub(crate) fn wide(&self, alloc: Global) -> Result<WideTable, NoMemory>
        requires { IsWide self.now }
        ensures { IfOk result (λ wide. wide ≡ self.now) }
    {
        faultless_wide_pairs();
        let pairs = self.pairs(alloc)?;
        match WideTable::new(alloc, &pairs) {
            Ok(wide) => Ok(wide),
            Err(TableFault::NoMemory) => Err(NoMemory),
            Err(_) => unreachable!(),
        }
    }

    // These times with their weights.
    fn pairs(&self, alloc: Global) -> Result<Vec<(u32, u64)>, NoMemory>
        requires { total self.now ≤ total_limit }
        ensures { IfOk result (λ pairs. pairs.items ≡ self.now) }
    {
        let mut pairs = Vec::new(alloc);
        for point in &self.points {
            pairs.push((point.0, point.1 as u64))?;
        }
        Ok(pairs)
    }
}

// Adds the weight to that of the time. On want of memory the points are as before.
fn add_to(points: &mut Vec<(u32, u128)>, time: u32, weight: u128) -> Result<(), NoMemory>
    requires { total points.old.items + weight < 2 ^ 128 }
    ensures added { OnOk result (points.new.items ≡ with_weight time weight points.old.items) }
    ensures unchanged { OnErr result (points.new.items ≡ points.old.items) }
{
    let place = place_of(points, time);
    if stands_at(points, place, time) {
        points[place].1 += weight;
        return Ok(());
    }
    points.insert(place, (time, weight))?;
    Ok(())
}

// The time stands at the place.
fn stands_at(points: &[(u32, u128)], place: usize, time: u32) -> bool
    ensures { result ≡ (nat_lt place (length points.now) && nat_eq (slice_index_or points.now place (0, 0)).0 time) }
{
    place < points.len() && points[place].0 == time
}

// The place of the first time that isn't below this one, or that past the end.
fn place_of(points: &[(u32, u128)], time: u32) -> usize
    ensures { result ≡ position_or_len (λ pair. nat_le time pair.0) points.now }
{
    match first_from(points, time) {
        Some(place) => place,
        None => points.len(),
    }
}

fn first_from(points: &[(u32, u128)], time: u32) -> Option<usize>
    ensures { result ≡ position (λ pair. nat_le time pair.0) points.now }
{
    points.iter().position(|point| time <= point.0)
}
