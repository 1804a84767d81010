//! The sheet that a file of counts makes.

ghost use Rattle.std.specs.Prelude.{◌≡◌, ◌≢◌, ◌≤◌, ◌<◌, Some, None, Err, length, All, map, IsOk, IfOk, IfErr};
ghost use Rattle.prta_times.specs.Counts.{counted, counted_sheet, sheet_by, sheet_with, reduced_sheet, tables_fault, fault_by, counts_fault, reduced_fault};
ghost use Rattle.prta_times.specs.Parts.{CanAsk, IsInRange, AreTested};

use crate::count::Count;
use crate::fault::CountsFault;
use crate::limits::COUNTS_LIMIT;
use crate::points::Points;
use crate::rows::counts_in;
use crate::tallies::{first_heavy, tallies_of};
use crate::tally::Tally;
use crate::tasks::{tasks_with, unknown_task};
use prta_fewpoints::{reduction_is_one, reduction_is_table};
use prta_mass::faultless_pairs;
use prta_sheet::{Sheet, SheetFault, make_sheet};
use std::alloc::Global;

/// The sheet with the tables of a file of counts. The file is CSV, read as records of bytes: a byte order mark at its
/// start is passed over, empty lines give no record, and fields aren't trimmed. The first record is the header
/// `task,time,weight`. Each later one adds its weight to its task's time, in ticks. A task that has a record gets a
/// cycle of the one table of its times; the other tasks keep theirs. The sheet that this makes is accepted but for
/// its work, which is tested last.
pub fn read_counts(alloc: Global, sheet: &Sheet, bytes: &[u8]) -> Result<Sheet, CountsFault>
    ensures read { IfOk result (λ made. made ≡ sheet_with sheet.now bytes.now) }
    ensures accepted { IsOk result → counts_fault sheet.now bytes.now ≡ None }
    ensures refused { IfErr result (λ fault. fault ≢ CountsFault.NoMemory → counts_fault sheet.now bytes.now ≡ Some fault) }
    ensures too_long { COUNTS_LIMIT < length bytes.now → result ≡ Err CountsFault.TooLong }
{
    sheet_by(alloc, sheet, bytes, Points::Every)
}

/// The same with the counted times of each task reduced to a table of at most k points, at the least cost that a choice
/// of times can have: `reduce` says which. The faults are those of `read_counts`, but that `TooManyPoints` comes above
/// `WIDE_LIMIT` times, and `TooMuchWork` speaks of the sheet with the reduced tables.
pub fn reduce_counts(
    alloc: Global,
    sheet: &Sheet,
    bytes: &[u8],
    k: usize,
) -> Result<Sheet, CountsFault>
    requires some { 1 ≤ k }
    requires few { k ≤ 32 }
    ensures read { IfOk result (λ made. made ≡ reduced_sheet k sheet.now bytes.now) }
    ensures accepted { IsOk result → reduced_fault k sheet.now bytes.now ≡ None }
    ensures refused { IfErr result (λ fault. fault ≢ CountsFault.NoMemory → reduced_fault k sheet.now bytes.now ≡ Some fault) }
    ensures too_long { COUNTS_LIMIT < length bytes.now → result ≡ Err CountsFault.TooLong }
{
    sheet_by(alloc, sheet, bytes, Points::AtMost(k))
}

// The sheet with the tables that the counted times of a file make.
fn sheet_by(
    alloc: Global,
    sheet: &Sheet,
    bytes: &[u8],
    points: Points,
) -> Result<Sheet, CountsFault>
    requires { CanAsk points }
    ensures read { IfOk result (λ made. made ≡ sheet_by points sheet.now bytes.now) }
    ensures accepted { IsOk result → fault_by points sheet.now bytes.now ≡ None }
    ensures refused { IfErr result (λ fault. fault ≢ CountsFault.NoMemory → fault_by points sheet.now bytes.now ≡ Some fault) }
    ensures too_long { COUNTS_LIMIT < length bytes.now → result ≡ Err CountsFault.TooLong }
{
    if bytes.len() > COUNTS_LIMIT {
        return Err(CountsFault::TooLong);
    }
    let counts = counts_in(alloc, bytes)?;
    sheet_with(alloc, sheet, &counts, points)
}

// The sheet with the tables of counts.
fn sheet_with(
    alloc: Global,
    sheet: &Sheet,
    counts: &[Count],
    points: Points,
) -> Result<Sheet, CountsFault>
    requires asked { CanAsk points }
    requires ranges { All IsInRange counts.now }
    ensures made { IfOk result (λ made. made ≡ counted_sheet points sheet.now counts.now) }
    ensures accepted { IsOk result → tables_fault points sheet.now counts.now ≡ None }
    ensures refused { IfErr result (λ fault. fault ≢ CountsFault.NoMemory → tables_fault points sheet.now counts.now ≡ Some fault) }
{
    if let Some(n) = unknown_task(sheet.tasks(), counts) {
        return Err(CountsFault::UnknownTask(n));
    }
    let tallies = tallies_of(alloc, sheet.tasks(), counts, points)?;
    if let Some(i) = first_heavy(&tallies) {
        return Err(CountsFault::TotalTooLarge(i));
    }
    tested_sheet(alloc, sheet, counts, &tallies, points)
}

// The same of counts that are tested but for the work. No other condition on a sheet can fail.
fn tested_sheet(
    alloc: Global,
    sheet: &Sheet,
    counts: &[Count],
    tallies: &[Tally],
    points: Points,
) -> Result<Sheet, CountsFault>
    requires asked { CanAsk points }
    requires ranges { All IsInRange counts.now }
    requires tested { AreTested points sheet.now counts.now }
    requires tallies { tallies.now ≡ map (λ task. counted task.name counts.now) sheet.now.tasks }
    ensures made { IfOk result (λ made. made ≡ counted_sheet points sheet.now counts.now) }
    ensures accepted { IsOk result → tables_fault points sheet.now counts.now ≡ None }
    ensures refused { IfErr result (λ fault. fault ≢ CountsFault.NoMemory → tables_fault points sheet.now counts.now ≡ Some fault) }
{
    faultless_pairs();
    reduction_is_one();
    reduction_is_table();
    let tasks = tasks_with(alloc, sheet.tasks(), counts, tallies, points)?;
    match make_sheet(sheet.settings(), tasks) {
        Ok(made) => Ok(made),
        Err(fault) => match fault {
            SheetFault::TooMuchWork(work) => Err(CountsFault::TooMuchWork(work)),
            _ => unreachable!(),
        },
    }
}
