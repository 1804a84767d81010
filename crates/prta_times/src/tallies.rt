//! The counted times of all tasks.

ghost use Rattle.std.specs.Prelude.{◌≡◌, ◌≢◌, ◌+◌, ◌<◌, ◌≤◌, ◌^◌, nat_lt, map, position, option_map, Some, None, IsOk, IfOk, IfErr, OnOk};
ghost use Rattle.prta_mass.specs.Table.{total};
ghost use Rattle.prta_mass.specs.declared.table.TheConstants.{TOTAL_LIMIT as total_limit};
ghost use Rattle.prta_times.specs.Counts.{counted, too_many_points};
ghost use Rattle.prta_times.specs.Parts.{with_count, within_limit};

use crate::count::Count;
use crate::fault::CountsFault;
use crate::points::Points;
use crate::tally::Tally;
use prta_mass::{NoMemory, TOTAL_LIMIT};
use prta_sheet::Task;
use std::alloc::Global;

// The counted times of each task, or the first task that has too many.
pub(crate) fn tallies_of(
    alloc: Global,
    tasks: &[Task],
    counts: &[Count],
    points: Points,
) -> Result<Vec<Tally>, CountsFault>
    ensures tallies { IfOk result (λ tallies. tallies.items ≡ map (λ task. counted task.name counts.now) tasks.now) }
    ensures accepted { IsOk result → too_many_points points tasks.now counts.now ≡ None }
    ensures refused { IfErr result (λ fault. fault ≢ CountsFault.NoMemory → option_map CountsFault.TooManyPoints (too_many_points points tasks.now counts.now) ≡ Some fault) }
{
    let most = points.most_times();
    let mut tallies = Vec::new(alloc);
    for i in 0..tasks.len() {
        match tally_of(alloc, tasks[i].name().as_bytes(), counts, most)? {
            Some(tally) => tallies.push(tally)?,
            None => return Err(CountsFault::TooManyPoints(i)),
        }
    }
    Ok(tallies)
}

// The counted times of the task of this name, or none where there are more than so many: more counts can't make them
// fewer.
fn tally_of(
    alloc: Global,
    name: &[u8],
    counts: &[Count],
    most: usize,
) -> Result<Option<Tally>, NoMemory>
    ensures { IfOk result (λ tally. tally ≡ within_limit most (counted name.now counts.now)) }
{
    let mut tally = Tally::new(alloc);
    for count in counts {
        add_count(&mut tally, name, count)?;
        if tally.len() > most {
            return Ok(None);
        }
    }
    Ok(Some(tally))
}

// Adds the count, where it is of the task of this name. No weight takes more than 64 bits.
fn add_count(tally: &mut Tally, name: &[u8], count: &Count) -> Result<(), NoMemory>
    requires { total tally.old + 2 ^ 64 ≤ 2 ^ 128 }
    ensures added { OnOk result (tally.new ≡ with_count name.now tally.old count.now) }
    ensures grows { OnOk result (total tally.new < total tally.old + 2 ^ 64) }
{
    if !count.is_of(name) {
        return Ok(());
    }
    let weight = count.weight();
    tally.add(count.time(), weight)?;
    Ok(())
}

// The first of the tallies whose weights sum to too much.
pub(crate) fn first_heavy(tallies: &[Tally]) -> Option<usize>
    ensures { result ≡ position (λ table. nat_lt total_limit (total table)) tallies.now }
{
    tallies
        .iter()
        .position(|tally| tally.total() > TOTAL_LIMIT as u128)
}
