//! The generated sheet.

ghost use Rattle.std.specs.Prelude.{◌≡◌, ◌<◌, ◌≤◌, ◌⊎◌, ◌↔◌, IfOk};
ghost use Rattle.prta_gen.specs.Generator.{generated};

use crate::draws::{Draws, draw_tasks};
use crate::laws::generated_sheets_are_accepted;
use prta_mass::NoMemory;
use prta_sheet::{Settings, Sheet, TASK_LIMIT, make_sheet};
use std::alloc::Global;
use thiserror::Error;

/// Why there is no generated sheet.
#[derive(Clone, Copy, Debug, PartialEq, Eq, Error)]
pub enum GenFault {
    /// The number of tasks is 0 or above 12.
    #[error("the number of tasks isn't 1 to 12")]
    BadCount,
    /// Want of memory.
    #[error("no memory")]
    NoMemory,
}

/// The sheet of a seed and a number of tasks, 1 to 12. Every such sheet is accepted. The settings are a cap of 2,048,
/// 4 hyperperiods, 16 turns and no support. A state of 32 bits starts as the seed modulo 2^32; a draw below n steps it
/// by `x * 69069 + 1` modulo 2^32 and gives its upper 16 bits modulo n. Task i is named `t` and i. Its draws are: one
/// below 4 for the period, 50, 100, 200 or 400 ticks, which is the deadline too; one below the period for the offset;
/// one below 19, plus 2, for the number of points; and for each point one below 3, plus 1, that is added to the time,
/// and one below 100, plus 1, for the weight. The allowance is 1 of 1,000.
pub fn generate(alloc: Global, seed: u64, tasks: usize) -> Result<Sheet, GenFault>
    ensures sheet { IfOk result (λ sheet. sheet ≡ generated seed tasks) }
    ensures bad_count { (result ≡ Err GenFault.BadCount) ↔ ((tasks < 1) ⊎ (12 < tasks)) }
{
    if tasks < 1 || TASK_LIMIT < tasks {
        return Err(GenFault::BadCount);
    }
    match sheet_of(alloc, seed, tasks) {
        Ok(sheet) => Ok(sheet),
        Err(NoMemory) => Err(GenFault::NoMemory),
    }
}

// The sheet of a number of tasks that is allowed.
fn sheet_of(alloc: Global, seed: u64, tasks: usize) -> Result<Sheet, NoMemory>
    requires some { 1 ≤ tasks }
    requires few { tasks ≤ 12 }
    ensures { IfOk result (λ sheet. sheet ≡ generated seed tasks) }
{
    let settings = Settings {
        cap: 2_048,
        hyperperiods: 4,
        turns: 16,
        support: None,
    };
    let mut draws = Draws::of_seed(seed);
    let tasks = draw_tasks(alloc, &mut draws, tasks)?;
    generated_sheets_are_accepted();
    match make_sheet(settings, tasks) {
        Ok(sheet) => Ok(sheet),
        Err(_) => unreachable!(),
    }
}
