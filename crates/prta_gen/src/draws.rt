//! What is drawn: numbers, points, tasks.

ghost use Rattle.std.specs.Prelude.{◌≡◌, ◌+◌, ◌*◌, ◌%◌, ◌^◌, ◌<◌, ◌≤◌, [], ◌∷◌, None, IfOk, OnOk};
ghost use Rattle.prta_mass.specs.Table.{fault_of};
ghost use Rattle.prta_gen.specs.Generator.{next_state, drawn, state_after, points_from, drawn_period, drawn_task, after_task, drawn_tasks};

use prta_mass::{NoMemory, TableFault, TimeTable};
use prta_sheet::Task;
use std::alloc::Global;

// The state that numbers are drawn from.
#[derive(Drop)]
pub(crate) struct Draws {
    state: u32,
}

impl Draws {
    // The state that a seed starts with.
    pub(crate) fn of_seed(seed: u64) -> Draws
        ensures { result.state ≡ seed % 2 ^ 32 }
    {
        Draws {
            state: (seed % 4_294_967_296) as u32,
        }
    }

    // Steps the state, and draws a number below n.
    fn draw(&mut self, n: u32) -> u32
        requires { 0 < n }
        ensures state { self.new.state ≡ next_state self.old.state }
        ensures drawn { result ≡ drawn n self.new.state }
        ensures below { result < n }
    {
        self.state = ((self.state as u64 * 69_069 + 1) % 4_294_967_296) as u32;
        self.state / 65_536 % n
    }

    // A period: 50, 100, 200 or 400.
    fn draw_period(&mut self) -> u32
        ensures state { self.new.state ≡ next_state self.old.state }
        ensures period { result ≡ drawn_period self.old.state }
        ensures some { 0 < result }
    {
        50 * 2_u32.pow(self.draw(4))
    }
}

// A number of points: for each a time above the one before, and a weight.
fn draw_points(alloc: Global, draws: &mut Draws, count: u32) -> Result<Vec<(u32, u64)>, NoMemory>
    requires { count ≤ 20 }
    ensures points { IfOk result (λ points. points.items ≡ points_from count 0 draws.old.state) }
    ensures state { OnOk result (draws.new.state ≡ state_after (2 * count) draws.old.state) }
{
    let mut points = Vec::new(alloc);
    let mut time = 0;
    for _ in 0..count {
        time += draws.draw(3) + 1;
        let weight = draws.draw(100) + 1;
        points.push((time, weight as u64))?;
    }
    Ok(points)
}

// The table of points that make one.
fn table_of(alloc: Global, points: &[(u32, u64)]) -> Result<TimeTable, NoMemory>
    requires { fault_of points.now ≡ None }
    ensures { IfOk result (λ table. table ≡ points.now) }
{
    match TimeTable::new(alloc, points) {
        Ok(table) => Ok(table),
        Err(TableFault::NoMemory) => Err(NoMemory),
        Err(_) => unreachable!(),
    }
}

// A cycle of one table, of that many points.
fn draw_cycle(alloc: Global, draws: &mut Draws, count: u32) -> Result<Vec<TimeTable>, NoMemory>
    requires some { 1 ≤ count }
    requires few { count ≤ 20 }
    ensures cycle { IfOk result (λ cycle. cycle.items ≡ points_from count 0 draws.old.state ∷ []) }
    ensures state { OnOk result (draws.new.state ≡ state_after (2 * count) draws.old.state) }
{
    let points = draw_points(alloc, draws, count)?;
    let mut cycle = Vec::new(alloc);
    cycle.push(table_of(alloc, &points)?)?;
    Ok(cycle)
}

// Task i.
fn draw_task(alloc: Global, draws: &mut Draws, i: usize) -> Result<Task, NoMemory>
    ensures task { IfOk result (λ task. task ≡ drawn_task i draws.old.state) }
    ensures state { OnOk result (draws.new.state ≡ after_task draws.old.state) }
{
    let period = draws.draw_period();
    let offset = draws.draw(period);
    let count = draws.draw(19) + 2;
    let cycle = draw_cycle(alloc, draws, count)?;
    let name = format!(in alloc; "t{i}")?;
    Task::new(alloc, &name, offset, period, period, cycle, (1, 1_000))
}

// Tasks, numbered from 0 on.
pub(crate) fn draw_tasks(
    alloc: Global,
    draws: &mut Draws,
    count: usize,
) -> Result<Vec<Task>, NoMemory>
    ensures { IfOk result (λ tasks. tasks.items ≡ drawn_tasks 0 count draws.old.state) }
{
    let mut tasks = Vec::new(alloc);
    for i in 0..count {
        tasks.push(draw_task(alloc, draws, i)?)?;
    }
    Ok(tasks)
}
