//! What analyses tasks.

ghost use Rattle.std.specs.Prelude.{◌≡◌, ℕ, ◌+◌, ◌-◌, ◌^◌, ◌<◌, ◌≤◌, Option, Some, None, List, [], ◌∷◌, length, vec_len, IfOk};
ghost use Rattle.prta_sheet.specs.Counts.{job_count};
ghost use Rattle.prta_backlog.specs.Level.{sheet_level};
ghost use Rattle.prta_backlog.specs.Fitting.{FitsCap};
ghost use Rattle.prta_dual.specs.Numbers.{all_bounds};
ghost use Rattle.prta_session.specs.Workers.{lengthened};

use prta_backlog::Bench;
use prta_dist::{Curve, Kernel};
use prta_dual::{Bounds, analyse_task, entries_are_countable};
use prta_jobs::TaskSet;
use prta_ledger::NoNotes;
use prta_mass::NoMemory;
use prta_sheet::Sheet;
use std::alloc::Global;
use std::marker::Model;

/// What analyses tasks, one after the other.
///
/// Contracts see it in three ways. `cap` is the number of cells of the lists of chances that it works on, which no call
/// changes. `analysed` is the list of the tasks analysed so far, where it tells that. `room` is how many more it analyses
/// at least.
pub trait Worker {
    ghost cap: { Self → ℕ };

    ghost analysed: { Self → Option (List ℕ) };

    ghost room: { Self → ℕ };

    /// How many more tasks it analyses at least.
    fn spare(&self) -> usize
        ensures { result ≡ room self.now };

    /// Writes the two numbers of each analysed job of a task, with the tasks before it on the sheet above it, in order of
    /// number. It appends the task to the list, and lowers `spare` by at most 1. It takes no memory.
    fn analyse(&mut self, sheet: &Sheet, task: usize, found: &mut [Bounds])
        requires task { task < length sheet.now.tasks }
        requires cap { cap self.old ≡ sheet.now.settings.cap }
        requires places { length found.old ≡ job_count sheet.now task }
        requires room { 1 ≤ room self.old }
        ensures numbers { found.new ≡ all_bounds sheet.now (sheet_level task) }
        ensures analysed { analysed self.new ≡ lengthened (analysed self.old) (task ∷ []) }
        ensures cap { cap self.new ≡ cap self.old }
        ensures room { room self.old ≤ room self.new + 1 };
}

/// Analyses tasks on a bench. It analyses any number of them, and tells and keeps none. Contracts see its cap alone.
#[derive(Drop)]
pub struct BenchWorker<C: Curve, K: Kernel> {
    bench: Bench<C, K>,
}

impl<C: Curve, K: Kernel> Model for BenchWorker<C, K> {
    ghost use Rattle.std.specs.Prelude.{ℕ, length, vec_len};
    ghost use Rattle.prta_backlog.specs.Fitting.{FitsCap};

    ghost Value = { ℕ };

    ghost view = { λ w. length (C.cells w.bench.main) };

    ghost invariant = { λ w. FitsCap (length (C.cells w.bench.main)) (C.cells w.bench.main) (C.cells w.bench.spare) (C.cells w.bench.kept)
        (vec_len w.bench.cells) (vec_len w.bench.tail) (vec_len w.bench.room) };
}

impl<C: Curve, K: Kernel> BenchWorker<C, K> {
    /// A worker on this bench, whose curves and work lists all have as many cells. Their number is its cap.
    pub fn new(bench: Bench<C, K>) -> BenchWorker<C, K>
        requires { FitsCap (length (C.cells bench.main)) (C.cells bench.main) (C.cells bench.spare) (C.cells bench.kept)
            (vec_len bench.cells) (vec_len bench.tail) (vec_len bench.room) }
        ensures { result ≡ length (C.cells bench.main) }
    {
        BenchWorker { bench }
    }
}

impl<C: Curve, K: Kernel> Worker for BenchWorker<C, K> {
    ghost cap = { λ w. w };

    ghost analysed = { λ _. None };

    ghost room = { λ _. 2 ^ 64 - 1 };

    fn spare(&self) -> usize
        ensures { result ≡ 2 ^ 64 - 1 }
    {
        usize::MAX
    }

    fn analyse(&mut self, sheet: &Sheet, task: usize, found: &mut [Bounds]) {
        entries_are_countable();
        let _tasks = sheet.tasks();
        let higher = TaskSet::below(task);
        analyse_task(&mut self.bench, sheet, higher, task, &mut NoNotes, found);
    }
}

/// Analyses tasks on a bench, and keeps the list of them, up to as many as it has room for.
#[derive(Drop)]
pub struct ListWorker<C: Curve, K: Kernel> {
    worker: BenchWorker<C, K>,
    list: Vec<usize>,
    room: usize,
}

impl<C: Curve, K: Kernel> Model for ListWorker<C, K> {
    ghost use Rattle.std.specs.Prelude.{◌-◌, ◌≤◌, length, vec_len, vec_capacity};
    ghost use Rattle.prta_session.specs.Workers.{ListState};

    ghost Value = { ListState };

    ghost view = { λ w. record { cap = w.worker; list = w.list.items; spare = w.room - length w.list.items } };

    // The memory for the whole list is there from the start.
    ghost invariant = { λ w. (vec_len w.list ≤ w.room) × (w.room ≤ vec_capacity w.list) };
}

impl<C: Curve, K: Kernel> ListWorker<C, K> {
    /// A worker on this bench, whose curves and work lists all have as many cells, with an empty list and room for `n` tasks.
    /// It takes the memory for the list here, and none later. Fails for want of memory alone; the bench is then dropped.
    pub fn with_room(
        alloc: Global,
        bench: Bench<C, K>,
        n: usize,
    ) -> Result<ListWorker<C, K>, NoMemory>
        requires { FitsCap (length (C.cells bench.main)) (C.cells bench.main) (C.cells bench.spare) (C.cells bench.kept)
            (vec_len bench.cells) (vec_len bench.tail) (vec_len bench.room) }
        ensures { IfOk result (λ worker. worker ≡ record { cap = length (C.cells bench.main); list = []; spare = n }) }
    {
        let list = Vec::with_capacity(alloc, n)?;
        Ok(ListWorker {
            worker: BenchWorker::new(bench),
            list,
            room: n,
        })
    }

    /// The tasks analysed so far, in order.
    pub fn list(&self) -> &[usize]
        ensures { result.now ≡ self.now.list }
    {
        &self.list
    }
}

impl<C: Curve, K: Kernel> Worker for ListWorker<C, K> {
    ghost cap = { λ w. w.cap };

    ghost analysed = { λ w. Some w.list };

    ghost room = { λ w. w.spare };

    fn spare(&self) -> usize {
        self.room - self.list.len()
    }

    fn analyse(&mut self, sheet: &Sheet, task: usize, found: &mut [Bounds]) {
        self.worker.analyse(sheet, task, found);
        // The room is reserved, so this takes no memory.
        self.list.push(task).unwrap();
    }
}
