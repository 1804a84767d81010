//! The work space of an analysis.

ghost use Rattle.std.specs.Prelude.{◌≡◌, ◌↔◌, None, length, vec_len, IfOk};
ghost use Rattle.prta_mass.specs.Chances.{Dominates};
ghost use Rattle.prta_dist.specs.Curve.{first_break};
ghost use Rattle.prta_backlog.specs.Bench.{HaveOneCap};
ghost use Rattle.prta_backlog.specs.Fitting.{FitsCap};

use prta_dist::{Break, Curve, Dense, Kernel};
use prta_mass::NoMemory;
use prta_sheet::Sheet;
use std::alloc::Global;

/// Three curves, a kernel and three work lists, made once for all tasks of a sheet.
#[derive(Drop)]
pub struct Bench<C: Curve, K: Kernel> {
    /// The curve on which level runs are made.
    pub main: C,
    /// A curve set aside.
    pub spare: C,
    /// A curve kept to be compared.
    pub kept: C,
    /// Adds tables in response runs.
    pub kernel: K,
    /// Work space of a response run, one number for each cell; holds anything between calls.
    pub cells: Vec<u64>,
    /// As `cells`.
    pub tail: Vec<u64>,
    /// As `cells`.
    pub room: Vec<u64>,
}

impl<C: Curve, K: Kernel> Bench<C, K> {
    /// A bench of these curves and this kernel, with work lists of as many numbers as the curves have cells. Fails for
    /// want of memory alone; the curves and the kernel are then dropped.
    pub fn new(
        alloc: Global,
        main: C,
        spare: C,
        kept: C,
        kernel: K,
    ) -> Result<Bench<C, K>, NoMemory>
        requires { HaveOneCap (C.cells main) (C.cells spare) (C.cells kept) }
        ensures curves { IfOk result (λ bench. (bench.main ≡ main) × (bench.spare ≡ spare) × (bench.kept ≡ kept)) }
        ensures kernel { IfOk result (λ bench. bench.kernel ≡ kernel) }
        ensures fits { IfOk result (λ bench. FitsCap (length (C.cells main)) (C.cells bench.main) (C.cells bench.spare) (C.cells bench.kept)
            (vec_len bench.cells) (vec_len bench.tail) (vec_len bench.room)) }
    {
        let cap = main.cap();
        let cells = vec![in alloc; 0; cap]?;
        let tail = vec![in alloc; 0; cap]?;
        let room = vec![in alloc; 0; cap]?;
        Ok(Bench {
            main,
            spare,
            kept,
            kernel,
            cells,
            tail,
            room,
        })
    }

    /// Makes the kept curve equal to the main curve.
    pub fn keep(&mut self)
        requires { HaveOneCap (C.cells self.old.main) (C.cells self.old.spare) (C.cells self.old.kept) }
        ensures kept { C.cells self.new.kept ≡ C.cells self.old.main }
        ensures others { self.new ≡ record self.old { kept = self.new.kept } }
    {
        self.kept.copy_from(&self.main);
    }

    /// Makes the main curve equal to the kept curve.
    pub fn take_back(&mut self)
        requires { HaveOneCap (C.cells self.old.main) (C.cells self.old.spare) (C.cells self.old.kept) }
        ensures main { C.cells self.new.main ≡ C.cells self.old.kept }
        ensures others { self.new ≡ record self.old { main = self.new.main } }
    {
        self.main.copy_from(&self.kept);
    }

    /// Makes the spare curve equal to the main curve.
    pub fn set_aside(&mut self)
        requires { HaveOneCap (C.cells self.old.main) (C.cells self.old.spare) (C.cells self.old.kept) }
        ensures spare { C.cells self.new.spare ≡ C.cells self.old.main }
        ensures others { self.new ≡ record self.old { spare = self.new.spare } }
    {
        self.spare.copy_from(&self.main);
    }

    /// Makes the main curve equal to the spare curve.
    pub fn bring_back(&mut self)
        requires { HaveOneCap (C.cells self.old.main) (C.cells self.old.spare) (C.cells self.old.kept) }
        ensures main { C.cells self.new.main ≡ C.cells self.old.spare }
        ensures others { self.new ≡ record self.old { main = self.new.main } }
    {
        self.main.copy_from(&self.spare);
    }

    /// The first place where the main curve, as an image, is below the kept curve, with both cells. There is none exactly
    /// where the kept curve dominates the main curve.
    pub fn kept_break(&self) -> Option<Break>
        requires { HaveOneCap (C.cells self.now.main) (C.cells self.now.spare) (C.cells self.now.kept) }
        ensures first { result ≡ first_break (C.cells self.now.kept) (C.cells self.now.main) }
        ensures none { (result ≡ None) ↔ Dominates (C.cells self.now.kept) (C.cells self.now.main) }
    {
        self.kept.first_break(&self.main)
    }
}

/// A bench that is enough for a sheet, over curves that keep every cell. Fails for want of memory alone.
pub fn bench_for<K: Kernel + Copy>(
    alloc: Global,
    sheet: &Sheet,
    kernel: K,
) -> Result<Bench<Dense<K>, K>, NoMemory>
    ensures fits { IfOk result (λ bench. FitsCap sheet.now.settings.cap bench.main bench.spare bench.kept (vec_len bench.cells) (vec_len bench.tail) (vec_len bench.room)) }
    ensures kernel { IfOk result (λ bench. bench.kernel ≡ kernel) }
{
    let _tasks = sheet.tasks();
    let cap = sheet.cap();
    let main = Dense::new(alloc, kernel, cap)?;
    let spare = Dense::new(alloc, kernel, cap)?;
    let kept = Dense::new(alloc, kernel, cap)?;
    let bench = Bench::new(alloc, main, spare, kept, kernel)?;
    Ok(bench)
}
