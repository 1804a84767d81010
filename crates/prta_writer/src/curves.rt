//! The curves of an analysis: which kind a sheet asks for, and the bench over them.

ghost use Rattle.std.specs.Prelude.{◌≡◌, ◌≤◌, vec_len, IfOk};
ghost use Rattle.prta_backlog.specs.Fitting.{FitsCap};
ghost use Rattle.prta_writer.specs.Curves.{has_few_points, kind_for, kind_of, cap_of, FitsCurves};

use crate::room::PAGE;
use prta_backlog::{Bench, bench_for};
use prta_convlane::Lane;
use prta_dist::{Curve, Dense};
use prta_mass::{NoMemory, Support, is_support};
use prta_sheet::Sheet;
use prta_stair::Stair;
use std::alloc::Global;

/// A support with at most so many points below the cap leaves so few steps that curves of steps are the faster ones.
pub const FEW_POINTS: usize = 512;

/// The limits as numbers.
pub fn stated_limits()
    ensures points { FEW_POINTS ≡ 512 }
    ensures page { PAGE ≡ 65536 }
{}

/// How the curves of an analysis keep their lists. The lists, and so all numbers, are the same.
#[derive(Clone, Copy, Debug, PartialEq, Eq)]
pub enum Kind {
    /// By every cell.
    Cells,
    /// By the places where they rise.
    Steps,
}

/// A bench over curves of one kind.
#[derive(Drop)]
pub(crate) enum Curves {
    Cells(Bench<Dense<Lane>, Lane>),
    Steps(Bench<Stair, Lane>),
}

impl Curves {
    /// The cells of the lists.
    pub(crate) fn cap(&self) -> usize
        ensures { result ≡ cap_of self.now }
    {
        match self {
            Curves::Cells(bench) => bench.main.cap(),
            Curves::Steps(bench) => bench.main.cap(),
        }
    }

    /// How they are kept.
    pub(crate) fn kind(&self) -> Kind
        ensures { result ≡ kind_of self.now }
    {
        match self {
            Curves::Cells(_) => Kind::Cells,
            Curves::Steps(_) => Kind::Steps,
        }
    }
}

/// A bench that is enough for a sheet, over the kind of curve that the sheet asks for. Fails for want of memory alone.
pub(crate) fn curves_for(alloc: Global, sheet: &Sheet) -> Result<Curves, NoMemory>
    ensures fits { IfOk result (λ curves. FitsCurves sheet.now.settings.cap curves) }
    ensures kind { IfOk result (λ curves. kind_of curves ≡ kind_for sheet.now) }
{
    match kind_for(sheet) {
        Kind::Cells => Ok(Curves::Cells(bench_for(alloc, sheet, Lane)?)),
        Kind::Steps => Ok(Curves::Steps(bench_of_steps(alloc, sheet)?)),
    }
}

/// The kind of curve that a sheet asks for: steps, where it has a support with few points.
pub(crate) fn kind_for(sheet: &Sheet) -> Kind
    ensures { result ≡ kind_for sheet.now }
{
    let _tasks = sheet.tasks();
    match sheet.settings().support {
        Some(support) if has_few_points(support, sheet.cap()) => Kind::Steps,
        _ => Kind::Cells,
    }
}

// Whether a support has few points below a cap.
fn has_few_points(support: Support, cap: usize) -> bool
    requires step { 1 ≤ support.step }
    ensures { result ≡ has_few_points support cap }
{
    let mut count = 0;
    for k in 0..cap {
        count += is_support(support, cap, k) as usize;
    }
    count <= FEW_POINTS
}

pub(crate) fn bench_of_steps(alloc: Global, sheet: &Sheet) -> Result<Bench<Stair, Lane>, NoMemory>
    ensures { IfOk result (λ bench. FitsCap sheet.now.settings.cap bench.main bench.spare bench.kept (vec_len bench.cells) (vec_len bench.tail) (vec_len bench.room)) }
{
    let _tasks = sheet.tasks();
    let cap = sheet.cap();
    let main = Stair::new(alloc, cap)?;
    let spare = Stair::new(alloc, cap)?;
    let kept = Stair::new(alloc, cap)?;
    let bench = Bench::new(alloc, main, spare, kept, Lane)?;
    Ok(bench)
}
