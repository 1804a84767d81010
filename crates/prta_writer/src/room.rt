//! The memory of an analysis, taken before its first byte is written.

ghost use Rattle.std.specs.Prelude.{◌≡◌, ◌≤◌, true, IfOk};
ghost use Rattle.prta_writer.specs.Report.{fits, most_jobs};

use crate::curves::{Curves, Kind, curves_for, kind_for};
use prta_backlog::room_for;
use prta_dist::Curve;
use prta_dual::Bounds;
use prta_ledger::Ledger;
use prta_mass::NoMemory;
use prta_report::Page;
use prta_sheet::Sheet;
use std::alloc::Global;
use std::marker::Model;

// How many bytes are put at a time, about.
pub(crate) const PAGE: usize = 65_536;

/// Room for the reports of a sheet: once it is made, a whole analysis takes no memory. It is seen as the cells of a list of
/// chances and how that is kept, the entries of a ledger, and the jobs of one task.
#[derive(Drop)]
pub struct Room {
    pub(crate) curves: Curves,
    pub(crate) desk: Desk,
    // The steady number of each job of a task in one hyperperiod.
    pub(crate) steady: Vec<u64>,
    // How many entries the ledger has room for at least.
    pub(crate) entries: usize,
}

/// What the rows of one task are written from and to.
#[derive(Drop)]
pub struct Desk {
    /// The entries of the task.
    pub ledger: Ledger,
    /// The two numbers of each of its jobs.
    pub bounds: Vec<Bounds>,
    /// The lines that weren't put yet.
    pub page: Page,
}

impl Model for Room {
    ghost use Rattle.std.specs.Prelude.{◌≡◌, ◌+◌, ◌*◌, ◌≤◌, length, vec_len};
    ghost use Rattle.prta_writer.specs.Curves.{cap_of, kind_of, FitsCurves};
    ghost use Rattle.prta_report.specs.declared.page.TheConstants.{LINE};
    ghost use Rattle.prta_writer.specs.Report.{RoomParts};

    ghost Value = { RoomParts };

    ghost view = { λ r. record { cap = cap_of r.curves; kind = kind_of r.curves; entries = r.entries; jobs = vec_len r.desk.bounds } };

    ghost invariant = { λ r. FitsCurves (cap_of r.curves) r.curves
        × (r.entries ≤ r.desk.ledger.room)
        × (vec_len r.steady ≡ vec_len r.desk.bounds)
        × (3 * LINE ≤ length r.desk.page.written + r.desk.page.spare) };
}

impl Room {
    /// Takes the memory for the reports of a sheet. Fails for want of memory alone.
    pub fn new(alloc: Global, sheet: &Sheet) -> Result<Room, NoMemory>
        ensures { IfOk result (λ room. fits sheet.now room ≡ true) }
    {
        let curves = curves_for(alloc, sheet)?;
        let entries = room_for(sheet);
        let ledger = Ledger::with_room(alloc, entries)?;
        let none = Bounds { lower: 0, upper: 0 };
        let bounds = vec![in alloc; none; most_jobs(sheet)]?;
        let steady = vec![in alloc; 0; most_jobs(sheet)]?;
        let page = Page::with_room(alloc, PAGE)?;
        let desk = Desk {
            ledger,
            bounds,
            page,
        };
        Ok(Room {
            curves,
            desk,
            steady,
            entries,
        })
    }

    /// Whether it is enough for the reports of a sheet.
    pub fn fits(&self, sheet: &Sheet) -> bool
        ensures { result ≡ fits sheet.now self.now }
    {
        self.curves.cap() == sheet.cap()
            && self.curves.kind() == kind_for(sheet)
            && room_for(sheet) <= self.entries
            && most_jobs(sheet) <= self.desk.bounds.len()
    }
}

// The greatest number of analysed jobs of a task.
pub(crate) fn most_jobs(sheet: &Sheet) -> usize
    ensures { result ≡ most_jobs sheet.now }
{
    let mut most = 0;
    for i in 0..sheet.tasks().len() {
        most = most.max(sheet.job_count(i));
    }
    most
}
