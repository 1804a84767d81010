//! The text of `assign`.

ghost use Rattle.std.specs.Prelude.{◌≡◌, ◌+◌, ◌*◌, ◌≤◌, ◌++◌, IfOk};
ghost use Rattle.prta_audsley.specs.Verdict.{verdict, Says, VerdictHolds};
ghost use Rattle.prta_report.specs.Assignment.{verdict_line, assign_text};
ghost use Rattle.prta_writer.specs.Assigning.{is_found};
ghost use Rattle.prta_writer.specs.Curves.{FitsCurves};

use crate::curves::{Curves, curves_for};
use prta_audsley::{Assigned, assign, verdicts_hold};
use prta_mass::NoMemory;
use prta_report::{LINE, Page, order_line, set_line};
use prta_sheet::Sheet;
use std::alloc::Global;

/// The whole text of the verdict on a sheet's orders of priorities, and whether there is an order. Fails for want of memory
/// alone, which is taken before the first analysis.
pub fn assignment(alloc: Global, sheet: &Sheet) -> Result<(Page, bool), NoMemory>
    ensures text { IfOk result (λ answer. answer.0.written ≡ assign_text sheet.now) }
    ensures found { IfOk result (λ answer. answer.1 ≡ is_found (verdict sheet.now)) }
    ensures holds { VerdictHolds sheet.now }
{
    verdicts_hold();
    let _tasks = sheet.tasks();
    let mut page = Page::with_room(alloc, 2 * LINE)?;
    let assigned = assigned_by(alloc, curves_for(alloc, sheet)?, sheet)?;
    page.push(b"prta assign 1\n");
    push_verdict(&mut page, sheet, &assigned);
    page.push(b"end\n");
    let found = is_order(&assigned);
    Ok((page, found))
}

// The verdict, by the curves.
fn assigned_by(alloc: Global, curves: Curves, sheet: &Sheet) -> Result<Assigned, NoMemory>
    requires { FitsCurves sheet.now.settings.cap curves }
    ensures verdict { IfOk result (λ assigned. assigned ≡ verdict sheet.now) }
    ensures says { IfOk result (Says sheet.now) }
{
    match curves {
        Curves::Cells(mut bench) => assign(alloc, &mut bench, sheet),
        Curves::Steps(mut bench) => assign(alloc, &mut bench, sheet),
    }
}

// The line of the verdict.
fn push_verdict(page: &mut Page, sheet: &Sheet, assigned: &Assigned)
    requires room { LINE ≤ page.old.spare }
    requires says { Says sheet.now assigned.now }
    ensures written { page.new.written ≡ page.old.written ++ verdict_line sheet.now.tasks assigned.now }
    ensures room { page.old.spare ≤ page.new.spare + LINE }
{
    match assigned {
        Assigned::Order(order) => order_line(page, sheet, order),
        Assigned::Undecided { stuck } => set_line(page, sheet, "undecided", *stuck),
        Assigned::Impossible { stuck } => set_line(page, sheet, "impossible", *stuck),
    }
}

fn is_order(assigned: &Assigned) -> bool
    ensures { result ≡ is_found assigned.now }
{
    match assigned {
        Assigned::Order(_) => true,
        Assigned::Undecided { .. } | Assigned::Impossible { .. } => false,
    }
}
