//! Reports over curves of steps, also of sheets that ask for curves of cells: the text is the same.

ghost use Rattle.std.specs.Prelude.{◌+◌, ◌*◌, ◌≤◌, IfOk, length, vec_len};
ghost use Rattle.prta_report.specs.declared.page.TheConstants.{LINE};
ghost use Rattle.prta_backlog.specs.Room.{room_for};
ghost use Rattle.prta_writer.specs.Report.{most_jobs};

use crate::curves::bench_of_steps;
use crate::report::{What, put_report};
use crate::room::{Desk, most_jobs};
use prta_backlog::room_for;
use prta_dual::Bounds;
use prta_ledger::Ledger;
use prta_mass::NoMemory;
use prta_outside::MemorySink;
use prta_report::Page;
use prta_sheet::{Sheet, read_sheet};
use std::alloc::Global;
use std::test::Fail;

// A sheet, and the text of `ledger`: one that is re-sampled, and one whose lists are cut.
static LEDGERS: [(&str, &str); 2] = [
    (
        "format = 1\nhyperperiods = 2\nsupport = { fine = 0, step = 4 }\n[[task]]\nname = \"A\"\nperiod = 4\ndeadline = 4\ntimes = [[1, 1], [6, 1]]\n",
        "prta ledger 1\n\
         hyperperiod 4 jobs 2\n\
         entry up resample A 1 2 576460752303423488\n\
         entry down resample A 1 2 576460752303423488\n\
         gap A 0 lower 576460752303423488 upper 576460752303423488 sum 0\n\
         gap A 1 lower 576460752303423488 upper 864691128455135232 sum 1152921504606846976\n\
         end\n",
    ),
    (
        "format = 1\nhyperperiods = 3\ncap = 6\n[[task]]\nname = \"A\"\nperiod = 4\ndeadline = 4\ntimes = [[1, 1], [6, 1]]\n",
        "prta ledger 1\n\
         hyperperiod 4 jobs 3\n\
         entry up cut A 0 1 576460752303423488\n\
         entry up cut A 1 2 288230376151711744\n\
         entry up cut A 2 3 144115188075855872\n\
         entry down cut A 0 1 576460752303423488\n\
         entry down cut A 1 2 576460752303423488\n\
         entry down cut A 2 3 576460752303423488\n\
         gap A 0 lower 576460752303423488 upper 576460752303423488 sum 1152921504606846976\n\
         gap A 1 lower 576460752303423488 upper 864691128455135232 sum 2017612633061982208\n\
         gap A 2 lower 576460752303423488 upper 1008806316530991104 sum 2738188573441261568\n\
         end\n",
    ),
];

#[test]
fn steps_give_the_same_ledgers(rt: HostRuntime) -> Result<(), Fail> {
    for (i, (sheet, text)) in LEDGERS.iter().enumerate() {
        let sheet = read_sheet(rt.alloc(), sheet.as_bytes())?;
        let mut desk = desk_for(rt.alloc(), &sheet)?;
        let mut bench = bench_of_steps(rt.alloc(), &sheet)?;
        let mut out = MemorySink::with_room(rt.alloc(), 4_096, 4_096)?;
        put_report(&mut bench, &mut desk, &sheet, What::Ledger, &mut out)?;
        assert!(rt; out.bytes() == text.as_bytes(), "ledger {i}");
    }
    Ok(())
}

// What the rows of a sheet are written from and to.
fn desk_for(alloc: Global, sheet: &Sheet) -> Result<Desk, NoMemory>
    ensures entries { IfOk result (λ desk. room_for sheet.now ≤ desk.ledger.room) }
    ensures jobs { IfOk result (λ desk. most_jobs sheet.now ≤ vec_len desk.bounds) }
    ensures page { IfOk result (λ desk. 2 * LINE ≤ length desk.page.written + desk.page.spare) }
{
    let none = Bounds { lower: 0, upper: 0 };
    let ledger = Ledger::with_room(alloc, room_for(sheet))?;
    let bounds = vec![in alloc; none; most_jobs(sheet)]?;
    let page = Page::with_room(alloc, 4_096)?;
    Ok(Desk {
        ledger,
        bounds,
        page,
    })
}
