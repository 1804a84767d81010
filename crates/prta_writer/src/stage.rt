//! The memory of a session, taken before its first byte is written.

ghost use Rattle.std.specs.Prelude.{◌≡◌, ◌≤◌, IfOk, OnOk, OnErr};
ghost use Rattle.prta_outside.specs.Sink.{HasRisen};
ghost use Rattle.prta_session.specs.Playing.{AreAccepted, print_count};
ghost use Rattle.prta_session.specs.declared.script.TheConstants.{SCRIPT_LIMIT};
ghost use Rattle.prta_writer.specs.Playing.{session_text, AreAroundAtPrints};
ghost use Rattle.prta_writer.specs.Writing.{Took, TookPart};

use crate::curves::{Curves, curves_for};
use crate::playing::play;
use crate::room::PAGE;
use prta_mass::NoMemory;
use prta_outside::{Sink, SinkFault};
use prta_report::Page;
use prta_session::{BenchWorker, Script, Session};
use prta_sheet::Sheet;
use std::alloc::Global;
use std::marker::Model;

/// What a session on a sheet needs: once it is made, no script takes memory. It is seen as the sheet.
#[derive(Drop)]
pub struct Stage {
    session: Session,
    curves: Curves,
    page: Page,
}

impl Model for Stage {
    ghost use Rattle.std.specs.Prelude.{◌≡◌, ◌≤◌};
    ghost use Rattle.prta_sheet.specs.Sheet.{Sheet as SheetParts};
    ghost use Rattle.prta_session.specs.State.{session_of};
    ghost use Rattle.prta_report.specs.declared.page.TheConstants.{LINE};
    ghost use Rattle.prta_writer.specs.Curves.{FitsCurves};

    ghost Value = { SheetParts };

    ghost view = { λ s. s.session.sheet };

    ghost invariant = { λ s. (s.session ≡ session_of s.session.sheet) × FitsCurves s.session.sheet.settings.cap s.curves × (LINE ≤ s.page.spare) };
}

impl Stage {
    /// Takes the memory for a session on a sheet. Fails for want of memory alone.
    pub fn new(alloc: Global, sheet: &Sheet) -> Result<Stage, NoMemory>
        ensures { IfOk result (λ stage. stage ≡ sheet.now) }
    {
        let curves = curves_for(alloc, sheet)?;
        let session = Session::new(alloc, sheet.copy(alloc)?)?;
        let page = Page::with_room(alloc, PAGE)?;
        Ok(Stage {
            session,
            curves,
            page,
        })
    }
}

/// Writes the text of a script that the sheet accepts: at each print that of `analyse` of the sheet as it then is. It takes
/// no memory: it fails only where out does, and then out took a prefix of the text.
pub fn write_session<O: Sink>(stage: Stage, script: Script, out: &mut O) -> Result<(), SinkFault>
    requires accepted { AreAccepted stage script }
    requires prints { print_count script ≤ SCRIPT_LIMIT }
    ensures text { OnOk result (Took (O.taken out.old) (O.taken out.new) (session_text stage script)) }
    ensures around { OnOk result (AreAroundAtPrints stage script) }
    ensures fault { OnErr result (HasRisen (O.faults out.old) (O.faults out.new)) }
    ensures part { OnErr result (TookPart (O.taken out.old) (O.taken out.new) (session_text stage script)) }
{
    let Stage {
        mut session,
        curves,
        mut page,
    } = stage;
    let _tasks = session.sheet().tasks();
    match curves {
        Curves::Cells(bench) => {
            let mut worker = BenchWorker::new(bench);
            play(&mut session, script, &mut worker, &mut page, out)
        }
        Curves::Steps(bench) => {
            let mut worker = BenchWorker::new(bench);
            play(&mut session, script, &mut worker, &mut page, out)
        }
    }
}
