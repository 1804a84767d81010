//! Noting what an operation did.

ghost use Rattle.std.specs.Prelude.{◌≡◌, ◌+◌, ◌≤◌, [], ◌∷◌, length, if◌then◌else◌};
ghost use Rattle.prta_ledger.specs.Noted.{appended};
ghost use Rattle.prta_dist.specs.Addition.{added};
ghost use Rattle.prta_backlog.specs.Entries.{addition, entries_of};

use prta_dist::Curve;
use prta_ledger::{Entry, Kind, Notes};
use prta_mass::{Dir, TimeTable};

// What the entries of one instant have in common.
#[derive(Clone, Copy)]
pub(crate) struct Origin {
    pub(crate) dir: Dir,
    pub(crate) task: u32,
    pub(crate) job: u32,
}

// Notes an amount of an operation, where it isn't 0.
pub(crate) fn note_amount<N: Notes>(notes: &mut N, origin: Origin, op: u32, kind: Kind, amount: u64)
    requires { 1 ≤ N.room notes.old }
    ensures noted { N.noted notes.new ≡ appended (N.noted notes.old) (entries_of origin.dir origin.task origin.job op ((kind, amount) ∷ [])) }
    ensures room { N.room notes.old ≤ N.room notes.new + length (entries_of origin.dir origin.task origin.job op ((kind, amount) ∷ [])) }
{
    if amount > 0 {
        notes.note(Entry {
            dir: origin.dir,
            kind,
            task: origin.task,
            job: origin.job,
            op,
            amount,
        });
    }
}

// Adds a table, as the operation of this number, and notes what it rounded and cut.
pub(crate) fn add_table<C: Curve, N: Notes>(
    curve: &mut C,
    table: &TimeTable,
    origin: Origin,
    op: u32,
    notes: &mut N,
)
    requires { 2 ≤ N.room notes.old }
    ensures cells { C.cells curve.new ≡ added origin.dir table.now (C.cells curve.old) }
    ensures noted { N.noted notes.new ≡ appended (N.noted notes.old) (entries_of origin.dir origin.task origin.job op (addition origin.dir table.now (C.cells curve.old))) }
    ensures room { N.room notes.old ≤ N.room notes.new + length (entries_of origin.dir origin.task origin.job op (addition origin.dir table.now (C.cells curve.old))) }
{
    let effect = curve.add(table, origin.dir);
    note_amount(notes, origin, op, Kind::Round, one_if(effect.rounded));
    note_amount(notes, origin, op, Kind::Cut, effect.cut);
}

fn one_if(holds: bool) -> u64
    ensures { result ≡ (if holds then 1 else 0) }
{
    if holds { 1 } else { 0 }
}
