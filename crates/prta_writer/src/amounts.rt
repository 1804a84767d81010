//! The text of `bench`: how much there is of everything.

ghost use Rattle.std.specs.Prelude.{◌≡◌, ◌+◌, ◌*◌, ◌^◌, ◌≤◌, ◌<◌, ◌++◌, true, OnOk, OnErr, length, vec_len, sum_by, All};
ghost use Rattle.prta_mass.specs.Unit.{unit};
ghost use Rattle.prta_sheet.specs.Weights.{one_if};
ghost use Rattle.prta_sheet.specs.declared.limits.TheConstants.{JOB_LIMIT};
ghost use Rattle.prta_outside.specs.Sink.{HasRisen};
ghost use Rattle.prta_backlog.specs.Room.{room_for};
ghost use Rattle.prta_backlog.specs.Fitting.{FitsCap};
ghost use Rattle.prta_report.specs.Analysis.{bench_text, is_certified};
ghost use Rattle.prta_writer.specs.Curves.{kind_of, FitsCurves};
ghost use Rattle.prta_writer.specs.Report.{fits, most_jobs};
ghost use Rattle.prta_writer.specs.Amounts.{amounts_of, AreSmall};
ghost use Rattle.prta_writer.specs.Writing.{Took, TookPart};

use crate::curves::Curves;
use crate::output::put_all;
use crate::room::{Desk, Room};
use crate::rows::analyse;
use prta_backlog::Bench;
use prta_certificate::{Verdict, find};
use prta_dist::{Curve, Kernel};
use prta_dual::{Bounds, own_jobs_in_turn};
use prta_outside::{Sink, SinkFault};
use prta_report::{LINE, Page, size_line, sums_line};
use prta_sheet::Sheet;

/// Writes how many tasks, analysed jobs, entries and levels with a certificate a sheet has, and the sums of all its numbers.
/// It takes no memory: it fails only where out does, and then out took a prefix of the text.
pub fn write_bench<O: Sink>(room: &mut Room, sheet: &Sheet, out: &mut O) -> Result<(), SinkFault>
    requires { fits sheet.now room.old ≡ true }
    ensures text { OnOk result (Took (O.taken out.old) (O.taken out.new) (bench_text sheet.now)) }
    ensures fault { OnErr result (HasRisen (O.faults out.old) (O.faults out.new)) }
    ensures part { OnErr result (TookPart (O.taken out.old) (O.taken out.new) (bench_text sheet.now)) }
    ensures room { room.new ≡ room.old }
{
    let Room { curves, desk, .. } = room;
    let amounts = amounts_by(curves, desk, sheet);
    desk.page.clear();
    push_amounts(&mut desk.page, sheet, amounts);
    put_all(out, desk.page.bytes())?;
    Ok(())
}

/// What is counted and added up.
#[derive(Clone, Copy)]
pub(crate) struct Amounts {
    /// The entries of all tasks.
    pub entries: u128,
    /// The levels for which a list is found.
    pub certified: u64,
    /// The sum of the lower numbers, in units of 2^-60.
    pub lower: u128,
    /// The sum of the upper numbers.
    pub upper: u128,
}

// The amounts of all tasks, by the curves.
fn amounts_by(curves: &mut Curves, desk: &mut Desk, sheet: &Sheet) -> Amounts
    requires fits { FitsCurves sheet.now.settings.cap curves.old }
    requires entries { room_for sheet.now ≤ desk.old.ledger.room }
    requires jobs { most_jobs sheet.now ≤ vec_len desk.old.bounds }
    ensures amounts { result ≡ amounts_of sheet.now (length sheet.now.tasks) }
    ensures page { desk.new.page ≡ desk.old.page }
    ensures room { desk.old.ledger.room ≤ desk.new.ledger.room }
    ensures bounds { vec_len desk.new.bounds ≡ vec_len desk.old.bounds }
    ensures fits { FitsCurves sheet.now.settings.cap curves.new }
    ensures kind { kind_of curves.new ≡ kind_of curves.old }
{
    match curves {
        Curves::Cells(bench) => amounts_of(bench, desk, sheet),
        Curves::Steps(bench) => amounts_of(bench, desk, sheet),
    }
}

// The amounts of all tasks.
fn amounts_of<C: Curve, K: Kernel>(
    bench: &mut Bench<C, K>,
    desk: &mut Desk,
    sheet: &Sheet,
) -> Amounts
    requires fits { FitsCap sheet.now.settings.cap (C.cells bench.old.main) (C.cells bench.old.spare) (C.cells bench.old.kept)
        (vec_len bench.old.cells) (vec_len bench.old.tail) (vec_len bench.old.room) }
    requires entries { room_for sheet.now ≤ desk.old.ledger.room }
    requires jobs { most_jobs sheet.now ≤ vec_len desk.old.bounds }
    ensures amounts { result ≡ amounts_of sheet.now (length sheet.now.tasks) }
    ensures page { desk.new.page ≡ desk.old.page }
    ensures room { desk.old.ledger.room ≤ desk.new.ledger.room }
    ensures bounds { vec_len desk.new.bounds ≡ vec_len desk.old.bounds }
    ensures bench { FitsCap sheet.now.settings.cap (C.cells bench.new.main) (C.cells bench.new.spare) (C.cells bench.new.kept)
        (vec_len bench.new.cells) (vec_len bench.new.tail) (vec_len bench.new.room) }
{
    let tasks = sheet.tasks();
    let mut amounts = Amounts {
        entries: 0,
        certified: 0,
        lower: 0,
        upper: 0,
    };
    for i in 0..tasks.len() {
        amounts = with_task(bench, desk, sheet, i, amounts);
    }
    amounts
}

// The amounts of the tasks before one, with those of the task.
fn with_task<C: Curve, K: Kernel>(
    bench: &mut Bench<C, K>,
    desk: &mut Desk,
    sheet: &Sheet,
    task: usize,
    before: Amounts,
) -> Amounts
    requires task { task < length sheet.now.tasks }
    requires before { before ≡ amounts_of sheet.now task }
    requires small { AreSmall task before }
    requires fits { FitsCap sheet.now.settings.cap (C.cells bench.old.main) (C.cells bench.old.spare) (C.cells bench.old.kept)
        (vec_len bench.old.cells) (vec_len bench.old.tail) (vec_len bench.old.room) }
    requires entries { room_for sheet.now ≤ desk.old.ledger.room }
    requires jobs { most_jobs sheet.now ≤ vec_len desk.old.bounds }
    ensures amounts { result ≡ amounts_of sheet.now (task + 1) }
    ensures small { AreSmall (task + 1) result }
    ensures page { desk.new.page ≡ desk.old.page }
    ensures room { desk.old.ledger.room ≤ desk.new.ledger.room }
    ensures bounds { vec_len desk.new.bounds ≡ vec_len desk.old.bounds }
    ensures bench { FitsCap sheet.now.settings.cap (C.cells bench.new.main) (C.cells bench.new.spare) (C.cells bench.new.kept)
        (vec_len bench.new.cells) (vec_len bench.new.tail) (vec_len bench.new.room) }
{
    let _tasks = sheet.tasks();
    own_jobs_in_turn();
    analyse(bench, desk, sheet, task);
    let certified = certified(bench, sheet, task);
    let found = &desk.bounds[..sheet.job_count(task)];
    Amounts {
        entries: before.entries + desk.ledger.entries().len() as u128,
        certified: before.certified + certified,
        lower: before.lower + lower_sum(found),
        upper: before.upper + upper_sum(found),
    }
}

// 1 where a list is found for the level of a task, else 0.
fn certified<C: Curve, K: Kernel>(bench: &mut Bench<C, K>, sheet: &Sheet, task: usize) -> u64
    requires task { task < length sheet.now.tasks }
    requires fits { FitsCap sheet.now.settings.cap (C.cells bench.old.main) (C.cells bench.old.spare) (C.cells bench.old.kept)
        (vec_len bench.old.cells) (vec_len bench.old.tail) (vec_len bench.old.room) }
    ensures number { result ≡ one_if (is_certified sheet.now task) }
    ensures bench { FitsCap sheet.now.settings.cap (C.cells bench.new.main) (C.cells bench.new.spare) (C.cells bench.new.kept)
        (vec_len bench.new.cells) (vec_len bench.new.tail) (vec_len bench.new.room) }
{
    match find(bench, sheet, task) {
        Verdict::Turn(_) | Verdict::Slack(_) => 1,
        Verdict::OverFull { .. } | Verdict::BeyondCap { .. } => 0,
    }
}

fn lower_sum(found: &[Bounds]) -> u128
    requires few { length found.now ≤ JOB_LIMIT }
    requires limit { All (λ bounds. bounds.lower ≤ unit) found.now }
    ensures sum { result ≡ sum_by (λ bounds. bounds.lower) found.now }
    ensures small { result ≤ 2 ^ 80 }
{
    found.iter().map(|bounds| bounds.lower as u128).sum()
}

fn upper_sum(found: &[Bounds]) -> u128
    requires few { length found.now ≤ JOB_LIMIT }
    requires limit { All (λ bounds. bounds.upper ≤ unit) found.now }
    ensures sum { result ≡ sum_by (λ bounds. bounds.upper) found.now }
    ensures small { result ≤ 2 ^ 80 }
{
    found.iter().map(|bounds| bounds.upper as u128).sum()
}

// Writes the text.
fn push_amounts(page: &mut Page, sheet: &Sheet, amounts: Amounts)
    requires room { 3 * LINE ≤ page.old.spare }
    requires amounts { amounts ≡ amounts_of sheet.now (length sheet.now.tasks) }
    ensures written { page.new.written ≡ page.old.written ++ bench_text sheet.now }
    ensures size { length page.new.written + page.new.spare ≡ length page.old.written + page.old.spare }
{
    page.push(b"prta bench 1\n");
    size_line(
        page,
        sheet.tasks().len() as u64,
        sheet.all_jobs() as u64,
        amounts.entries,
        amounts.certified,
    );
    sums_line(page, amounts.lower, amounts.upper);
    page.push(b"end\n");
}
