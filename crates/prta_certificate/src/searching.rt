//! The search for a certificate.

ghost use Rattle.std.specs.Prelude.{◌≡◌, ◌<◌, true, length, vec_len, IfSome};
ghost use Rattle.prta_mass.specs.Chances.{point};
ghost use Rattle.prta_backlog.specs.Fitting.{FitsCap};
ghost use Rattle.prta_backlog.specs.Bench.{HaveOneCap};
ghost use Rattle.prta_backlog.specs.Greatest.{worst_backlog as worst_backlog_of};
ghost use Rattle.prta_dist.specs.Curve.{lower as lower_of};
ghost use Rattle.prta_backlog.specs.Level.{sheet_level};
ghost use Rattle.prta_certificate.specs.Certificate.{next_image, certifies};
ghost use Rattle.prta_certificate.specs.Candidates.{image_of_point, lowered, slack, verdict_of, list_of};
ghost use Rattle.prta_certificate.specs.Search.{ImagesTried, LoweredTried};
ghost use Rattle.prta_certificate.specs.Verdict.{Says};

use crate::checking::go_on;
use crate::laws::{search_decides, verdicts_say};
use crate::verdict::Verdict;
use prta_backlog::{Bench, greatest_work, peak, worst_backlog};
use prta_dist::{Curve, Kernel};
use prta_jobs::TaskSet;
use prta_mass::UNIT;
use prta_sheet::Sheet;

/// Searches a certificate for the level of the task in the sheet's order: the first of the lists that are tried is left on the
/// main curve. The spare and the kept curve hold anything afterwards.
pub fn find<C: Curve, K: Kernel>(bench: &mut Bench<C, K>, sheet: &Sheet, task: usize) -> Verdict
    requires task { task < length sheet.now.tasks }
    requires fits { FitsCap sheet.now.settings.cap (C.cells bench.old.main) (C.cells bench.old.spare) (C.cells bench.old.kept)
        (vec_len bench.old.cells) (vec_len bench.old.tail) (vec_len bench.old.room) }
    ensures verdict { result ≡ verdict_of sheet.now.tasks (sheet_level task) sheet.now.settings.cap sheet.now.settings.turns }
    ensures says { Says sheet.now.tasks (sheet_level task) sheet.now.settings.cap sheet.now.settings.turns result }
    ensures list { IfSome (list_of sheet.now.tasks (sheet_level task) sheet.now.settings.cap sheet.now.settings.turns result) (λ cells. C.cells bench.new.main ≡ cells) }
    ensures fits { FitsCap sheet.now.settings.cap (C.cells bench.new.main) (C.cells bench.new.spare) (C.cells bench.new.kept)
        (vec_len bench.new.cells) (vec_len bench.new.tail) (vec_len bench.new.room) }
{
    search_decides();
    verdicts_say();
    let _tasks = sheet.tasks();
    let higher = TaskSet::below(task);
    let work = greatest_work(sheet, higher, task);
    let hyperperiod = sheet.hyperperiod();
    if work > hyperperiod {
        return Verdict::OverFull { work, hyperperiod };
    }
    let peak = peak(sheet, higher, task);
    if peak >= sheet.cap() as u64 {
        return Verdict::BeyondCap { peak };
    }
    if let Some(turn) = first_image(bench, sheet, task) {
        return Verdict::Turn(turn);
    }
    Verdict::Slack(first_lowered(bench, sheet, task))
}

// The first of the images 0 to `turns` of the point at 0 that certifies the level; it is left on the main curve, or else the
// last of them is.
fn first_image<C: Curve, K: Kernel>(
    bench: &mut Bench<C, K>,
    sheet: &Sheet,
    task: usize,
) -> Option<u32>
    requires task { task < length sheet.now.tasks }
    requires fits { FitsCap sheet.now.settings.cap (C.cells bench.old.main) (C.cells bench.old.spare) (C.cells bench.old.kept)
        (vec_len bench.old.cells) (vec_len bench.old.tail) (vec_len bench.old.room) }
    ensures tried { ImagesTried sheet.now.tasks (sheet_level task) sheet.now.settings.cap sheet.now.settings.turns (C.cells bench.new.main) result }
    ensures fits { FitsCap sheet.now.settings.cap (C.cells bench.new.main) (C.cells bench.new.spare) (C.cells bench.new.kept)
        (vec_len bench.new.cells) (vec_len bench.new.tail) (vec_len bench.new.room) }
{
    let turns = sheet.settings().turns;
    start_at_point(bench);
    for turn in 0..turns {
        if was_certified(bench, sheet, task) {
            bench.take_back();
            return Some(turn);
        }
    }
    if is_certified(bench, sheet, task) {
        Some(turns)
    } else {
        None
    }
}

// Makes the main curve the point at 0.
fn start_at_point<C: Curve, K: Kernel>(bench: &mut Bench<C, K>)
    ensures main { C.cells bench.new.main ≡ point (length (C.cells bench.old.main)) 0 }
    ensures cap { length (C.cells bench.new.main) ≡ length (C.cells bench.old.main) }
    ensures others { bench.new ≡ record bench.old { main = bench.new.main } }
{
    let _cap = bench.main.cap();
    bench.main.point(0);
}

// Makes the main curve its image on the level, and says whether the list that was there, which is on the kept curve then,
// certifies it.
fn was_certified<C: Curve, K: Kernel>(bench: &mut Bench<C, K>, sheet: &Sheet, task: usize) -> bool
    requires task { task < length sheet.now.tasks }
    requires fits { FitsCap sheet.now.settings.cap (C.cells bench.old.main) (C.cells bench.old.spare) (C.cells bench.old.kept)
        (vec_len bench.old.cells) (vec_len bench.old.tail) (vec_len bench.old.room) }
    ensures test { result ≡ certifies sheet.now.tasks (sheet_level task) (C.cells bench.old.main) }
    ensures main { C.cells bench.new.main ≡ next_image sheet.now.tasks (sheet_level task) (C.cells bench.old.main) }
    ensures kept { C.cells bench.new.kept ≡ C.cells bench.old.main }
    ensures spare { C.cells bench.new.spare ≡ C.cells bench.old.spare }
    ensures fits { FitsCap sheet.now.settings.cap (C.cells bench.new.main) (C.cells bench.new.spare) (C.cells bench.new.kept)
        (vec_len bench.new.cells) (vec_len bench.new.tail) (vec_len bench.new.room) }
{
    // past the last cell
    let end = bench.main.cap();
    let whole = bench.main.at(end) == UNIT;
    let found = go_on(bench, sheet, task);
    whole && found.is_none()
}

// The first of the sixteen numbers that, taken off the main curve below the worst-case backlog, makes it certify the level; so
// lowered it is left. The last of them needs no test.
fn first_lowered<C: Curve, K: Kernel>(bench: &mut Bench<C, K>, sheet: &Sheet, task: usize) -> u64
    requires task { task < length sheet.now.tasks }
    requires fits { FitsCap sheet.now.settings.cap (C.cells bench.old.main) (C.cells bench.old.spare) (C.cells bench.old.kept)
        (vec_len bench.old.cells) (vec_len bench.old.tail) (vec_len bench.old.room) }
    requires below { worst_backlog_of sheet.now.tasks (sheet_level task) < length (C.cells bench.old.main) }
    requires main { C.cells bench.old.main ≡ image_of_point sheet.now.tasks (sheet_level task) sheet.now.settings.cap sheet.now.settings.turns }
    requires last { certifies sheet.now.tasks (sheet_level task) (lowered sheet.now.tasks (sheet_level task) sheet.now.settings.cap sheet.now.settings.turns (slack 15)) ≡ true }
    ensures tried { LoweredTried sheet.now.tasks (sheet_level task) sheet.now.settings.cap sheet.now.settings.turns (C.cells bench.new.main) result }
    ensures fits { FitsCap sheet.now.settings.cap (C.cells bench.new.main) (C.cells bench.new.spare) (C.cells bench.new.kept)
        (vec_len bench.new.cells) (vec_len bench.new.tail) (vec_len bench.new.room) }
{
    let worst = worst_of(sheet, task);
    bench.set_aside();
    for n in 0..15u32 {
        let slack = slack_of(n);
        lower_spare(bench, slack, worst);
        if is_certified(bench, sheet, task) {
            return slack;
        }
    }
    lower_spare(bench, UNIT, worst);
    UNIT
}

// The number of this place among those that are taken off.
fn slack_of(n: u32) -> u64
    requires n { n < 16 }
    ensures { result ≡ slack n }
{
    1 << (4 * n)
}

// The worst-case backlog of the level, in ticks.
fn worst_of(sheet: &Sheet, task: usize) -> usize
    requires task { task < length sheet.now.tasks }
    ensures { result ≡ worst_backlog_of sheet.now.tasks (sheet_level task) }
{
    let _tasks = sheet.tasks();
    worst_backlog(sheet, TaskSet::below(task), task) as usize
}

// Makes the main curve the spare one, lowered by the slack below a place.
fn lower_spare<C: Curve, K: Kernel>(bench: &mut Bench<C, K>, slack: u64, top: usize)
    requires caps { HaveOneCap (C.cells bench.old.main) (C.cells bench.old.spare) (C.cells bench.old.kept) }
    requires top { top < length (C.cells bench.old.spare) }
    ensures main { C.cells bench.new.main ≡ lower_of slack top (C.cells bench.old.spare) }
    ensures cap { length (C.cells bench.new.main) ≡ length (C.cells bench.old.main) }
    ensures others { bench.new ≡ record bench.old { main = bench.new.main } }
{
    bench.bring_back();
    bench.main.lower(slack, top);
}

// Whether the main curve certifies the level.
fn is_certified<C: Curve, K: Kernel>(bench: &mut Bench<C, K>, sheet: &Sheet, task: usize) -> bool
    requires task { task < length sheet.now.tasks }
    requires fits { FitsCap sheet.now.settings.cap (C.cells bench.old.main) (C.cells bench.old.spare) (C.cells bench.old.kept)
        (vec_len bench.old.cells) (vec_len bench.old.tail) (vec_len bench.old.room) }
    ensures test { result ≡ certifies sheet.now.tasks (sheet_level task) (C.cells bench.old.main) }
    ensures main { C.cells bench.new.main ≡ C.cells bench.old.main }
    ensures spare { C.cells bench.new.spare ≡ C.cells bench.old.spare }
    ensures fits { FitsCap sheet.now.settings.cap (C.cells bench.new.main) (C.cells bench.new.spare) (C.cells bench.new.kept)
        (vec_len bench.new.cells) (vec_len bench.new.tail) (vec_len bench.new.room) }
{
    let certified = was_certified(bench, sheet, task);
    bench.take_back();
    certified
}
