//! The text of `verify`: what the lists of a certificate are worth.

ghost use Rattle.std.specs.Prelude.{◌≡◌, ◌+◌, ◌*◌, ◌≤◌, ◌<◌, ◌++◌, true, None, is_none, option_map, IfOk, IfSome, OnOk, OnErr, length, vec_len, flat_map};
ghost use Rattle.prta_sheet.specs.Sheet.{sheet_order};
ghost use Rattle.prta_outside.specs.Sink.{HasRisen};
ghost use Rattle.prta_backlog.specs.Fitting.{FitsCap};
ghost use Rattle.prta_certfile.specs.Laws.{AreLevels, IsLevel};
ghost use Rattle.prta_report.specs.Certificates.{broken_in, broken_task, level_rows, verify_rows, steady_text, verify_text};
ghost use Rattle.prta_writer.specs.Report.{fits, most_jobs};
ghost use Rattle.prta_writer.specs.Meaning.{NumbersHold};
ghost use Rattle.prta_writer.specs.Verifying.{task_of, IsBrokenAt};
ghost use Rattle.prta_writer.specs.Writing.{Took, TookPart, TookAllBut};

use crate::curves::Curves;
use crate::meaning::what_levels_mean;
use crate::output::{make_room, put_all};
use crate::room::Room;
use crate::steadiness::put_certified;
use prta_backlog::Bench;
use prta_certfile::{CertLevel, Certificate, steps_are_lists};
use prta_certificate::{check, load_steps};
use prta_dist::{Break, Curve, Kernel};
use prta_outside::{Sink, SinkFault};
use prta_report::{LINE, Page, broken_line, uncertified_line};
use prta_sheet::Sheet;

/// Writes what a certificate is worth for a sheet: the steady numbers of each level with a list, where every list certifies
/// its level, else the first level whose list doesn't. It takes no memory: it fails only where out does, and then out took a
/// prefix of the text.
pub fn write_verify<O: Sink>(
    room: &mut Room,
    sheet: &Sheet,
    certificate: &Certificate,
    out: &mut O,
) -> Result<bool, SinkFault>
    requires room { fits sheet.now room.old ≡ true }
    requires stated { AreLevels sheet.now.tasks sheet.now.settings.cap certificate.now }
    ensures text { OnOk result (Took (O.taken out.old) (O.taken out.new) (verify_text sheet.now certificate.now)) }
    ensures yes { IfOk result (λ yes. yes ≡ is_none (broken_task sheet.now certificate.now)) }
    ensures hold { broken_task sheet.now certificate.now ≡ None → NumbersHold sheet.now certificate.now }
    ensures fault { OnErr result (HasRisen (O.faults out.old) (O.faults out.new)) }
    ensures part { OnErr result (TookPart (O.taken out.old) (O.taken out.new) (verify_text sheet.now certificate.now)) }
    ensures room { room.new ≡ room.old }
{
    what_levels_mean(sheet, certificate);
    let Room {
        curves,
        desk,
        steady,
        ..
    } = room;
    match curves {
        Curves::Cells(bench) => put_verify(bench, &mut desk.page, steady, sheet, certificate, out),
        Curves::Steps(bench) => put_verify(bench, &mut desk.page, steady, sheet, certificate, out),
    }
}

// Writes it over one kind of curve.
fn put_verify<C: Curve, K: Kernel, O: Sink>(
    bench: &mut Bench<C, K>,
    page: &mut Page,
    places: &mut [u64],
    sheet: &Sheet,
    certificate: &Certificate,
    out: &mut O,
) -> Result<bool, SinkFault>
    requires fits { FitsCap sheet.now.settings.cap (C.cells bench.old.main) (C.cells bench.old.spare) (C.cells bench.old.kept)
        (vec_len bench.old.cells) (vec_len bench.old.tail) (vec_len bench.old.room) }
    requires places { most_jobs sheet.now ≤ length places.old }
    requires stated { AreLevels sheet.now.tasks sheet.now.settings.cap certificate.now }
    requires page { 2 * LINE ≤ length page.old.written + page.old.spare }
    ensures text { OnOk result (Took (O.taken out.old) (O.taken out.new) (verify_text sheet.now certificate.now)) }
    ensures yes { IfOk result (λ yes. yes ≡ is_none (broken_task sheet.now certificate.now)) }
    ensures fault { OnErr result (HasRisen (O.faults out.old) (O.faults out.new)) }
    ensures part { OnErr result (TookPart (O.taken out.old) (O.taken out.new) (verify_text sheet.now certificate.now)) }
    ensures fits { FitsCap sheet.now.settings.cap (C.cells bench.new.main) (C.cells bench.new.spare) (C.cells bench.new.kept)
        (vec_len bench.new.cells) (vec_len bench.new.tail) (vec_len bench.new.room) }
    ensures places { length places.new ≡ length places.old }
    ensures size { length page.new.written + page.new.spare ≡ length page.old.written + page.old.spare }
{
    let levels = certificate.levels();
    page.clear();
    page.push(b"prta verify 1\n");
    if let Some(broken) = first_broken(bench, sheet, levels) {
        broken_line(page, sheet, broken.task, broken.at);
        put_all(out, page.bytes())?;
        return Ok(false);
    }
    put_levels(bench, page, places, sheet, levels, out)?;
    Ok(true)
}

/// A task for whose level a list is stated that doesn't certify it, and the first place where the list's image is below it.
#[derive(Clone, Copy)]
pub(crate) struct Broken {
    pub task: usize,
    pub at: Break,
}

// The first such task, in sheet order.
fn first_broken<C: Curve, K: Kernel>(
    bench: &mut Bench<C, K>,
    sheet: &Sheet,
    levels: &[CertLevel],
) -> Option<Broken>
    requires fits { FitsCap sheet.now.settings.cap (C.cells bench.old.main) (C.cells bench.old.spare) (C.cells bench.old.kept)
        (vec_len bench.old.cells) (vec_len bench.old.tail) (vec_len bench.old.room) }
    requires stated { AreLevels sheet.now.tasks sheet.now.settings.cap levels.now }
    ensures first { option_map task_of result ≡ broken_task sheet.now levels.now }
    ensures at { IfSome result (IsBrokenAt sheet.now levels.now) }
    ensures on_sheet { IfSome result (λ broken. broken.task < length sheet.now.tasks) }
    ensures fits { FitsCap sheet.now.settings.cap (C.cells bench.new.main) (C.cells bench.new.spare) (C.cells bench.new.kept)
        (vec_len bench.new.cells) (vec_len bench.new.tail) (vec_len bench.new.room) }
{
    for i in 0..levels.len() {
        if let Some(at) = broken_at(bench, sheet, i, &levels[i]) {
            return Some(Broken { task: i, at });
        }
    }
    None
}

// The first place where the image of a stated list is below it.
fn broken_at<C: Curve, K: Kernel>(
    bench: &mut Bench<C, K>,
    sheet: &Sheet,
    task: usize,
    level: &CertLevel,
) -> Option<Break>
    requires task { task < length sheet.now.tasks }
    requires stated { IsLevel sheet.now.settings.cap level.now }
    requires fits { FitsCap sheet.now.settings.cap (C.cells bench.old.main) (C.cells bench.old.spare) (C.cells bench.old.kept)
        (vec_len bench.old.cells) (vec_len bench.old.tail) (vec_len bench.old.room) }
    ensures broken { result ≡ broken_in sheet.now task level.now }
    ensures fits { FitsCap sheet.now.settings.cap (C.cells bench.new.main) (C.cells bench.new.spare) (C.cells bench.new.kept)
        (vec_len bench.new.cells) (vec_len bench.new.tail) (vec_len bench.new.room) }
{
    match level {
        CertLevel::Steps(steps) => {
            steps_are_lists();
            load_steps(bench, steps);
            check(bench, sheet, task)
        }
        CertLevel::OverFull { .. } | CertLevel::BeyondCap { .. } => None,
    }
}

// The rows of all tasks, and the last line.
fn put_levels<C: Curve, K: Kernel, O: Sink>(
    bench: &mut Bench<C, K>,
    page: &mut Page,
    places: &mut [u64],
    sheet: &Sheet,
    levels: &[CertLevel],
    out: &mut O,
) -> Result<(), SinkFault>
    requires fits { FitsCap sheet.now.settings.cap (C.cells bench.old.main) (C.cells bench.old.spare) (C.cells bench.old.kept)
        (vec_len bench.old.cells) (vec_len bench.old.tail) (vec_len bench.old.room) }
    requires places { most_jobs sheet.now ≤ length places.old }
    requires stated { AreLevels sheet.now.tasks sheet.now.settings.cap levels.now }
    requires page { LINE ≤ length page.old.written + page.old.spare }
    ensures text { OnOk result (Took (O.taken out.old) (O.taken out.new) (page.old.written ++ steady_text sheet.now levels.now)) }
    ensures fault { OnErr result (HasRisen (O.faults out.old) (O.faults out.new)) }
    ensures part { OnErr result (TookPart (O.taken out.old) (O.taken out.new) (page.old.written ++ steady_text sheet.now levels.now)) }
    ensures never_falls { O.faults out.old ≤ O.faults out.new }
    ensures fits { FitsCap sheet.now.settings.cap (C.cells bench.new.main) (C.cells bench.new.spare) (C.cells bench.new.kept)
        (vec_len bench.new.cells) (vec_len bench.new.tail) (vec_len bench.new.room) }
    ensures places { length places.new ≡ length places.old }
    ensures size { length page.new.written + page.new.spare ≡ length page.old.written + page.old.spare }
{
    put_rows(bench, page, places, sheet, levels, out)?;
    make_room(page, out)?;
    page.push(b"end\n");
    put_all(out, page.bytes())?;
    Ok(())
}

// The rows of all tasks.
fn put_rows<C: Curve, K: Kernel, O: Sink>(
    bench: &mut Bench<C, K>,
    page: &mut Page,
    places: &mut [u64],
    sheet: &Sheet,
    levels: &[CertLevel],
    out: &mut O,
) -> Result<(), SinkFault>
    requires fits { FitsCap sheet.now.settings.cap (C.cells bench.old.main) (C.cells bench.old.spare) (C.cells bench.old.kept)
        (vec_len bench.old.cells) (vec_len bench.old.tail) (vec_len bench.old.room) }
    requires places { most_jobs sheet.now ≤ length places.old }
    requires stated { AreLevels sheet.now.tasks sheet.now.settings.cap levels.now }
    requires page { LINE ≤ length page.old.written + page.old.spare }
    ensures took { OnOk result (TookAllBut (O.taken out.old) (O.taken out.new) (page.old.written ++ flat_map (verify_rows sheet.now levels.now) (sheet_order sheet.now.tasks)) page.new.written) }
    ensures fault { OnErr result (HasRisen (O.faults out.old) (O.faults out.new)) }
    ensures part { OnErr result (TookPart (O.taken out.old) (O.taken out.new) (page.old.written ++ flat_map (verify_rows sheet.now levels.now) (sheet_order sheet.now.tasks))) }
    ensures never_falls { O.faults out.old ≤ O.faults out.new }
    ensures size { length page.new.written + page.new.spare ≡ length page.old.written + page.old.spare }
    ensures fits { FitsCap sheet.now.settings.cap (C.cells bench.new.main) (C.cells bench.new.spare) (C.cells bench.new.kept)
        (vec_len bench.new.cells) (vec_len bench.new.tail) (vec_len bench.new.room) }
    ensures places { length places.new ≡ length places.old }
{
    for i in 0..levels.len() {
        put_level(bench, page, places, sheet, i, &levels[i], out)?;
    }
    Ok(())
}

// The rows of a task, by what is stated of its level.
fn put_level<C: Curve, K: Kernel, O: Sink>(
    bench: &mut Bench<C, K>,
    page: &mut Page,
    places: &mut [u64],
    sheet: &Sheet,
    task: usize,
    level: &CertLevel,
    out: &mut O,
) -> Result<(), SinkFault>
    requires task { task < length sheet.now.tasks }
    requires stated { IsLevel sheet.now.settings.cap level.now }
    requires fits { FitsCap sheet.now.settings.cap (C.cells bench.old.main) (C.cells bench.old.spare) (C.cells bench.old.kept)
        (vec_len bench.old.cells) (vec_len bench.old.tail) (vec_len bench.old.room) }
    requires places { most_jobs sheet.now ≤ length places.old }
    requires page { LINE ≤ length page.old.written + page.old.spare }
    ensures took { OnOk result (TookAllBut (O.taken out.old) (O.taken out.new) (page.old.written ++ level_rows sheet.now task level.now) page.new.written) }
    ensures fault { OnErr result (HasRisen (O.faults out.old) (O.faults out.new)) }
    ensures part { OnErr result (TookPart (O.taken out.old) (O.taken out.new) (page.old.written ++ level_rows sheet.now task level.now)) }
    ensures never_falls { O.faults out.old ≤ O.faults out.new }
    ensures size { length page.new.written + page.new.spare ≡ length page.old.written + page.old.spare }
    ensures fits { FitsCap sheet.now.settings.cap (C.cells bench.new.main) (C.cells bench.new.spare) (C.cells bench.new.kept)
        (vec_len bench.new.cells) (vec_len bench.new.tail) (vec_len bench.new.room) }
    ensures places { length places.new ≡ length places.old }
{
    match level {
        CertLevel::Steps(steps) => {
            load_steps(bench, steps);
            put_certified(bench, page, places, sheet, task, out)
        }
        CertLevel::OverFull { .. } | CertLevel::BeyondCap { .. } => {
            make_room(page, out)?;
            uncertified_line(page, sheet, task);
            Ok(())
        }
    }
}
