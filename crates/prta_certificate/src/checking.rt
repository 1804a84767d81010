//! Whether a list is a certificate.

ghost use Rattle.std.specs.Prelude.{◌≡◌, ◌↔◌, ◌<◌, None, length, vec_len};
ghost use Rattle.prta_mass.specs.Chances.{IsWhole, Dominates};
ghost use Rattle.prta_backlog.specs.Fitting.{FitsCap};
ghost use Rattle.prta_backlog.specs.Level.{sheet_level};
ghost use Rattle.prta_certificate.specs.Certificate.{Certifies, broken_at, next_image};

use prta_backlog::{Bench, image};
use prta_dist::{Break, Curve, Kernel};
use prta_jobs::TaskSet;
use prta_sheet::Sheet;

/// The first place where the image of the main curve is below it, on the level of the task in the sheet's order, with both
/// cells. There is none exactly where the main curve, which is whole, certifies the level. It and the spare curve
/// stay; the kept curve holds anything afterwards.
pub fn check<C: Curve, K: Kernel>(
    bench: &mut Bench<C, K>,
    sheet: &Sheet,
    task: usize,
) -> Option<Break>
    requires task { task < length sheet.now.tasks }
    requires fits { FitsCap sheet.now.settings.cap (C.cells bench.old.main) (C.cells bench.old.spare) (C.cells bench.old.kept)
        (vec_len bench.old.cells) (vec_len bench.old.tail) (vec_len bench.old.room) }
    requires whole { IsWhole (C.cells bench.old.main) }
    ensures first { result ≡ broken_at sheet.now.tasks (sheet_level task) (C.cells bench.old.main) }
    ensures none { (result ≡ None) ↔ Certifies sheet.now.tasks (sheet_level task) (C.cells bench.old.main) }
    ensures main { C.cells bench.new.main ≡ C.cells bench.old.main }
    ensures spare { C.cells bench.new.spare ≡ C.cells bench.old.spare }
    ensures fits { FitsCap sheet.now.settings.cap (C.cells bench.new.main) (C.cells bench.new.spare) (C.cells bench.new.kept)
        (vec_len bench.new.cells) (vec_len bench.new.tail) (vec_len bench.new.room) }
{
    let found = go_on(bench, sheet, task);
    bench.take_back();
    found
}

/// Makes the main curve its image on the level of the task, and says where that first breaks the list that was there, which is
/// on the kept curve then.
pub(crate) fn go_on<C: Curve, K: Kernel>(
    bench: &mut Bench<C, K>,
    sheet: &Sheet,
    task: usize,
) -> Option<Break>
    requires task { task < length sheet.now.tasks }
    requires fits { FitsCap sheet.now.settings.cap (C.cells bench.old.main) (C.cells bench.old.spare) (C.cells bench.old.kept)
        (vec_len bench.old.cells) (vec_len bench.old.tail) (vec_len bench.old.room) }
    ensures first { result ≡ broken_at sheet.now.tasks (sheet_level task) (C.cells bench.old.main) }
    ensures none { (result ≡ None) ↔ Dominates (C.cells bench.old.main) (next_image sheet.now.tasks (sheet_level task) (C.cells bench.old.main)) }
    ensures main { C.cells bench.new.main ≡ next_image sheet.now.tasks (sheet_level task) (C.cells bench.old.main) }
    ensures kept { C.cells bench.new.kept ≡ C.cells bench.old.main }
    ensures spare { C.cells bench.new.spare ≡ C.cells bench.old.spare }
    ensures fits { FitsCap sheet.now.settings.cap (C.cells bench.new.main) (C.cells bench.new.spare) (C.cells bench.new.kept)
        (vec_len bench.new.cells) (vec_len bench.new.tail) (vec_len bench.new.room) }
{
    let _tasks = sheet.tasks();
    bench.keep();
    image(bench, sheet, TaskSet::below(task), task);
    bench.kept_break()
}
