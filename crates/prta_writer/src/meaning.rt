//! What the numbers of a sheet mean: the laws of the analysis, for the sheet's own order of priorities.

ghost use Rattle.std.specs.Prelude.{◌≡◌, None};
ghost use Rattle.prta_dual.specs.Failing.{failing_job};
ghost use Rattle.prta_report.specs.Certificates.{broken_task};
ghost use Rattle.prta_writer.specs.Meaning.{AreAround, AreClose, ChancesPass, AreFound, LevelsHold, NumbersHold};
ghost use Rattle.prta_certfile.specs.Laws.{AreLevels};

use prta_certfile::{Certificate, steps_are_lists};
use prta_certificate::{levels_are_found, steady_numbers_hold, test_certifies, verdicts_say};
use prta_dual::{gap_is_noted, own_jobs_in_turn};
use prta_jobs::jobs_are_before;
use prta_response::numbers_are_around;
use prta_sheet::Sheet;
use prta_tail::{backlogs_have_tails, tail_numbers_hold};

/// Each analysed job's two numbers are around its exact chance, and no further apart than its entries add up to; and where
/// every upper number passes, every exact chance does.
pub fn what_numbers_mean(sheet: &Sheet)
    ensures around { AreAround sheet.now }
    ensures close { AreClose sheet.now }
    ensures passing { failing_job sheet.now ≡ None → ChancesPass sheet.now }
{
    let _tasks = sheet.tasks();
    numbers_are_around();
    gap_is_noted();
    jobs_are_before();
    own_jobs_in_turn();
}

/// What is found for each level is so.
pub fn what_levels_are(sheet: &Sheet)
    ensures { AreFound sheet.now }
{
    let _tasks = sheet.tasks();
    levels_are_found();
}

/// Where no stated list is broken, the steady numbers for each hold in every hyperperiod.
pub fn what_levels_mean(sheet: &Sheet, certificate: &Certificate)
    requires { AreLevels sheet.now.tasks sheet.now.settings.cap certificate.now }
    ensures { broken_task sheet.now certificate.now ≡ None → NumbersHold sheet.now certificate.now }
{
    let _tasks = sheet.tasks();
    steps_are_lists();
    test_certifies();
    steady_numbers_hold();
}

/// The steady numbers of each level, for the list that is found for it or for its tail, hold in every hyperperiod.
pub fn what_tails_mean(sheet: &Sheet)
    ensures { LevelsHold sheet.now }
{
    let _tasks = sheet.tasks();
    verdicts_say();
    steady_numbers_hold();
    backlogs_have_tails();
    tail_numbers_hold();
}
