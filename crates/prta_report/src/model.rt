//! Laws of the definitions of the texts, and what they give on worked values.

ghost use Rattle.std.specs.Prelude.{◌≡◌};
ghost use Rattle.prta_report.specs.TraceLaws.{RunsAreLongest, TraceTellsMisses};
ghost use Rattle.prta_report.specs.WorkedTraces.{WorkedTraces};
ghost use Rattle.prta_report.specs.Certificates.{CertifyWritesCertificate};
ghost use Rattle.prta_report.specs.WorkedTexts.{WorkedTexts};
ghost use Rattle.prta_report.specs.WorkedCertificates.{WorkedCertificateTexts};
ghost use Rattle.prta_report.specs.WorkedAssignments.{WorkedAssignmentTexts};

use crate::page::LINE;
use prta_ticksim::finishes_tell_misses;

/// The limit on the bytes of a line, as a number.
pub fn stated_limit()
    ensures { LINE ≡ 512 }
{}

/// The texts of `simulate` for small sheets: preemption, late jobs, and jobs that are left at the horizon.
pub fn worked_traces()
    ensures { WorkedTraces }
{}

/// The runs of a trace are the longest stretches from 0 to the horizon, one after the other.
pub fn runs_are_longest()
    ensures { RunsAreLongest }
{}

/// The finish that a job's line tells is the model's, and it, or the time that is left, decides the model's miss.
pub fn trace_tells_misses()
    ensures { TraceTellsMisses }
{
    finishes_tell_misses();
}

/// The texts of `analyse`, `ledger`, `check` and `bench` for small sheets: numbers that are exact, rounded and delayed, and an upper
/// number at its task's allowance and past it.
pub fn worked_texts()
    ensures { WorkedTexts }
{}

/// The text of `certify` is the one of the certificate that states what is found for each level.
pub fn certify_writes_certificate()
    ensures { CertifyWritesCertificate }
{}

/// The texts of `certify` and `verify` for small sheets: a list that is found, certifies its level and has a steady number;
/// levels without one; and a list that certifies nothing.
pub fn worked_certificate_texts()
    ensures { WorkedCertificateTexts }
{}

/// The texts of `assign` for small sheets: an order that isn't the sheet's, two tasks of which neither can be the lower one,
/// and a task that the numbers neither pass nor rule out.
pub fn worked_assignment_texts()
    ensures { WorkedAssignmentTexts }
{}
