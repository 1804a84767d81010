//! Laws of certificates, without code: a body only calls the laws that it rests on.

ghost use Rattle.prta_certificate.specs.Laws.{TestCertifies, CertifiedListsBound, SteadyNumbersHold, CandidatesCertify, NoneCertifies};
ghost use Rattle.prta_certificate.specs.Levels.{LevelsAreFound};
ghost use Rattle.prta_certificate.specs.Search.{SearchDecides};
ghost use Rattle.prta_certificate.specs.Verdict.{VerdictsSay};

use prta_certfile::steps_are_lists;
use prta_response::{images_bound_backlogs, law_of_starts, points_bound_backlogs};

/// The test of a list by its last cell and its first break says whether it certifies the level.
pub fn test_certifies()
    ensures { TestCertifies }
{}

/// A list that certifies a level bounds its backlog at the start of every hyperperiod.
pub fn certified_lists_bound()
    ensures { CertifiedListsBound }
{
    images_bound_backlogs();
    points_bound_backlogs();
}

/// The steady number of an own job, for a list that certifies the level, bounds the exact chance of the job's copy in every
/// later hyperperiod.
pub fn steady_numbers_hold()
    ensures { SteadyNumbersHold }
{
    law_of_starts();
    certified_lists_bound();
}

/// Where a level's greatest work is at most the hyperperiod and its peak is below the cap, one of the candidates certifies.
pub fn candidates_certify()
    ensures { CandidatesCertify }
{}

/// In every other case no list of as many cells as the cap certifies the level.
pub fn none_certifies()
    ensures { NoneCertifies }
{}

/// Which verdict each step of the search for a certificate decides, and that the last lowered list certifies, so that the search
/// comes to an end.
pub fn search_decides()
    ensures { SearchDecides }
{}

/// What the verdict on a level says is so: which candidate is the first that certifies it, or why no list of as many cells as the
/// cap does.
pub fn verdicts_say()
    ensures { VerdictsSay }
{}

/// What a certificate that is found for an accepted sheet states of each level is so: a list that certifies it wherever there is
/// one, or why there is none.
pub fn levels_are_found()
    ensures { LevelsAreFound }
{
    verdicts_say();
    steps_are_lists();
}
