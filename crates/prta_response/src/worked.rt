//! Response runs on worked values.

ghost use Rattle.prta_response.specs.Worked.{WorkedResponses, WorkedLaw};

use crate::laws::{law_of_starts, points_bound_backlogs};

/// Numbers and entries of response runs: exact ones, one that ends at a release, one that ends at the deadline, and
/// rounded ones.
pub fn worked_responses()
    ensures { WorkedResponses }
{}

/// Two numbers around an exact chance, by the law and not by summing over assignments.
pub fn worked_law()
    ensures { WorkedLaw }
{
    law_of_starts();
    points_bound_backlogs();
    worked_responses();
}
