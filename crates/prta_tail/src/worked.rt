//! Walks and tails on worked values.

ghost use Rattle.prta_tail.specs.Worked.{WorkedWalks, WorkedTails};

/// Growth, factors and walks: a level that passes at the first ratio, one that passes at the third, one whose mean work is
/// the hyperperiod, so that none passes, and one of two tasks.
pub fn worked_walks()
    ensures { WorkedWalks }
{}

/// Base lists and tail numbers of these levels, with and without images.
pub fn worked_tails()
    ensures { WorkedTails }
{}
