//! Worked words.

ghost use Rattle.prta_words.specs.Worked.{WorkedWords};

/// Words that are good, and words that aren't.
pub fn worked_words()
    ensures { WorkedWords }
{}
