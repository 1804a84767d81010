//! Slack on worked values.

ghost use Rattle.prta_slack.specs.Worked.{WorkedSlacks};

/// What small sheets allow: none, some ticks that a task below or the task itself ends, and as many as a time may have.
#[tactic(auto, unfolding(crate::specs::Answer::slack_of))]
pub fn worked_slacks()
    ensures { WorkedSlacks }
{}
