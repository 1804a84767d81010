//! What the definitions give on worked values, without code.

ghost use Rattle.prta_session.specs.Worked.{WorkedScripts, WorkedSessions};

/// The lines of worked scripts, and the faults of others.
pub fn worked_scripts()
    ensures { WorkedScripts }
{}

/// What worked scripts print, and which tasks are stale at each print.
pub fn worked_sessions()
    ensures { WorkedSessions }
{}
