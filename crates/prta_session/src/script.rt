//! Scripts.

ghost use Rattle.std.specs.Prelude.{◌≡◌, [], ◌∷◌, ◌++◌, OnOk, MatchOption, count_by};
ghost use Rattle.prta_session.specs.Playing.{is_print, print_count};
ghost use Rattle.prta_session.specs.Script.{StatedLimit};

use prta_mass::NoMemory;
use prta_sheet::Edit;
use std::alloc::Global;
use std::collections::VecDeque;
use std::marker::Model;

/// A script that is read has at most this many bytes.
pub const SCRIPT_LIMIT: usize = 1_048_576;

/// A line of a script.
#[derive(Debug, Drop)]
pub enum Line {
    /// To print the sheet's analysis.
    Print,
    /// To edit the sheet.
    Change(Edit),
}

/// The lines of a script that are left. Contracts see it as the list of them.
#[derive(Debug, Drop)]
pub struct Script {
    lines: VecDeque<Line>,
}

impl Model for Script {
    ghost use Rattle.std.specs.Prelude.{List};
    ghost use Rattle.prta_session.specs.declared.script.Line.{Line as LineValue};

    ghost Value = { List LineValue };

    ghost view = { λ s. s.lines.items };
}

impl Script {
    // No lines. It takes no memory.
    pub(crate) fn new(alloc: Global) -> Script
        ensures { result ≡ [] }
    {
        Script {
            lines: VecDeque::new(alloc),
        }
    }

    // Appends a line.
    pub(crate) fn push(&mut self, line: Line) -> Result<(), NoMemory>
        ensures { OnOk result (self.new ≡ self.old ++ line ∷ []) }
    {
        self.lines.push_back(line)?;
        Ok(())
    }

    /// How many of the lines that are left are prints.
    pub fn prints(&self) -> usize
        ensures { result ≡ print_count self.now }
    {
        prints_in(&self.lines)
    }

    /// The next line; None exactly at the end. It takes no memory.
    pub fn next(&mut self) -> Option<Line>
        ensures { MatchOption result ((self.old ≡ []) × (self.new ≡ [])) (λ line. self.old ≡ line ∷ self.new) }
    {
        self.lines.pop_front()
    }
}

fn prints_in(lines: &VecDeque<Line>) -> usize
    ensures { result ≡ count_by is_print lines.now.items }
{
    lines.iter().filter(|line| is_print(line)).count()
}

fn is_print(line: &Line) -> bool
    ensures { result ≡ is_print line.now }
{
    matches!(line, Line::Print)
}

/// The limit as a number.
pub fn stated_limit()
    ensures { StatedLimit }
{}
