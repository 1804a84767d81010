//! The reading of a script.

ghost use Rattle.std.specs.Prelude.{◌≡◌, ◌≤◌, length, IfOk};
ghost use Rattle.prta_session.specs.Script.{IsReading};
ghost use Rattle.prta_session.specs.Playing.{AreAccepted, print_count};
ghost use Rattle.prta_session.specs.Reading.{AreLinesRead, at_end as end_of};

use crate::fault::ScriptFault;
use crate::line::read_line;
use crate::part::next_part;
use crate::script::{SCRIPT_LIMIT, Script};
use prta_sheet::Sheet;
use std::alloc::Global;

/// Reads the text of a script for the sheet. Its lines end with a line feed and are `table NAME INDEX TIME:WEIGHT ..` with
/// one or more pairs, `deadline NAME D`, `allow NAME P Q` and `print`, with single spaces, numbers in decimal, the index,
/// the times and D below 2^32 and the other numbers below 2^64. Each edit is accepted on the sheet as the lines before it
/// leave it. No bytes are a script without lines. Memory is taken for the lines, and while it reads for a copy of the sheet
/// and of a line.
pub fn read_script(alloc: Global, sheet: &Sheet, bytes: &[u8]) -> Result<Script, ScriptFault>
    ensures reading { IsReading sheet.now bytes.now result }
    ensures accepted { IfOk result (AreAccepted sheet.now) }
    ensures prints { IfOk result (λ lines. print_count lines ≤ SCRIPT_LIMIT) }
{
    if bytes.len() > SCRIPT_LIMIT {
        return Err(ScriptFault::TooLong);
    }
    read_lines(alloc, sheet, bytes)
}

// Reads the lines, each on the sheet as those before leave it.
fn read_lines(alloc: Global, sheet: &Sheet, bytes: &[u8]) -> Result<Script, ScriptFault>
    requires { length bytes.now ≤ SCRIPT_LIMIT }
    ensures { AreLinesRead sheet.now bytes.now result }
{
    let tasks = sheet.tasks();
    let mut edited = sheet.copy(alloc)?;
    let mut script = Script::new(alloc);
    let mut rest = bytes;
    let mut n = 1;
    'lines: loop {
        let (line, after) = next_part(rest, b'\n');
        let Some(after) = after else {
            return at_end(script, n, line);
        };
        let line = read_line(alloc, tasks, &mut edited, n, line)?;
        script.push(line)?;
        rest = after;
        n += 1;
    }
}

// The script, where nothing stands after the last line feed.
fn at_end(script: Script, n: usize, left: &[u8]) -> Result<Script, ScriptFault>
    ensures { result ≡ end_of script n left.now }
{
    if left.is_empty() {
        Ok(script)
    } else {
        Err(ScriptFault::BadLine(n))
    }
}
