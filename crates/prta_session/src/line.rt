//! A line that is tried on the sheet as the lines before leave it.

ghost use Rattle.std.specs.Prelude.{◌≡◌, ◌<◌, length, IfOk};
ghost use Rattle.prta_session.specs.Script.{after_line};
ghost use Rattle.prta_session.specs.Reading.{IsEditOf, IsChangeMade, IsLineRead};

use crate::fault::ScriptFault;
use crate::said::{Part, Said, read_said};
use crate::script::Line;
use prta_mass::{NoMemory, TableFault, TimeTable};
use prta_sheet::{Edit, Sheet, Task};
use std::alloc::Global;

// Reads line n, and makes its edit on the sheet.
pub(crate) fn read_line(
    alloc: Global,
    tasks: &[Task],
    sheet: &mut Sheet,
    n: usize,
    line: &[u8],
) -> Result<Line, ScriptFault>
    requires { length tasks.now ≡ length sheet.old.tasks }
    ensures read { IsLineRead tasks.now n sheet.old line.now result }
    ensures made { IfOk result (λ line. sheet.new ≡ after_line line sheet.old) }
{
    match read_said(alloc, tasks, line) {
        Ok(Some(Said::Print)) => Ok(Line::Print),
        Ok(
            Some(
                Said::Change {
                    task: Some(task),
                    part,
                },
            ),
        ) => make_change(alloc, sheet, n, task, part),
        Ok(Some(Said::Change { task: None, .. })) => Err(ScriptFault::UnknownTask(n)),
        Ok(None) => Err(ScriptFault::BadLine(n)),
        Err(NoMemory) => Err(ScriptFault::NoMemory),
    }
}

// The change of line n, made on the sheet.
fn make_change(
    alloc: Global,
    sheet: &mut Sheet,
    n: usize,
    task: usize,
    part: Part,
) -> Result<Line, ScriptFault>
    requires { task < length sheet.old.tasks }
    ensures line { IsChangeMade n sheet.old task part result }
    ensures made { IfOk result (λ line. sheet.new ≡ after_line line sheet.old) }
{
    let edit = edit_of(alloc, n, task, part)?;
    let copy = copy_of(alloc, &edit)?;
    match sheet.edit(copy) {
        Ok(()) => Ok(Line::Change(edit)),
        Err(_) => Err(ScriptFault::BadEdit(n)),
    }
}

// The edit that a change is, where its pairs make a table.
fn edit_of(alloc: Global, n: usize, task: usize, part: Part) -> Result<Edit, ScriptFault>
    ensures { IsEditOf n task part result }
{
    match part {
        Part::Table { index, pairs } => match TimeTable::new(alloc, pairs.list()) {
            Ok(table) => Ok(Edit::Table { task, index, table }),
            Err(TableFault::NoMemory) => Err(ScriptFault::NoMemory),
            Err(_) => Err(ScriptFault::BadTable(n)),
        },
        Part::Deadline { value } => Ok(Edit::Deadline { task, value }),
        Part::Allow { p, q } => Ok(Edit::Allow { task, p, q }),
    }
}

// An equal edit.
fn copy_of(alloc: Global, edit: &Edit) -> Result<Edit, NoMemory>
    ensures { IfOk result (λ copy. copy ≡ edit.now) }
{
    match edit {
        Edit::Table { task, index, table } => Ok(Edit::Table {
            task: *task,
            index: *index,
            table: table.copy(alloc)?,
        }),
        Edit::Deadline { task, value } => Ok(Edit::Deadline {
            task: *task,
            value: *value,
        }),
        Edit::Allow { task, p, q } => Ok(Edit::Allow {
            task: *task,
            p: *p,
            q: *q,
        }),
    }
}
