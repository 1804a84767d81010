//! The line of a geometric tail.

ghost use Rattle.std.specs.Prelude.{◌≡◌, ◌+◌, ◌<◌, ◌≤◌, ◌++◌, length};
ghost use Rattle.prta_sheet.specs.Sheet.{task_at};
ghost use Rattle.prta_report.specs.Text.{tail_line};

use crate::number::push_number;
use crate::page::{LINE, Page};
use prta_sheet::Sheet;
use prta_tail::Ratio;

/// Appends the line of a level whose backlog has a geometric tail: its ratio, and the worst-case backlog, in ticks, from
/// which the tail falls.
pub fn tail_line(page: &mut Page, sheet: &Sheet, task: usize, ratio: Ratio, worst: u64)
    requires room { LINE ≤ page.old.spare }
    requires task { task < length sheet.now.tasks }
    ensures written { page.new.written ≡ page.old.written ++ tail_line (task_at sheet.now.tasks task).name ratio worst }
    ensures room { page.old.spare ≤ page.new.spare + LINE }
    ensures size { length page.new.written + page.new.spare ≡ length page.old.written + page.old.spare }
{
    push_tail(page, sheet.tasks()[task].name(), ratio, worst);
}

#[tactic(auto, unfolding(crate::specs::Text::tail_line))]
fn push_tail(page: &mut Page, name: &str, ratio: Ratio, worst: u64)
    requires room { LINE ≤ page.old.spare }
    requires name { length name.now ≤ 24 }
    ensures written { page.new.written ≡ page.old.written ++ tail_line name.now ratio worst }
    ensures room { page.old.spare ≤ page.new.spare + LINE }
    ensures size { length page.new.written + page.new.spare ≡ length page.old.written + page.old.spare }
{
    page.push(b"tail ");
    page.push(name.as_bytes());
    page.push(b" ");
    push_number(page, ratio.p as u64);
    page.push(b" ");
    push_number(page, ratio.q as u64);
    page.push(b" ");
    push_number(page, worst);
    page.push(b"\n");
}
