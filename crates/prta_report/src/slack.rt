//! The line of a task's slack.

ghost use Rattle.std.specs.Prelude.{◌≡◌, ◌+◌, ◌<◌, ◌≤◌, ◌++◌, length};
ghost use Rattle.prta_report.specs.Text.{ticks_line as line_of_ticks};
ghost use Rattle.prta_report.specs.Slacks.{line_of_slack, IsListed};

use crate::analysis::fails_line;
use crate::number::push_number;
use crate::page::{LINE, Page};
use prta_sheet::Sheet;
use prta_slack::Slack;

/// Appends the line of the slack of a task: how many ticks may be added to each of its times, or the job that already fails.
pub fn slack_line(page: &mut Page, sheet: &Sheet, task: usize, slack: Slack)
    requires room { LINE ≤ page.old.spare }
    requires task { task < length sheet.now.tasks }
    requires listed { IsListed (length sheet.now.tasks) slack }
    ensures written { page.new.written ≡ page.old.written ++ line_of_slack sheet.now task slack }
    ensures room { page.old.spare ≤ page.new.spare + LINE }
    ensures size { length page.new.written + page.new.spare ≡ length page.old.written + page.old.spare }
{
    let name = sheet.tasks()[task].name();
    match slack {
        Slack::Fails {
            task,
            number,
            upper,
        } => fails_line(page, sheet, task, number, upper),
        Slack::Ticks(ticks) => ticks_line(page, "slack", name, ticks),
        Slack::All(ticks) => ticks_line(page, "all", name, ticks),
    }
}

#[tactic(auto, unfolding(crate::specs::Text::ticks_line))]
fn ticks_line(page: &mut Page, word: &str, name: &str, ticks: u32)
    requires room { LINE ≤ page.old.spare }
    requires word { length word.now ≤ 8 }
    requires name { length name.now ≤ 24 }
    ensures written { page.new.written ≡ page.old.written ++ line_of_ticks word.now name.now ticks }
    ensures room { page.old.spare ≤ page.new.spare + LINE }
    ensures size { length page.new.written + page.new.spare ≡ length page.old.written + page.old.spare }
{
    page.push(word.as_bytes());
    page.push(b" ");
    page.push(name.as_bytes());
    page.push(b" ");
    push_number(page, ticks as u64);
    page.push(b"\n");
}
