//! The lines on certificates and on steady numbers.

ghost use Rattle.std.specs.Prelude.{◌≡◌, ◌+◌, ◌<◌, ◌≤◌, ◌++◌, length, codes};
ghost use Rattle.prta_mass.specs.Unit.{unit};
ghost use Rattle.prta_sheet.specs.Sheet.{task_at};
ghost use Rattle.prta_certfile.specs.Text.{level_head, pair_text, overfull_text, beyond_text};
ghost use Rattle.prta_report.specs.Text.{certified_line, uncertified_line, steady_line, broken_line};

use crate::analysis::push_upper;
use crate::number::push_number;
use crate::page::{LINE, Page};
use prta_dist::Break;
use prta_sheet::Sheet;

/// Appends how the line of a level with a list begins, without a line feed.
pub fn level_head(page: &mut Page, sheet: &Sheet, task: usize)
    requires room { LINE ≤ page.old.spare }
    requires task { task < length sheet.now.tasks }
    ensures written { page.new.written ≡ page.old.written ++ level_head (task_at sheet.now.tasks task).name }
    ensures room { page.old.spare ≤ page.new.spare + LINE }
    ensures size { length page.new.written + page.new.spare ≡ length page.old.written + page.old.spare }
{
    push_head(page, sheet.tasks()[task].name());
}

#[tactic(auto, unfolding(prta_certfile::specs::Text::level_head))]
fn push_head(page: &mut Page, name: &str)
    requires room { LINE ≤ page.old.spare }
    requires name { length name.now ≤ 24 }
    ensures written { page.new.written ≡ page.old.written ++ level_head name.now }
    ensures room { page.old.spare ≤ page.new.spare + LINE }
    ensures size { length page.new.written + page.new.spare ≡ length page.old.written + page.old.spare }
{
    page.push(b"level ");
    page.push(name.as_bytes());
}

/// Appends a place where a list rises, with the list's value there in units of 2^-60.
#[tactic(auto, unfolding(prta_certfile::specs::Text::pair_text))]
pub fn pair_text(page: &mut Page, place: u32, value: u64)
    requires room { LINE ≤ page.old.spare }
    ensures written { page.new.written ≡ page.old.written ++ pair_text (place, value) }
    ensures room { page.old.spare ≤ page.new.spare + LINE }
    ensures size { length page.new.written + page.new.spare ≡ length page.old.written + page.old.spare }
{
    page.push(b" ");
    push_number(page, place as u64);
    page.push(b":");
    push_number(page, value);
}

/// Appends the line of a level whose greatest work is above the hyperperiod, both in ticks.
pub fn overfull_line(page: &mut Page, sheet: &Sheet, task: usize, work: u64, hyperperiod: u64)
    requires room { LINE ≤ page.old.spare }
    requires task { task < length sheet.now.tasks }
    ensures written { page.new.written ≡ page.old.written ++ (overfull_text (task_at sheet.now.tasks task).name work hyperperiod ++ codes "\n") }
    ensures room { page.old.spare ≤ page.new.spare + LINE }
    ensures size { length page.new.written + page.new.spare ≡ length page.old.written + page.old.spare }
{
    push_overfull(page, sheet.tasks()[task].name(), work, hyperperiod);
}

#[tactic(auto, unfolding(prta_certfile::specs::Text::overfull_text))]
fn push_overfull(page: &mut Page, name: &str, work: u64, hyperperiod: u64)
    requires room { LINE ≤ page.old.spare }
    requires name { length name.now ≤ 24 }
    ensures written { page.new.written ≡ page.old.written ++ (overfull_text name.now work hyperperiod ++ codes "\n") }
    ensures room { page.old.spare ≤ page.new.spare + LINE }
    ensures size { length page.new.written + page.new.spare ≡ length page.old.written + page.old.spare }
{
    page.push(b"none ");
    page.push(name.as_bytes());
    page.push(b" overfull ");
    push_number(page, work);
    page.push(b" ");
    push_number(page, hyperperiod);
    page.push(b"\n");
}

/// Appends the line of a level whose peak, in ticks, isn't below the cap.
pub fn beyond_line(page: &mut Page, sheet: &Sheet, task: usize, peak: u64)
    requires room { LINE ≤ page.old.spare }
    requires task { task < length sheet.now.tasks }
    ensures written { page.new.written ≡ page.old.written ++ (beyond_text (task_at sheet.now.tasks task).name peak ++ codes "\n") }
    ensures room { page.old.spare ≤ page.new.spare + LINE }
    ensures size { length page.new.written + page.new.spare ≡ length page.old.written + page.old.spare }
{
    push_beyond(page, sheet.tasks()[task].name(), peak);
}

#[tactic(auto, unfolding(prta_certfile::specs::Text::beyond_text))]
fn push_beyond(page: &mut Page, name: &str, peak: u64)
    requires room { LINE ≤ page.old.spare }
    requires name { length name.now ≤ 24 }
    ensures written { page.new.written ≡ page.old.written ++ (beyond_text name.now peak ++ codes "\n") }
    ensures room { page.old.spare ≤ page.new.spare + LINE }
    ensures size { length page.new.written + page.new.spare ≡ length page.old.written + page.old.spare }
{
    page.push(b"none ");
    page.push(name.as_bytes());
    page.push(b" beyondcap ");
    push_number(page, peak);
    page.push(b"\n");
}

/// Appends the line of a level whose list certifies it.
pub fn certified_line(page: &mut Page, sheet: &Sheet, task: usize)
    requires room { LINE ≤ page.old.spare }
    requires task { task < length sheet.now.tasks }
    ensures written { page.new.written ≡ page.old.written ++ certified_line (task_at sheet.now.tasks task).name }
    ensures room { page.old.spare ≤ page.new.spare + LINE }
    ensures size { length page.new.written + page.new.spare ≡ length page.old.written + page.old.spare }
{
    push_certified(page, sheet.tasks()[task].name());
}

#[tactic(auto, unfolding(crate::specs::Text::certified_line))]
fn push_certified(page: &mut Page, name: &str)
    requires room { LINE ≤ page.old.spare }
    requires name { length name.now ≤ 24 }
    ensures written { page.new.written ≡ page.old.written ++ certified_line name.now }
    ensures room { page.old.spare ≤ page.new.spare + LINE }
    ensures size { length page.new.written + page.new.spare ≡ length page.old.written + page.old.spare }
{
    page.push(b"level ");
    page.push(name.as_bytes());
    page.push(b" certified\n");
}

/// Appends the line of a level for which a certificate states no list.
pub fn uncertified_line(page: &mut Page, sheet: &Sheet, task: usize)
    requires room { LINE ≤ page.old.spare }
    requires task { task < length sheet.now.tasks }
    ensures written { page.new.written ≡ page.old.written ++ uncertified_line (task_at sheet.now.tasks task).name }
    ensures room { page.old.spare ≤ page.new.spare + LINE }
    ensures size { length page.new.written + page.new.spare ≡ length page.old.written + page.old.spare }
{
    push_uncertified(page, sheet.tasks()[task].name());
}

#[tactic(auto, unfolding(crate::specs::Text::uncertified_line))]
fn push_uncertified(page: &mut Page, name: &str)
    requires room { LINE ≤ page.old.spare }
    requires name { length name.now ≤ 24 }
    ensures written { page.new.written ≡ page.old.written ++ uncertified_line name.now }
    ensures room { page.old.spare ≤ page.new.spare + LINE }
    ensures size { length page.new.written + page.new.spare ≡ length page.old.written + page.old.spare }
{
    page.push(b"uncertified ");
    page.push(name.as_bytes());
    page.push(b"\n");
}

/// Appends the line of the task's job of this number in every hyperperiod, with its steady number in units of 2^-60: as a
/// decimal it is rounded up.
pub fn steady_line(page: &mut Page, sheet: &Sheet, task: usize, number: u32, upper: u64)
    requires room { LINE ≤ page.old.spare }
    requires task { task < length sheet.now.tasks }
    requires upper { upper ≤ unit }
    ensures written { page.new.written ≡ page.old.written ++ steady_line (task_at sheet.now.tasks task).name number upper }
    ensures room { page.old.spare ≤ page.new.spare + LINE }
    ensures size { length page.new.written + page.new.spare ≡ length page.old.written + page.old.spare }
{
    push_steady(page, sheet.tasks()[task].name(), number, upper);
}

#[tactic(auto, unfolding(crate::specs::Text::steady_line))]
fn push_steady(page: &mut Page, name: &str, number: u32, upper: u64)
    requires room { LINE ≤ page.old.spare }
    requires name { length name.now ≤ 24 }
    requires upper { upper ≤ unit }
    ensures written { page.new.written ≡ page.old.written ++ steady_line name.now number upper }
    ensures room { page.old.spare ≤ page.new.spare + LINE }
    ensures size { length page.new.written + page.new.spare ≡ length page.old.written + page.old.spare }
{
    page.push(b"steady ");
    page.push(name.as_bytes());
    page.push(b" ");
    push_number(page, number as u64);
    push_upper(page, upper);
    page.push(b"\n");
}

/// Appends the line of a level whose list doesn't certify it: the first place where the list's image is below it, with both
/// cells in units of 2^-60.
pub fn broken_line(page: &mut Page, sheet: &Sheet, task: usize, broken: Break)
    requires room { LINE ≤ page.old.spare }
    requires task { task < length sheet.now.tasks }
    ensures written { page.new.written ≡ page.old.written ++ broken_line (task_at sheet.now.tasks task).name broken }
    ensures room { page.old.spare ≤ page.new.spare + LINE }
    ensures size { length page.new.written + page.new.spare ≡ length page.old.written + page.old.spare }
{
    push_broken(page, sheet.tasks()[task].name(), broken);
}

#[tactic(auto, unfolding(crate::specs::Text::broken_line))]
fn push_broken(page: &mut Page, name: &str, broken: Break)
    requires room { LINE ≤ page.old.spare }
    requires name { length name.now ≤ 24 }
    ensures written { page.new.written ≡ page.old.written ++ broken_line name.now broken }
    ensures room { page.old.spare ≤ page.new.spare + LINE }
    ensures size { length page.new.written + page.new.spare ≡ length page.old.written + page.old.spare }
{
    page.push(b"broken ");
    page.push(name.as_bytes());
    page.push(b" ");
    push_number(page, broken.place as u64);
    page.push(b" ");
    push_number(page, broken.had);
    page.push(b" ");
    push_number(page, broken.got);
    page.push(b"\n");
}
