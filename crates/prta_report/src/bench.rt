//! The lines on how much an analysis of a whole sheet is.

ghost use Rattle.std.specs.Prelude.{◌≡◌, ◌+◌, ◌≤◌, ◌++◌, length};
ghost use Rattle.prta_report.specs.Text.{size_line, sums_line};

use crate::number::{push_number, push_sum};
use crate::page::{LINE, Page};

/// Appends how many tasks and analysed jobs there are, how many entries all tasks have, and for how many levels a list is
/// found.
pub fn size_line(page: &mut Page, tasks: u64, jobs: u64, entries: u128, certified: u64)
    requires room { LINE ≤ page.old.spare }
    ensures written { page.new.written ≡ page.old.written ++ size_line tasks jobs entries certified }
    ensures room { page.old.spare ≤ page.new.spare + LINE }
    ensures size { length page.new.written + page.new.spare ≡ length page.old.written + page.old.spare }
{
    page.push(b"tasks ");
    push_number(page, tasks);
    page.push(b" jobs ");
    push_number(page, jobs);
    page.push(b" entries ");
    push_sum(page, entries);
    page.push(b" certified ");
    push_number(page, certified);
    page.push(b"\n");
}

/// Appends the sums of all lower and of all upper numbers, in units of 2^-60.
pub fn sums_line(page: &mut Page, lower: u128, upper: u128)
    requires room { LINE ≤ page.old.spare }
    ensures written { page.new.written ≡ page.old.written ++ sums_line lower upper }
    ensures room { page.old.spare ≤ page.new.spare + LINE }
    ensures size { length page.new.written + page.new.spare ≡ length page.old.written + page.old.spare }
{
    page.push(b"lower ");
    push_sum(page, lower);
    page.push(b" upper ");
    push_sum(page, upper);
    page.push(b"\n");
}
