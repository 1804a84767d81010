//! Whole numbers on a page.

ghost use Rattle.std.specs.Prelude.{◌≡◌, ◌+◌, ◌≤◌, ◌++◌, length, decimal};

use crate::page::Page;
use itoa::Buffer;

/// Appends a whole number in decimal: at most 20 bytes.
pub fn push_number(page: &mut Page, n: u64)
    requires { 20 ≤ page.old.spare }
    ensures written { page.new.written ≡ page.old.written ++ decimal n }
    ensures room { page.old.spare ≤ page.new.spare + 20 }
    ensures size { length page.new.written + page.new.spare ≡ length page.old.written + page.old.spare }
{
    let mut buffer = Buffer::new();
    page.push(buffer.format(n).as_bytes());
}

// Appends a sum in decimal: at most 40 bytes.
pub(crate) fn push_sum(page: &mut Page, sum: u128)
    requires { 40 ≤ page.old.spare }
    ensures written { page.new.written ≡ page.old.written ++ decimal sum }
    ensures room { page.old.spare ≤ page.new.spare + 40 }
    ensures size { length page.new.written + page.new.spare ≡ length page.old.written + page.old.spare }
{
    let mut buffer = Buffer::new();
    page.push(buffer.format(sum).as_bytes());
}
