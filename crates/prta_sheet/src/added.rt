//! Tasks with ticks added to each time.

ghost use Rattle.std.specs.Prelude.{◌≡◌, ◌+◌, ◌<◌, ◌^◌, [], ℕ, max, length, map, fold, slice_index_or, All};
ghost use Rattle.prta_mass.specs.Table.{greatest};
ghost use Rattle.prta_mass.specs.Added.{with_added, IsWithAdded};
ghost use Rattle.prta_sheet.specs.Added.{AddedSheets};
ghost use Rattle.prta_sheet.specs.WorkedAdded.{WorkedAdded};

use prta_mass::TimeTable;

// Writes the base's tables, with s ticks added to each time, over tables that are these with some number added.
pub(crate) fn put_added(tables: &mut [TimeTable], base: &[TimeTable], s: u32)
    requires as_many { length tables.old ≡ length base.now }
    requires same { (k : ℕ) → k < length base.now → IsWithAdded (slice_index_or base.now k []) (slice_index_or tables.old k []) }
    requires within { All (λ table. greatest table + s < 2 ^ 32) base.now }
    ensures { tables.new ≡ map (λ table. with_added table s) base.now }
{
    for i in 0..tables.len() {
        tables[i].set_added(&base[i], s);
    }
}

// The greatest time of all tables.
pub(crate) fn greatest_of(tables: &[TimeTable]) -> u32
    ensures { result ≡ fold (λ most table. max most (greatest table)) 0 tables.now }
{
    let mut most = 0;
    for table in tables {
        most = most.max(table.greatest());
    }
    most
}

/// What ticks that are added to a task within its room leave as it is.
pub fn added_sheets()
    ensures { AddedSheets }
{}

/// A worked sheet with ticks added to a task.
pub fn worked_added_sheet()
    ensures { WorkedAdded }
{}
