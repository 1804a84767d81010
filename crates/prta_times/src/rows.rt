//! The counts of a file, by its rows.

ghost use Rattle.std.specs.Prelude.{◌≡◌, ◌≢◌, IsOk, IfOk, IfErr, Some, None, map, option_map};
ghost use Rattle.csv.specs.Records.{fields_of};
ghost use Rattle.prta_times.specs.Counts.{records_in, counts_in as counts_of_file, bad_row, rows_fault};
ghost use Rattle.prta_times.specs.Parts.{counts_among};

use crate::count::{Count, count_in};
use crate::fault::CountsFault;
use crate::fields::is_header;
use crate::records::records_in;
use csv::ByteRecord;
use std::alloc::Global;

// The counts of a file, or what is wrong with its rows.
pub(crate) fn counts_in(alloc: Global, bytes: &[u8]) -> Result<Vec<Count>, CountsFault>
    ensures counts { IfOk result (λ counts. counts.items ≡ counts_of_file bytes.now) }
    ensures accepted { IsOk result → rows_fault (records_in bytes.now) ≡ None }
    ensures refused { IfErr result (λ fault. fault ≢ CountsFault.NoMemory → rows_fault (records_in bytes.now) ≡ Some fault) }
{
    let rows = records_in(alloc, bytes)?;
    if rows.is_empty() || !is_header(&rows[0]) {
        return Err(CountsFault::BadHeader);
    }
    counts_of(alloc, &rows[1..])
}

// The counts of the records after the header, or the first of these that gives none.
fn counts_of(alloc: Global, rows: &[ByteRecord]) -> Result<Vec<Count>, CountsFault>
    ensures counts { IfOk result (λ counts. counts.items ≡ counts_among (map fields_of rows.now)) }
    ensures accepted { IsOk result → bad_row (map fields_of rows.now) ≡ None }
    ensures refused { IfErr result (λ fault. fault ≢ CountsFault.NoMemory → option_map CountsFault.BadRow (bad_row (map fields_of rows.now)) ≡ Some fault) }
{
    let mut counts = Vec::new(alloc);
    for i in 0..rows.len() {
        match count_in(alloc, &rows[i])? {
            Some(count) => counts.push(count)?,
            None => return Err(CountsFault::BadRow(i + 1)),
        }
    }
    Ok(counts)
}
