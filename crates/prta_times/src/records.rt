//! The records of a file.

ghost use Rattle.std.specs.Prelude.{◌≡◌, IfOk, map};
ghost use Rattle.csv.specs.Records.{fields_of};
ghost use Rattle.prta_times.specs.Counts.{records_in};

use csv::{ByteRecord, ErrorKind, ReaderBuilder};
use prta_mass::NoMemory;
use std::alloc::Global;

// The records that `csv` defines for the bytes. The bytes stand in memory, so a read fails only for want of memory.
pub(crate) fn records_in(alloc: Global, bytes: &[u8]) -> Result<Vec<ByteRecord>, NoMemory>
    ensures { IfOk result (λ rows. map fields_of rows.items ≡ records_in bytes.now) }
{
    let reader = ReaderBuilder::new()
        .has_headers(false)
        .flexible(true)
        .from_reader(alloc, bytes);
    let mut rows = Vec::new(alloc);
    for row in reader.into_byte_records() {
        match row {
            Ok(row) => rows.push(row)?,
            Err(error) => match error.kind() {
                ErrorKind::OutOfMemory | ErrorKind::Io(_) => return Err(NoMemory),
                _ => unreachable!(),
            },
        }
    }
    Ok(rows)
}
