//! The fields of a record.

ghost use Rattle.std.specs.Prelude.{◌≡◌, ◌&&◌, option_map, bytes_eq, codes};
ghost use Rattle.csv.specs.Records.{fields_of};
ghost use Rattle.prta_times.specs.Counts.{is_header};
ghost use Rattle.prta_times.specs.Parts.{three_of};

use csv::ByteRecord;

// The fields of a record of three.
pub(crate) fn three_fields(row: &ByteRecord) -> Option<(&[u8], &[u8], &[u8])>
    ensures { option_map (λ fields. (fields.0.now, fields.1.now, fields.2.now)) result ≡ three_of (fields_of row.now) }
{
    let Some(first) = row.get(0) else {
        return None;
    };
    let Some(second) = row.get(1) else {
        return None;
    };
    let Some(third) = row.get(2) else {
        return None;
    };
    if row.len() != 3 {
        return None;
    }
    Some((first, second, third))
}

// The record is the header.
pub(crate) fn is_header(row: &ByteRecord) -> bool
    ensures { result ≡ is_header (fields_of row.now) }
{
    match three_fields(row) {
        Some((task, time, weight)) => are_titles(task, time, weight),
        None => false,
    }
}

fn are_titles(task: &[u8], time: &[u8], weight: &[u8]) -> bool
    ensures { result ≡ (bytes_eq task.now (codes "task") && (bytes_eq time.now (codes "time") && bytes_eq weight.now (codes "weight"))) }
{
    task == b"task".as_slice() && (time == b"time".as_slice() && weight == b"weight".as_slice())
}
