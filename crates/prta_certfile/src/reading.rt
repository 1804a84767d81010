//! The reading of a certificate.

ghost use Rattle.std.specs.Prelude.{◌≡◌, ◌≤◌, length, Err, IfOk};
ghost use Rattle.prta_certfile.specs.Reading.{first_line, in_line, end_fault as fault_at_end, IsReading};
ghost use Rattle.prta_certfile.specs.Parts.{AreLinesRead};
ghost use Rattle.prta_certfile.specs.Laws.{AreLevels, IsPrefixAnswer};
ghost use Rattle.prta_certfile.specs.Text.{cert_text};

use crate::certificate::Certificate;
use crate::cut::cut;
use crate::fault::CertFault;
use crate::laws::{prefixes_are_refused, read_texts_are_printed};
use crate::limits::CERT_LIMIT;
use crate::line::read_line;
use prta_sheet::{Sheet, Task};
use std::alloc::Global;

/// Reads the text of a certificate of the sheet, and no other spelling. What is read has one level for each task;
/// its steps lie below the sheet's cap and are whole; its text is just these bytes. Bytes that were cut off are refused
/// at the line where they end.
pub fn read_cert(alloc: Global, sheet: &Sheet, bytes: &[u8]) -> Result<Certificate, CertFault>
    ensures reading { IsReading sheet.now.tasks sheet.now.settings.cap bytes.now result }
    ensures levels { IfOk result (AreLevels sheet.now.tasks sheet.now.settings.cap) }
    ensures printed { IfOk result (λ levels. cert_text sheet.now.tasks levels ≡ bytes.now) }
    ensures prefix { IsPrefixAnswer sheet.now.tasks sheet.now.settings.cap bytes.now result }
    ensures memory { result ≡ Err CertFault.NoMemory → length bytes.now ≤ CERT_LIMIT }
{
    read_texts_are_printed();
    prefixes_are_refused();
    read_levels(alloc, sheet, bytes)
}

fn read_levels(alloc: Global, sheet: &Sheet, bytes: &[u8]) -> Result<Certificate, CertFault>
    ensures reading { IsReading sheet.now.tasks sheet.now.settings.cap bytes.now result }
    ensures memory { result ≡ Err CertFault.NoMemory → length bytes.now ≤ CERT_LIMIT }
{
    if bytes.len() > CERT_LIMIT {
        return Err(CertFault::TooLong);
    }
    let Some((title, rest)) = cut(bytes, b'\n') else {
        return Err(CertFault::BadLine(1));
    };
    if title != b"prta certificate 1".as_slice() {
        return Err(CertFault::BadLine(1));
    }
    read_lines(alloc, sheet.tasks(), sheet.cap(), rest)
}

// The levels of the lines after the title.
fn read_lines(
    alloc: Global,
    tasks: &[Task],
    cap: usize,
    bytes: &[u8],
) -> Result<Certificate, CertFault>
    requires { length tasks.now ≤ 12 }
    ensures { AreLinesRead tasks.now cap bytes.now result }
{
    let mut cert = Certificate::new(alloc);
    let mut rest = bytes;
    let mut n = 2;
    for task in tasks {
        let Some((line, after)) = cut(rest, b'\n') else {
            return Err(CertFault::BadLine(n));
        };
        let level = read_line(alloc, task.name().as_bytes(), cap, n, line)?;
        cert.push(level)?;
        rest = after;
        n += 1;
    }
    match end_fault(rest, n) {
        Some(fault) => Err(fault),
        None => Ok(cert),
    }
}

// What is wrong with the end, which is line n.
fn end_fault(bytes: &[u8], n: usize) -> Option<CertFault>
    requires { n ≤ 14 }
    ensures { result ≡ in_line n (fault_at_end n) (first_line bytes.now) }
{
    let Some((line, rest)) = cut(bytes, b'\n') else {
        return Some(CertFault::BadLine(n));
    };
    if line != b"end".as_slice() {
        return Some(CertFault::BadLine(n));
    }
    if !rest.is_empty() {
        return Some(CertFault::BadLine(n + 1));
    }
    None
}
