//! Certificates of a sheet with one task, in the form in which they are printed and read.

use super::*;
use prta_mass::{TimeTable, UNIT};
use prta_sheet::{Settings, Sheet, Task, make_sheet};
use std::alloc::Global;
use std::process::Abort;
use std::test::Fail;

// The task A, of period 4, that takes 1 tick with 3 of 4 and else 4.
fn sheet(alloc: Global) -> Result<Sheet, Fail> {
    let mut cycle = Vec::new(alloc);
    cycle.push(TimeTable::new(alloc, &[(1, 3), (4, 1)])?)?;
    let mut tasks = Vec::new(alloc);
    tasks.push(Task::new(alloc, "A", 2, 4, 3, cycle, (0, 1))?)?;
    let settings = Settings {
        cap: 2048,
        hyperperiods: 1,
        turns: 16,
        support: None,
    };
    Ok(make_sheet(settings, tasks)?)
}

static READ: [&[u8]; 4] = [
    b"prta certificate 1\nlevel A 0:864691128455135232 2:1152921504606846976\nend\n",
    b"prta certificate 1\nlevel A 2047:1152921504606846976\nend\n",
    b"prta certificate 1\nnone A overfull 12 4\nend\n",
    b"prta certificate 1\nnone A beyondcap 18446744073709551615\nend\n",
];

#[test]
fn texts_are_read_and_printed(rt: HostRuntime) -> Result<(), Fail> {
    let sheet = sheet(rt.alloc())?;
    for bytes in READ.iter() {
        let cert = read_cert(rt.alloc(), &sheet, bytes)?;
        assert!(rt; cert.levels().len() == sheet.tasks().len());
        let text = cert_text(rt.alloc(), &sheet, &cert)?;
        assert!(rt; text.as_slice() == *bytes, "{bytes:?}");
    }
    Ok(())
}

#[test]
fn steps_are_pushed(rt: HostRuntime) -> Result<(), Fail> {
    let mut steps = StepList::new(rt.alloc());
    steps.push(3, UNIT)?;
    assert!(rt; steps.points() == [(3, UNIT)].as_slice());
    let mut cert = Certificate::new(rt.alloc());
    cert.push(CertLevel::Steps(steps))?;
    assert!(rt; cert.levels().len() == 1);
    Ok(())
}

static REFUSED: [(&[u8], CertFault); 19] = [
    (b"", CertFault::BadLine(1)),
    (b"prta certificate 2\n", CertFault::BadLine(1)),
    (
        b"prta certificate 1\r\nnone A overfull 12 4\r\nend\r\n",
        CertFault::BadLine(1),
    ),
    (b"prta certificate 1\nend\n", CertFault::BadLine(2)),
    (b"prta certificate 1\nlevel A\nend\n", CertFault::BadLine(2)),
    (
        b"prta certificate 1\nlevel A 00:1152921504606846976\nend\n",
        CertFault::BadLine(2),
    ),
    (
        b"prta certificate 1\nlevel A 0:1152921504606846977\nend\n",
        CertFault::BadLine(2),
    ),
    (
        b"prta certificate 1\nlevel A 4294967296:1152921504606846976\nend\n",
        CertFault::BadLine(2),
    ),
    (
        b"prta certificate 1\nlevel B 0:0 2:x\nend\n",
        CertFault::BadLine(2),
    ),
    (
        b"prta certificate 1\nlevel A 0:1152921504606846976 \nend\n",
        CertFault::BadLine(2),
    ),
    (
        b"prta certificate 1\nnone A overfull 12 04\nend\n",
        CertFault::BadLine(2),
    ),
    (
        b"prta certificate 1\nnone A beyondcap 18446744073709551616\nend\n",
        CertFault::BadLine(2),
    ),
    (
        b"prta certificate 1\nlevel B 0:0\nend\n",
        CertFault::WrongTask(2),
    ),
    (
        b"prta certificate 1\nlevel A 0:0 2:1152921504606846976\nend\n",
        CertFault::NotIncreasing(2),
    ),
    (
        b"prta certificate 1\nlevel A 2048:1152921504606846976\nend\n",
        CertFault::PlaceTooLarge(2),
    ),
    (
        b"prta certificate 1\nlevel A 0:1152921504606846975\nend\n",
        CertFault::NotWhole(2),
    ),
    (
        b"prta certificate 1\nnone A overfull 12 4\nnone A overfull 12 4\nend\n",
        CertFault::BadLine(3),
    ),
    (
        b"prta certificate 1\nnone A overfull 12 4\nend",
        CertFault::BadLine(3),
    ),
    (
        b"prta certificate 1\nnone A overfull 12 4\nend\nend\n",
        CertFault::BadLine(4),
    ),
];

#[test]
fn damaged_texts_are_refused(rt: HostRuntime) -> Result<(), Fail> {
    let sheet = sheet(rt.alloc())?;
    for (bytes, want) in REFUSED.iter() {
        match read_cert(rt.alloc(), &sheet, bytes) {
            Ok(_) => assert!(rt; false, "{bytes:?}"),
            Err(fault) => assert!(rt; fault == *want, "{bytes:?}"),
        }
    }
    Ok(())
}
