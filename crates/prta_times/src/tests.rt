//! Files of counts, with the sheets that they make and the faults that refuse them.

use super::*;
use prta_mass::TimeTable;
use prta_sheet::{Settings, Sheet, Task, make_sheet, sheet_text};
use std::alloc::Global;
use std::test::Fail;

// A task of period 10 with these times.
fn task(alloc: Global, name: &str, times: &[(u32, u64)]) -> Result<Task, Fail> {
    let mut cycle = Vec::new(alloc);
    cycle.push(TimeTable::new(alloc, times)?)?;
    Ok(Task::new(alloc, name, 0, 10, 5, cycle, (0, 1))?)
}

// The tasks A and B with these times.
fn sheet(alloc: Global, first: &[(u32, u64)], second: &[(u32, u64)]) -> Result<Sheet, Fail> {
    let mut tasks = Vec::new(alloc);
    tasks.push(task(alloc, "A", first)?)?;
    tasks.push(task(alloc, "B", second)?)?;
    let settings = Settings {
        cap: 2048,
        hyperperiods: 1,
        turns: 16,
        support: None,
    };
    Ok(make_sheet(settings, tasks)?)
}

// Files, and the times that A gets from them.
static READ: [(&[u8], &[(u32, u64)]); 7] = [
    (
        b"task,time,weight\nA,3,2\nA,7,1\nA,3,1\n",
        &[(3, 3), (7, 1)],
    ),
    (b"task,time,weight\nA,7,1\nA,3,3", &[(3, 3), (7, 1)]),
    (b"\"task\",time,weight\n\"A\",\"3\",\"1\"\n", &[(3, 1)]),
    (b"\n\ntask,time,weight\r\n\r\nA,3,1\r\n\n", &[(3, 1)]),
    (
        b"\xEF\xBB\xBFtask,time,weight\nA,1000000,281474976710656\n",
        &[(1_000_000, 281_474_976_710_656)],
    ),
    (b"task,time,weight\n", &[(1, 1), (2, 1)]),
    (b"task,time,weight\nB,4,1\nB,4,4\n", &[(1, 1), (2, 1)]),
];

#[test]
fn files_make_sheets(rt: HostRuntime) -> Result<(), Fail> {
    let alloc = rt.alloc();
    let before = sheet(alloc, &[(1, 1), (2, 1)], &[(4, 5)])?;
    for (bytes, times) in READ.iter() {
        let made = read_counts(alloc, &before, bytes)?;
        let want = sheet(alloc, times, &[(4, 5)])?;
        let text = sheet_text(alloc, &made)?;
        let wanted = sheet_text(alloc, &want)?;
        assert!(rt; text.as_slice() == wanted.as_slice(), "{bytes:?}");
    }
    Ok(())
}

static REFUSED: [(&[u8], CountsFault); 17] = [
    (b"", CountsFault::BadHeader),
    (b"task,time\nA,3,1\n", CountsFault::BadHeader),
    (b"task,time,weights\nA,3,1\n", CountsFault::BadHeader),
    (b"task,time,weight,\nA,3,1\n", CountsFault::BadHeader),
    (b"task, time,weight\n", CountsFault::BadHeader),
    (b"task;time;weight\nA;3;1\n", CountsFault::BadHeader),
    (b"task,time,weight\nA,0,1\n", CountsFault::BadRow(1)),
    (b"task,time,weight\nA,1000001,1\n", CountsFault::BadRow(1)),
    (b"task,time,weight\nA,3,0\n", CountsFault::BadRow(1)),
    (
        b"task,time,weight\nA,3,281474976710657\n",
        CountsFault::BadRow(1),
    ),
    (b"task,time,weight\nA,3,1\nA,3\n", CountsFault::BadRow(2)),
    (b"task,time,weight\nA,3,1\nA,3,1,\n", CountsFault::BadRow(2)),
    (b"task,time,weight\nC,3,1\nA, 3,1\n", CountsFault::BadRow(2)),
    (b"task,time,weight\nC,3,1\n", CountsFault::UnknownTask(1)),
    (
        b"task,time,weight\nA,3,1\na,3,1\n",
        CountsFault::UnknownTask(2),
    ),
    (
        b"task,time,weight\nA,1,1\nA,2,1\nA,3,1\nA,4,1\nA,5,1\nA,6,1\nA,7,1\nA,8,1\nA,9,1\nA,10,1\nA,11,1\nA,12,1\nA,13,1\nA,14,1\nA,15,1\nA,16,1\nA,17,1\nA,18,1\nA,19,1\nA,20,1\nA,21,1\nA,22,1\nA,23,1\nA,24,1\nA,25,1\nA,26,1\nA,27,1\nA,28,1\nA,29,1\nA,30,1\nA,31,1\nA,32,1\nA,33,1\n",
        CountsFault::TooManyPoints(0),
    ),
    (
        b"task,time,weight\nB,3,281474976710656\nB,4,281474976710656\n",
        CountsFault::TotalTooLarge(1),
    ),
];

#[test]
fn faulty_files_are_refused(rt: HostRuntime) -> Result<(), Fail> {
    let before = sheet(rt.alloc(), &[(1, 1)], &[(4, 5)])?;
    for (bytes, want) in REFUSED.iter() {
        match read_counts(rt.alloc(), &before, bytes) {
            Ok(_) => assert!(rt; false, "{bytes:?}"),
            Err(fault) => assert!(rt; fault == *want, "{bytes:?}"),
        }
    }
    Ok(())
}

// Files, a number of points, and the times that A gets from them.
static REDUCED: [(&[u8], usize, &[(u32, u64)]); 5] = [
    (
        b"task,time,weight\nA,1,1\nA,2,1\nA,3,1\nA,4,1\n",
        2,
        &[(2, 2), (4, 2)],
    ),
    (
        b"task,time,weight\nA,1,1\nA,2,1\nA,3,1\nA,4,1\n",
        1,
        &[(4, 4)],
    ),
    (
        b"task,time,weight\nA,3,1\nA,1,1\nA,2,1\n",
        2,
        &[(1, 1), (3, 2)],
    ),
    (
        b"task,time,weight\nA,3,2\nA,7,1\nA,3,1\n",
        32,
        &[(3, 3), (7, 1)],
    ),
    (b"task,time,weight\nB,4,5\n", 1, &[(1, 1), (2, 1)]),
];

#[test]
fn counted_times_are_reduced(rt: HostRuntime) -> Result<(), Fail> {
    let alloc = rt.alloc();
    let before = sheet(alloc, &[(1, 1), (2, 1)], &[(4, 5)])?;
    for (bytes, k, times) in REDUCED.iter() {
        assert!(rt; 1 <= *k && *k <= 32);
        let made = reduce_counts(alloc, &before, bytes, *k)?;
        let want = sheet(alloc, times, &[(4, 5)])?;
        let text = sheet_text(alloc, &made)?;
        let wanted = sheet_text(alloc, &want)?;
        assert!(rt; text.as_slice() == wanted.as_slice(), "{bytes:?} to {k}");
    }
    Ok(())
}

// A file with the times from 1 on for A.
fn many_times(alloc: Global, count: u32) -> Result<String, Fail> {
    let mut text = String::from_str(alloc, "task,time,weight\n")?;
    for time in 1..=count {
        let line = format!(in alloc; "A,{time},1\n")?;
        text.push_str(&line)?;
    }
    Ok(text)
}

#[test]
fn files_to_reduce_have_up_to_1024_times(rt: HostRuntime) -> Result<(), Fail> {
    let alloc = rt.alloc();
    let before = sheet(alloc, &[(1, 1)], &[(4, 5)])?;
    let most = many_times(alloc, 1024)?;
    assert!(rt; reduce_counts(alloc, &before, most.as_bytes(), 32).is_ok());
    let many = many_times(alloc, 1025)?;
    assert!(rt;
        reduce_counts(alloc, &before, many.as_bytes(), 32).err()
            == Some(CountsFault::TooManyPoints(0))
    );
    assert!(rt;
        reduce_counts(alloc, &before, b"task,time,weight\nC,3,1\n", 2).err()
            == Some(CountsFault::UnknownTask(1))
    );
    Ok(())
}
