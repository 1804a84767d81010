//! Sheets of seeds.

use super::*;
use prta_sheet::sheet_text;
use std::test::Fail;

// The sheet of the seed 1 and one task.
const OF_SEED_1: &str = "format = 1
cap = 2048
hyperperiods = 4
turns = 16

[[task]]
name = \"t0\"
offset = 57
period = 100
deadline = 100
times = [[3, 72], [6, 64], [7, 16]]
allow = [1, 1000]
";

#[test]
fn the_seed_1_makes_this_sheet(rt: HostRuntime) -> Result<(), Fail> {
    let sheet = generate(rt.alloc(), 1, 1)?;
    let text = sheet_text(rt.alloc(), &sheet)?;
    assert_eq!(rt; text.as_slice(), OF_SEED_1.as_bytes());
    Ok(())
}

#[test]
fn a_count_outside_1_to_12_is_bad(rt: HostRuntime) -> Result<(), Fail> {
    for tasks in [0, 13, usize::MAX] {
        assert!(rt; matches!(generate(rt.alloc(), 7, tasks), Err(GenFault::BadCount)));
    }
    Ok(())
}

const NAMES: [&str; 12] = [
    "t0", "t1", "t2", "t3", "t4", "t5", "t6", "t7", "t8", "t9", "t10", "t11",
];

#[test]
fn tasks_are_named_by_their_number(rt: HostRuntime) -> Result<(), Fail> {
    let sheet = generate(rt.alloc(), 7, 12)?;
    assert_eq!(rt; sheet.tasks().len(), 12);
    for (task, name) in sheet.tasks().iter().zip(NAMES) {
        assert_eq!(rt; task.name(), name);
    }
    Ok(())
}
