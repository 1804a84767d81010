//! Ledgers of worked analyses.

use super::*;
use prta_mass::Dir::{self, Down, Up};
use std::test::Fail;

// The cuts of three jobs of one task, and the entries of a delayed job of another.
const ENTRIES: [(Dir, Kind, u32, u32, u32, u64); 11] = [
    (Up, Kind::Cut, 0, 0, 1, 576_460_752_303_423_488),
    (Up, Kind::Cut, 0, 1, 2, 288_230_376_151_711_744),
    (Up, Kind::Cut, 0, 2, 3, 144_115_188_075_855_872),
    (Down, Kind::Cut, 0, 0, 1, 576_460_752_303_423_488),
    (Down, Kind::Cut, 0, 1, 2, 576_460_752_303_423_488),
    (Down, Kind::Cut, 0, 2, 3, 576_460_752_303_423_488),
    (Up, Kind::Round, 1, 0, 1, 1),
    (Up, Kind::Delay, 1, 0, 1, 1),
    (Down, Kind::Round, 1, 0, 1, 1),
    (Down, Kind::Round, 1, 0, 2, 1),
    (Down, Kind::Delay, 1, 0, 1, 1),
];

#[test]
fn a_ledger_keeps_its_entries_and_adds_them_up(rt: HostRuntime) -> Result<(), Fail> {
    let mut ledger = Ledger::with_room(rt.alloc(), 12)?;
    for (dir, kind, task, job, op, amount) in ENTRIES {
        assert!(rt; ledger.spare() > 0);
        ledger.note(Entry {
            dir,
            kind,
            task,
            job,
            op,
            amount,
        });
    }
    assert_eq!(rt; ledger.spare(), 1);
    assert_eq!(rt; ledger.entries().len(), 11);
    assert!(rt; NoNotes.is_silent() && !ledger.is_silent());
    let sums = [
        (0, 0, 1_152_921_504_606_846_976),
        (0, 1, 2_017_612_633_061_982_208),
        (0, 2, 2_738_188_573_441_261_568),
        (1, 0, 5),
        (1, 1, 3),
        (2, 0, 0),
    ];
    for (task, job, want) in sums {
        assert_eq!(rt; ledger.sum_for(task, job), want);
    }
    ledger.clear();
    assert_eq!(rt; ledger.spare(), 12);
    assert!(rt; ledger.entries().is_empty());
    Ok(())
}
