//! Texts that write a number, and texts that don't.

use super::*;
use std::test::Fail;

// A text, the least and the greatest number, and what is read.
const CASES: [(&str, u64, u64, Option<u64>); 13] = [
    ("0", 0, 9, Some(0)),
    ("0", 1, 9, None),
    ("7", 1, 9, Some(7)),
    ("10", 1, 9, None),
    ("07", 0, 9, None),
    ("", 0, 9, None),
    ("-1", 0, 9, None),
    ("+1", 0, 9, None),
    ("1 ", 0, 9, None),
    (
        "18446744073709551615",
        0,
        u64::MAX,
        Some(18_446_744_073_709_551_615),
    ),
    ("18446744073709551616", 0, u64::MAX, None),
    (
        "99999999999999999999999999999999999999999999",
        0,
        u64::MAX,
        None,
    ),
    (
        "281474976710656",
        1,
        281_474_976_710_656,
        Some(281_474_976_710_656),
    ),
];

#[test]
fn texts_write_numbers_in_decimal(rt: HostRuntime) -> Result<(), Fail> {
    for (text, low, high, number) in CASES {
        assert_eq!(rt; number_within(text.as_bytes(), low, high), number);
    }
    Ok(())
}
