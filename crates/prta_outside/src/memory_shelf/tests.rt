ghost use Rattle.std.specs.Prelude.{◌-◌, ◌<◌, ◌^◌};

use super::*;
use crate::shelf::is_same;
use std::test::Fail;

// Reads as a caller that knows of the trait alone.
fn read<S: Shelf>(
    shelf: &mut S,
    alloc: Global,
    name: &str,
    limit: usize,
) -> Result<Vec<u8>, ShelfFault>
    requires { limit < 2 ^ 64 - 1 }
{
    shelf.read(alloc, name, limit)
}

#[test]
fn reads_what_was_added(rt: HostRuntime) -> Result<(), Fail> {
    let mut shelf = MemoryShelf::new(rt.alloc());
    shelf.add("sheet", b"123")?;
    shelf.add("empty", b"")?;
    shelf.refuse(2)?;
    let reads: [(&str, usize, Result<&[u8], ShelfFault>); 5] = [
        ("sheet", 3, Ok(b"123")),
        ("sheet", 3, Err(ShelfFault::Failed)),
        ("sheet", 2, Err(ShelfFault::TooLong { taken: 3 })),
        ("empty", 0, Ok(b"")),
        ("missing", 9, Err(ShelfFault::Failed)),
    ];
    for (i, (name, limit, want)) in reads.iter().enumerate() {
        assert!(rt; *limit < 10);
        let answer = read(&mut shelf, rt.alloc(), name, *limit);
        assert!(rt; is_same(&answer, want), "read {i} of {name}");
    }
    shelf.add("sheet", b"45678")?;
    let replaced = read(&mut shelf, rt.alloc(), "sheet", 5);
    assert!(rt; is_same(&replaced, &Ok(b"45678")));
    let longer = read(&mut shelf, rt.alloc(), "sheet", 2);
    assert!(rt; is_same(&longer, &Err(ShelfFault::TooLong { taken: 3 })));
    let failed = shelf.failed.names();
    assert_eq!(rt; failed.len(), 2);
    assert_eq!(rt; failed[0].as_str(), "sheet");
    assert_eq!(rt; failed[1].as_str(), "missing");
    Ok(())
}
