ghost use Rattle.std.specs.Prelude.{◌<◌, length};

use super::*;
use std::test::Fail;

// Puts as a caller that knows of the trait alone.
fn put<S: Sink>(sink: &mut S, piece: &[u8]) -> Result<usize, SinkFault>
    requires { 0 < length piece.now }
{
    sink.put(piece)
}

#[test]
fn takes_what_was_put(rt: HostRuntime) -> Result<(), Fail> {
    let mut sink = MemorySink::with_room(rt.alloc(), 7, 3)?;
    sink.refuse(2)?;
    // Three at most, a refused put, less than three, what room is left, and none.
    let puts: [(&str, Result<usize, SinkFault>); 6] = [
        ("abcd", Ok(3)),
        ("d", Err(SinkFault)),
        ("de", Ok(2)),
        ("fgh", Ok(2)),
        ("h", Err(SinkFault)),
        ("h", Err(SinkFault)),
    ];
    for (i, (piece, want)) in puts.iter().enumerate() {
        assert!(rt; !piece.is_empty());
        assert!(rt; put(&mut sink, piece.as_bytes()) == *want, "put {i}");
    }
    assert!(rt; sink.bytes() == b"abcdefg".as_slice());
    assert_eq!(rt; sink.faults, 3);
    Ok(())
}
