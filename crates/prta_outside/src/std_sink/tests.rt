use super::*;
use std::io;
use std::io::ErrorKind;
use std::test::Fail;

// A writer that takes so many bytes of a piece, and fails at a write or at each flush.
#[derive(Drop)]
struct Pipe {
    takes: usize,
    fails_at: u64,
    flush_fails: bool,
    writes: u64,
    flushes: u64,
    bytes: Vec<u8>,
}

impl Write for Pipe {
    fn write(&mut self, buf: &[u8]) -> io::Result<usize> {
        self.writes = self.writes.saturating_add(1);
        if self.writes == self.fails_at {
            return Err(io::Error::from(ErrorKind::BrokenPipe));
        }
        let n = buf.len().min(self.takes);
        self.bytes.extend_from_slice(&buf[..n])?;
        Ok(n)
    }

    fn flush(&mut self) -> io::Result<()> {
        self.flushes = self.flushes.saturating_add(1);
        if self.flush_fails {
            return Err(io::Error::from(ErrorKind::BrokenPipe));
        }
        Ok(())
    }
}

struct Row {
    takes: usize,
    fails_at: u64,
    flush_fails: bool,
    answers: [Result<usize, SinkFault>; 2],
    faults: u64,
    flushes: u64,
    written: &'static str,
}

const ROWS: [Row; 5] = [
    Row {
        takes: 9,
        fails_at: 0,
        flush_fails: false,
        answers: [Ok(4), Ok(4)],
        faults: 0,
        flushes: 2,
        written: "abcdabcd",
    },
    Row {
        takes: 9,
        fails_at: 2,
        flush_fails: false,
        answers: [Ok(4), Err(SinkFault)],
        faults: 1,
        flushes: 1,
        written: "abcd",
    },
    Row {
        takes: 0,
        fails_at: 0,
        flush_fails: false,
        answers: [Err(SinkFault), Err(SinkFault)],
        faults: 2,
        flushes: 0,
        written: "",
    },
    Row {
        takes: 9,
        fails_at: 0,
        flush_fails: true,
        answers: [Err(SinkFault), Err(SinkFault)],
        faults: 2,
        flushes: 2,
        written: "abcdabcd",
    },
    Row {
        takes: 3,
        fails_at: 0,
        flush_fails: false,
        answers: [Ok(3), Ok(3)],
        faults: 0,
        flushes: 2,
        written: "abcabc",
    },
];

#[test]
fn writes_and_flushes(rt: HostRuntime) -> Result<(), Fail> {
    for (i, row) in ROWS.iter().enumerate() {
        let mut sink = StdSink::new(Pipe {
            takes: row.takes,
            fails_at: row.fails_at,
            flush_fails: row.flush_fails,
            writes: 0,
            flushes: 0,
            bytes: Vec::new(rt.alloc()),
        });
        for want in &row.answers {
            assert!(rt; sink.put(b"abcd") == *want, "row {i}");
        }
        assert_eq!(rt; sink.faults, row.faults, "row {i}");
        assert_eq!(rt; sink.to.flushes, row.flushes, "row {i}");
        assert!(rt;
            sink.to.bytes.as_slice() == row.written.as_bytes(),
            "row {i}"
        );
    }
    Ok(())
}
