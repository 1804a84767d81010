//! The file system as a shelf reads it.

ghost use Rattle.std.specs.Prelude.{◌≡◌, ℕ, Option, List, None, IfOk, is_ok, if◌then◌else◌};
ghost use Rattle.std.specs.Io.{ReadsAtMost};
ghost use Rattle.std.specs.Io.KnownBytes.{ReadConsumes};
ghost use Rattle.prta_outside.specs.Disk.{OpensAt};
ghost use Rattle.prta_outside.specs.Sink.{raised};

use std::fs;
use std::io::Read;
use std::rt::Files;

// A file can't be opened or read.
#[derive(Clone, Copy, Debug, PartialEq, Eq)]
pub(crate) struct DiskFault;

// What opens files by their paths, and reads them. `held` is what lies under a path and `left` what a file is still
// to give, each where it is told; `faults` is a count of the calls that failed, which stays at 2^64 - 1.
pub(crate) trait Disk {
    type File: Drop;

    ghost held: { Self → Option (List ℕ → Option (List ℕ)) };

    ghost left: { Self.File → Option (List ℕ) };

    ghost faults: { Self → ℕ };

    // Opens the file at this path.
    fn open(&mut self, path: &str) -> Result<Self::File, DiskFault>
        ensures opened { IfOk result (λ file. OpensAt (held self.old) path.now (left file)) }
        ensures counted { faults self.new ≡ (if is_ok result then faults self.old else raised (faults self.old)) };

    // Reads some of what is left of the file; no bytes are its end.
    fn read(&mut self, file: &mut Self::File, turn: &mut [u8]) -> Result<usize, DiskFault>
        ensures bound { ReadsAtMost result turn.new }
        ensures bytes { ReadConsumes (left file.old) (left file.new) result turn.new }
        ensures counted { faults self.new ≡ (if is_ok result then faults self.old else raised (faults self.old)) };
}

// The files of the host, which tell nothing of what they hold.
#[derive(Drop)]
pub(crate) struct HostDisk<'a, R> {
    rt: &'a R,
    faults: u64,
}

impl<'a, R> HostDisk<'a, R> {
    pub(crate) fn new(rt: &'a R) -> HostDisk<'a, R>
        ensures { result.faults ≡ 0 }
    {
        HostDisk { rt, faults: 0 }
    }
}

impl<R: Files> Disk for HostDisk<'_, R> {
    type File = R::File;

    ghost held = { λ _. None };

    ghost left = { λ file. R.File.remaining file };

    ghost faults = { λ d. d.faults };

    fn open(&mut self, path: &str) -> Result<R::File, DiskFault> {
        match fs::open(self.rt, path) {
            Ok(file) => Ok(file),
            Err(_) => {
                self.faults = self.faults.saturating_add(1);
                Err(DiskFault)
            }
        }
    }

    fn read(&mut self, file: &mut R::File, turn: &mut [u8]) -> Result<usize, DiskFault> {
        match file.read(turn) {
            Ok(n) => Ok(n),
            Err(_) => {
                self.faults = self.faults.saturating_add(1);
                Err(DiskFault)
            }
        }
    }
}
