//! A shelf over the file system.

ghost use Rattle.std.specs.Prelude.{◌≡◌, ◌+◌, ◌-◌, ◌^◌, ◌<◌, ◌≤◌, [], None, Some, length, IfOk, IfSome, IsSomeAnd, vec_len, if◌then◌else◌};
ghost use Rattle.prta_outside.specs.Shelf.{failed, faults_after, IfTooLong};
ghost use Rattle.prta_outside.specs.Sink.{raised};

use crate::disk::{Disk, HostDisk};
use crate::faults::{Faults, Noted};
use crate::shelf::{Shelf, ShelfFault, is_failed};
use std::alloc::Global;
use std::marker::Model;
use std::rt::Files;

// The bytes that one turn of a read asks for.
const TURN: usize = 4096;

/// A shelf that reads a file by its path. It tells nothing of what the files hold.
///
/// Any error of opening or reading is a fault. Contracts see the names of the failed reads, and a count of the calls
/// of the file system that failed, which stays at 2^64 - 1.
#[derive(Drop)]
pub struct FolderShelf<'a, R> {
    disk: HostDisk<'a, R>,
    alloc: Global,
    noted: Faults,
}

impl<'a, R> Model for FolderShelf<'a, R> {
    ghost use Rattle.prta_outside.specs.Disk.{FolderState};

    ghost Value = { FolderState };

    ghost view = { λ s. record { failed = s.noted; faults = s.disk.faults } };
}

impl<'a, R: Files> FolderShelf<'a, R> {
    /// Makes a shelf with no faults. This takes no memory.
    pub fn new(rt: &'a R, alloc: Global) -> FolderShelf<'a, R>
        ensures { result ≡ record { failed = []; faults = 0 } }
    {
        FolderShelf {
            disk: HostDisk::new(rt),
            alloc,
            noted: Faults::new(alloc),
        }
    }
}

impl<R: Files> Shelf for FolderShelf<'_, R> {
    ghost held = { λ _. None };

    ghost faults = { λ s. s.failed };

    /// Takes the memory for the path in the list of faults, and reads the file only then.
    fn read(&mut self, alloc: Global, name: &str, limit: usize) -> Result<Vec<u8>, ShelfFault>
        requires { limit < 2 ^ 64 - 1 }
        ensures short { IfOk result (λ bytes. vec_len bytes ≤ limit) }
        ensures too_long_taken { IfTooLong result (λ taken. taken ≡ limit + 1) }
        ensures faults { self.new.failed ≡ faults_after result name.now self.old.failed }
        ensures counted { self.new.faults ≡ (if failed result then raised self.old.faults else self.old.faults) }
    {
        let Ok(path) = self.noted.note(self.alloc, name) else {
            return Err(ShelfFault::NoMemory);
        };
        let answer = read_path(&mut self.disk, alloc, path, limit);
        if !is_failed(&answer) {
            self.noted.take_back();
        }
        answer
    }
}

// Reads the file at this path.
fn read_path<D: Disk>(
    disk: &mut D,
    alloc: Global,
    path: Noted<'_>,
    limit: usize,
) -> Result<Vec<u8>, ShelfFault>
    requires { limit < 2 ^ 64 - 1 }
    ensures short { IfOk result (λ bytes. vec_len bytes ≤ limit) }
    ensures holds { IfSome (D.held disk.old) (λ files. IfOk result (λ bytes. files path.entry.name.now ≡ Some bytes.items)) }
    ensures too_long_taken { IfTooLong result (λ taken. taken ≡ limit + 1) }
    ensures too_long_held { IfSome (D.held disk.old) (λ files.
        IfTooLong result (λ _. IsSomeAnd (files path.entry.name.now) (λ bytes. limit < length bytes))) }
    ensures counted { D.faults disk.new ≡ (if failed result then raised (D.faults disk.old) else D.faults disk.old) }
{
    match disk.open(path.name()) {
        Ok(mut file) => read_file(disk, &mut file, alloc, limit),
        Err(_) => Err(ShelfFault::Failed),
    }
}

// Reads to the end of the file, or up to one byte more than the limit.
fn read_file<D: Disk>(
    disk: &mut D,
    file: &mut D::File,
    alloc: Global,
    limit: usize,
) -> Result<Vec<u8>, ShelfFault>
    requires { limit < 2 ^ 64 - 1 }
    ensures short { IfOk result (λ bytes. vec_len bytes ≤ limit) }
    ensures whole { IfSome (D.left file.old) (λ left. IfOk result (λ bytes. bytes.items ≡ left)) }
    ensures too_long_taken { IfTooLong result (λ taken. taken ≡ limit + 1) }
    ensures too_long { IfSome (D.left file.old) (λ left. IfTooLong result (λ _. limit < length left)) }
    ensures counted { D.faults disk.new ≡ (if failed result then raised (D.faults disk.old) else D.faults disk.old) }
{
    let mut bytes = Vec::new(alloc);
    let mut turn = [0u8; TURN];
    while bytes.len() <= limit {
        let most = TURN.min(limit + 1 - bytes.len());
        let Ok(n) = disk.read(file, &mut turn[..most]) else {
            return Err(ShelfFault::Failed);
        };
        if n == 0 {
            return Ok(bytes);
        }
        if bytes.extend_from_slice(&turn[..n]).is_err() {
            return Err(ShelfFault::NoMemory);
        }
    }
    Err(ShelfFault::TooLong { taken: bytes.len() })
}

#[cfg(test)]
mod tests;
