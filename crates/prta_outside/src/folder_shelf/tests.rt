use super::*;
use crate::shelf::is_same;
use std::alloc::Allocator;
use std::fs::{Metadata, OpenFile, OpenOptions};
use std::io;
use std::io::{ErrorKind, Read, Seek, SeekFrom, Write};
use std::test::Fail;

// A file system of four files, whose reads give three bytes at most.
#[derive(Drop)]
struct FourFiles;

// What is left of an opened file, and how many reads serve.
#[derive(Drop)]
struct Opened {
    left: &'static [u8],
    reads: u8,
}

fn unsupported() -> io::Error {
    io::Error::from(ErrorKind::Unsupported)
}

impl Read for Opened {
    fn read(&mut self, buf: &mut [u8]) -> io::Result<usize> {
        if self.reads == 0 {
            return Err(io::Error::from(ErrorKind::BrokenPipe));
        }
        self.reads -= 1;
        let n = buf.len().min(3);
        self.left.read(&mut buf[..n])
    }
}

impl Write for Opened {
    fn write(&mut self, _buf: &[u8]) -> io::Result<usize> {
        Err(unsupported())
    }

    fn flush(&mut self) -> io::Result<()> {
        Ok(())
    }
}

impl Seek for Opened {
    fn seek(&mut self, _to: SeekFrom) -> io::Result<u64> {
        Err(unsupported())
    }
}

impl OpenFile for Opened {
    fn metadata(&self) -> io::Result<Metadata> {
        Err(unsupported())
    }

    fn set_len(&self, _size: u64) -> io::Result<()> {
        Err(unsupported())
    }

    fn sync_all(&self) -> io::Result<()> {
        Err(unsupported())
    }

    fn sync_data(&self) -> io::Result<()> {
        Err(unsupported())
    }
}

impl Files for FourFiles {
    type File = Opened;

    type Dir = Opened;

    fn open_file(&self, _how: &OpenOptions, path: &str) -> io::Result<Opened> {
        match path {
            "dir/empty" => Ok(Opened {
                left: b"",
                reads: 9,
            }),
            "dir/eight" => Ok(Opened {
                left: b"12345678",
                reads: 9,
            }),
            "dir/nine" => Ok(Opened {
                left: b"123456789",
                reads: 9,
            }),
            "dir/broken" => Ok(Opened {
                left: b"12345678",
                reads: 2,
            }),
            _ => Err(io::Error::from(ErrorKind::NotFound)),
        }
    }

    fn open_dir(&self, _path: &str) -> io::Result<Opened> {
        Err(unsupported())
    }

    fn metadata(&self, _path: &str) -> io::Result<Metadata> {
        Err(unsupported())
    }

    fn symlink_metadata(&self, _path: &str) -> io::Result<Metadata> {
        Err(unsupported())
    }

    fn copy(&self, _from: &str, _to: &str) -> io::Result<u64> {
        Err(unsupported())
    }

    fn rename(&self, _from: &str, _to: &str) -> io::Result<()> {
        Err(unsupported())
    }

    fn remove_file(&self, _path: &str) -> io::Result<()> {
        Err(unsupported())
    }

    fn create_dir(&self, _path: &str) -> io::Result<()> {
        Err(unsupported())
    }

    fn remove_dir(&self, _path: &str) -> io::Result<()> {
        Err(unsupported())
    }

    fn remove_dir_all<B: Allocator>(&self, _alloc: B, _path: &str) -> io::Result<()> {
        Err(unsupported())
    }
}

#[test]
fn reads_files(rt: HostRuntime) -> Result<(), Fail> {
    let disk = FourFiles;
    let mut shelf = FolderShelf::new(&disk, rt.alloc());
    let reads: [(&str, Result<&[u8], ShelfFault>); 6] = [
        ("dir/eight", Ok(b"12345678")),
        ("dir/broken", Err(ShelfFault::Failed)),
        ("dir/nine", Err(ShelfFault::TooLong { taken: 9 })),
        ("dir/missing", Err(ShelfFault::Failed)),
        ("dir/empty", Ok(b"")),
        ("dir/eight", Ok(b"12345678")),
    ];
    for (i, (name, want)) in reads.iter().enumerate() {
        let answer = shelf.read(rt.alloc(), name, 8);
        assert!(rt; is_same(&answer, want), "read {i} of {name}");
    }
    let failed = shelf.noted.names();
    assert_eq!(rt; failed.len(), 2);
    assert_eq!(rt; failed[0].as_str(), "dir/broken");
    assert_eq!(rt; failed[1].as_str(), "dir/missing");
    Ok(())
}
