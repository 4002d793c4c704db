//! A runtime whose files and whose output fail in mid-stream.

use std::alloc::Allocator;
use std::cell::Cell;
use std::fmt::Display;
use std::fs::{Metadata, OpenFile, OpenOptions};
use std::io;
use std::io::{ErrorKind, Print, Read, Seek, SeekFrom, Write};
use std::rt::Files;

/// The answer of a call that fails.
fn failed() -> io::Error {
    io::Error::from(ErrorKind::Unsupported)
}

/// A runtime whose output takes so many times two bytes. From then on each write fails, or takes no bytes where the
/// output is full. A file gives as many bytes as its name has, one by one, and fails then.
#[derive(Drop)]
pub(crate) struct Broken {
    left: Cell<u32>,
    is_full: bool,
}

impl Broken {
    pub(crate) fn new(writes: u32, is_full: bool) -> Broken {
        Broken {
            left: Cell::new(writes),
            is_full,
        }
    }
}

impl Print for Broken {
    fn print<D: Display + Drop>(&self, _value: D) -> io::Result<()> {
        Err(failed())
    }

    fn println<D: Display + Drop>(&self, _value: D) -> io::Result<()> {
        Err(failed())
    }

    fn write_all(&self, _bytes: &[u8]) -> io::Result<()> {
        Err(failed())
    }

    fn write_some(&self, bytes: &[u8]) -> io::Result<usize> {
        let left = self.left.get();
        if left > 0 {
            self.left.set(left - 1);
            return Ok(bytes.len().min(2));
        }
        if self.is_full { Ok(0) } else { Err(failed()) }
    }
}

/// A file that gives so many bytes, one by one, and fails then.
#[derive(Drop)]
pub(crate) struct BrokenFile {
    left: usize,
}

impl Read for BrokenFile {
    fn read(&mut self, buf: &mut [u8]) -> io::Result<usize> {
        if self.left == 0 || buf.is_empty() {
            return Err(failed());
        }
        self.left -= 1;
        buf[0] = b'x';
        Ok(1)
    }
}

impl Write for BrokenFile {
    fn write(&mut self, _buf: &[u8]) -> io::Result<usize> {
        Err(failed())
    }

    fn flush(&mut self) -> io::Result<()> {
        Err(failed())
    }
}

impl Seek for BrokenFile {
    fn seek(&mut self, _to: SeekFrom) -> io::Result<u64> {
        Err(failed())
    }
}

impl OpenFile for BrokenFile {
    fn metadata(&self) -> io::Result<Metadata> {
        Err(failed())
    }

    fn set_len(&self, _size: u64) -> io::Result<()> {
        Err(failed())
    }

    fn sync_all(&self) -> io::Result<()> {
        Err(failed())
    }

    fn sync_data(&self) -> io::Result<()> {
        Err(failed())
    }
}

impl Files for Broken {
    type File = BrokenFile;

    type Dir = BrokenFile;

    fn open_file(&self, _how: &OpenOptions, path: &str) -> io::Result<BrokenFile> {
        Ok(BrokenFile { left: path.len() })
    }

    fn open_dir(&self, _path: &str) -> io::Result<BrokenFile> {
        Err(failed())
    }

    fn metadata(&self, _path: &str) -> io::Result<Metadata> {
        Err(failed())
    }

    fn symlink_metadata(&self, _path: &str) -> io::Result<Metadata> {
        Err(failed())
    }

    fn copy(&self, _from: &str, _to: &str) -> io::Result<u64> {
        Err(failed())
    }

    fn rename(&self, _from: &str, _to: &str) -> io::Result<()> {
        Err(failed())
    }

    fn remove_file(&self, _path: &str) -> io::Result<()> {
        Err(failed())
    }

    fn create_dir(&self, _path: &str) -> io::Result<()> {
        Err(failed())
    }

    fn remove_dir(&self, _path: &str) -> io::Result<()> {
        Err(failed())
    }

    fn remove_dir_all<B: Allocator>(&self, _alloc: B, _path: &str) -> io::Result<()> {
        Err(failed())
    }
}
