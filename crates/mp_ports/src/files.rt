ghost use Rattle.std.specs.Prelude.{◌≡◌, ◌≤◌, ◌<◌, ℕ, List, None, length, IfOk, IfSome, OnOk};
ghost use Rattle.std.specs.declared.option.Option.{Option};
ghost use Rattle.mp_ports.specs.Shelves.{FileReads};
ghost use Rattle.mp_ports.specs.laws.Reads.{file_cause};

use crate::ports::{ReadErr, Shelf};
use mp_logic::{List as Items, Text};
use std::alloc::Global;
use std::fs;
use std::io::Read;
use std::marker::Model;
use std::rt::Files;

/// The files of the system. It tells no content; contracts see its two counts, which stop at
/// `u64::MAX`.
#[derive(Drop)]
pub struct FileShelf<'r, R> {
    rt: &'r R,
    faults: u64,
    longs: u64,
}

impl<'r, R> Model for FileShelf<'r, R> {
    ghost use Rattle.mp_ports.specs.Shelves.{FileCounts};

    ghost Value = { FileCounts };

    ghost view = { λ s. record { faults = s.faults; longs = s.longs } };
}

impl<R: Files> FileShelf<'_, R> {
    /// The files of this runtime. The counts begin at 0.
    pub fn new(rt: &R) -> FileShelf<'_, R>
        ensures { result ≡ record { faults = 0; longs = 0 } }
    {
        FileShelf {
            rt,
            faults: 0,
            longs: 0,
        }
    }
}

/// What is left of a file, where it is at most `limit` bytes. Where the reader tells its bytes these
/// are the answer, and TooLong comes only where there are more than `limit`.
fn rest_of<F: Read>(alloc: Global, file: &mut F, limit: u64) -> Result<Text, ReadErr>
    ensures bound { IfOk result (λ text. length text ≤ limit) }
    ensures whole { IfSome (F.remaining file.old) (λ bytes. IfOk result (λ text. text ≡ bytes)) }
    ensures long { IfSome (F.remaining file.old) (λ bytes. result ≡ Err ReadErr.TooLong → limit < length bytes) }
{
    let mut bytes = Vec::new(alloc);
    let mut buffer = [0u8; 4096];
    loop {
        let count = match file.read(&mut buffer) {
            Ok(count) => count,
            Err(_) => return Err(ReadErr::Failed),
        };
        if count == 0 {
            return Ok(Items::from_vec(bytes));
        }
        if count as u64 > limit - bytes.len() as u64 {
            return Err(ReadErr::TooLong);
        }
        if bytes.extend_from_slice(&buffer[..count]).is_err() {
            return Err(ReadErr::NoMemory);
        }
    }
}

/// Opens the file of this name. A name that isn't UTF-8 is none of the system's.
fn open<R: Files>(rt: &R, name: &[u8]) -> Result<R::File, ReadErr> {
    match std::str::from_utf8(name) {
        Ok(path) => match fs::open(rt, path) {
            Ok(file) => Ok(file),
            Err(_) => Err(ReadErr::Failed),
        },
        Err(_) => Err(ReadErr::Failed),
    }
}

/// The bytes of the file of this name, where they are at most `limit`.
fn read_file<R: Files>(rt: &R, alloc: Global, name: &[u8], limit: u64) -> Result<Text, ReadErr>
    ensures { IfOk result (λ text. length text ≤ limit) }
{
    let mut file = open(rt, name)?;
    rest_of(alloc, &mut file, limit)
}

impl<R: Files> Shelf for FileShelf<'_, R> {
    ghost use Rattle.std.specs.Prelude.{refl};

    ghost reads = { λ old new call. FileReads old new call };

    ghost bytes = { λ s name. None };

    ghost faults = { λ s. s.faults };

    ghost longs = { λ s. s.longs };

    /// Reads the file to its end; of a longer one at most 4,096 bytes beyond `limit`. Each Failed
    /// raises the count of faults by one, and each TooLong that of long files, up to `u64::MAX`.
    fn read(&mut self, alloc: Global, name: &Text, limit: u64) -> Result<Text, ReadErr> {
        let read = read_file(self.rt, alloc, name.as_slice(), limit);
        match read {
            Err(ReadErr::Failed) => self.faults = self.faults.saturating_add(1),
            Err(ReadErr::TooLong) => self.longs = self.longs.saturating_add(1),
            Err(ReadErr::NoMemory) | Ok(_) => {}
        }
        read
    }

    ghost bound = { λ old new call is. is.bound };

    ghost told = { λ old new call is. tt };

    ghost cause = { λ old new call is. file_cause old new call is };

    ghost kept = { λ old new call is other. refl };
}
