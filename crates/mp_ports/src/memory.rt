ghost use Rattle.std.specs.Prelude.{◌≡◌, ◌≤◌, ◌<◌, [], ℕ, List, length, IfOk};
ghost use Rattle.std.specs.Option.{option_copied};
ghost use Rattle.std.specs.List.{list_any};
ghost use Rattle.mp_ports.specs.Causes.{raised};
ghost use Rattle.mp_ports.specs.Shelves.{file_of, MemReads};
ghost use Rattle.mp_ports.specs.Sinks.{listed, MemPuts};
ghost use Rattle.mp_ports.specs.laws.Reads.{mem_bound, mem_told, mem_kept, mem_cause as read_cause};
ghost use Rattle.mp_ports.specs.laws.Puts.{mem_takes, mem_cause as put_cause};

use crate::ports::{PutFailed, ReadErr, Shelf, Sink};
use mp_logic::{List as Items, NoMemory, Text};
use std::alloc::Global;
use std::marker::Model;

/// Files in memory, where calls can be made to fail. Of several files of one name the first counts.
/// Its counts stop at `u64::MAX`.
#[derive(Drop)]
pub struct MemShelf {
    files: Items<(Text, Text)>,
    fails: Items<u64>,
    calls: u64,
    faults: u64,
    longs: u64,
}

impl Model for MemShelf {
    ghost use Rattle.mp_ports.specs.Shelves.{ShelfState};

    ghost Value = { ShelfState };

    ghost view = { λ s. record { files = s.files; fails = s.fails; calls = s.calls; faults = s.faults; longs = s.longs } };
}

impl MemShelf {
    /// A shelf of these files, each a name and its bytes. The calls listed in `fails`, counted from
    /// 1, fail.
    pub fn new(files: Items<(Text, Text)>, fails: Items<u64>) -> MemShelf
        ensures { result ≡ record { files = files; fails = fails; calls = 0; faults = 0; longs = 0 } }
    {
        MemShelf {
            files,
            fails,
            calls: 0,
            faults: 0,
            longs: 0,
        }
    }

    /// Counts a fault.
    fn fail(&mut self) -> ReadErr
        ensures counted { self.new ≡ record self.old { faults = raised self.old.faults } }
        ensures later { self.old.faults ≤ self.new.faults }
        ensures answer { result ≡ ReadErr.Failed }
    {
        self.faults = self.faults.saturating_add(1);
        ReadErr::Failed
    }
}

/// The first file of the name.
fn find_file<'a>(files: &'a [(Text, Text)], name: &[u8]) -> Option<&'a Text>
    ensures { option_copied result ≡ file_of name.now files.now }
{
    for file in files {
        if file.0.as_slice() == name {
            return Some(&file.1);
        }
    }
    None
}

/// The bytes in a text of their own, where they are at most `limit`.
fn copy_within(alloc: Global, bytes: &[u8], limit: u64) -> Result<Text, ReadErr>
    ensures ok { IfOk result (λ text. (text ≡ bytes.now) × (length bytes.now ≤ limit)) }
    ensures long { result ≡ Err ReadErr.TooLong → limit < length bytes.now }
    ensures memory { result ≡ Err ReadErr.NoMemory → length bytes.now ≤ limit }
    ensures failed { result ≡ Err ReadErr.Failed → ⊥ }
{
    if bytes.len() as u64 > limit {
        return Err(ReadErr::TooLong);
    }
    match Vec::from_slice(alloc, bytes) {
        Ok(copy) => Ok(Items::from_vec(copy)),
        Err(_) => Err(ReadErr::NoMemory),
    }
}

impl Shelf for MemShelf {
    ghost reads = { λ old new call. MemReads old new call };

    ghost bytes = { λ s name. file_of name s.files };

    ghost faults = { λ s. s.faults };

    ghost longs = { λ s. s.longs };

    /// A listed call fails, and so does one with a name that isn't there; another gives the bytes of
    /// the first file of the name, or TooLong where there are more than `limit`.
    fn read(&mut self, alloc: Global, name: &Text, limit: u64) -> Result<Text, ReadErr> {
        self.calls = self.calls.saturating_add(1);
        if self.fails.as_slice().contains(&self.calls) {
            return Err(self.fail());
        }
        let copied = match find_file(self.files.as_slice(), name.as_slice()) {
            Some(bytes) => copy_within(alloc, bytes.as_slice(), limit),
            None => return Err(self.fail()),
        };
        if let Err(ReadErr::TooLong) = copied {
            self.longs = self.longs.saturating_add(1);
        }
        copied
    }

    ghost bound = { λ old new call is. mem_bound old new call is };

    ghost told = { λ old new call is. mem_told old new call is };

    ghost cause = { λ old new call is. read_cause old new call is };

    ghost kept = { λ old new call is. mem_kept old new call is };
}

/// Bytes in memory, with a room that is never exceeded, where calls can be made to fail. Its counts
/// stop at `u64::MAX`.
#[derive(Drop)]
pub struct MemSink {
    room: u64,
    fails: Items<(u64, u64)>,
    calls: u64,
    faults: u64,
    taken: Vec<u8>,
}

impl Model for MemSink {
    ghost use Rattle.std.specs.Prelude.{◌≤◌, vec_len, vec_capacity};
    ghost use Rattle.mp_ports.specs.Sinks.{SinkState};

    ghost Value = { SinkState };

    ghost view = { λ s. record { room = s.room; fails = s.fails; calls = s.calls; faults = s.faults; taken = s.taken.items } };

    ghost invariant = { λ s. (s.room ≤ vec_capacity s.taken) × (vec_len s.taken ≤ s.room) };
}

impl MemSink {
    /// A sink with room for so many bytes, reserved at once. A call listed in `fails`, as its number
    /// counted from 1 and a number of bytes, takes the first so many bytes and fails; of several
    /// entries of one call the first counts.
    pub fn new(alloc: Global, room: u64, fails: Items<(u64, u64)>) -> Result<MemSink, NoMemory>
        ensures { IfOk result (λ sink. sink ≡ record { room = room; fails = fails; calls = 0; faults = 0; taken = [] }) }
    {
        match Vec::with_capacity(alloc, room as usize) {
            Ok(taken) => Ok(MemSink {
                room,
                fails,
                calls: 0,
                faults: 0,
                taken,
            }),
            Err(_) => Err(NoMemory),
        }
    }

    /// The bytes taken so far.
    pub fn taken(&self) -> &[u8]
        ensures { result.now ≡ self.now.taken }
    {
        self.taken.as_slice()
    }

    /// Counts a fault.
    fn fail(&mut self) -> PutFailed
        ensures { self.new ≡ record self.old { faults = raised self.old.faults } }
    {
        self.faults = self.faults.saturating_add(1);
        PutFailed
    }
}

/// How many bytes the call takes, by the first entry that lists it.
fn listed_at(entries: &[(u64, u64)], call: u64) -> Option<u64>
    ensures { result ≡ listed call entries.now }
{
    for entry in entries {
        if entry.0 == call {
            return Some(entry.1);
        }
    }
    None
}

impl Sink for MemSink {
    ghost use Rattle.std.specs.Prelude.{Some};

    ghost puts = { λ old new call. MemPuts old new call };

    ghost taken = { λ s. Some s.taken };

    ghost faults = { λ s. s.faults };

    /// Takes all of the bytes, or the number listed for this call; none where these don't fit into
    /// the room. It takes no memory.
    fn put(&mut self, bytes: &[u8]) -> Result<(), PutFailed> {
        self.calls = self.calls.saturating_add(1);
        let entry = listed_at(self.fails.as_slice(), self.calls);
        let due = match entry {
            Some(count) if count < bytes.len() as u64 => &bytes[..count as usize],
            _ => bytes,
        };
        let left = self.room - self.taken.len() as u64;
        if due.len() as u64 > left {
            return Err(self.fail());
        }
        // The room was reserved, so this takes no memory and never fails.
        if self.taken.extend_from_slice(due).is_err() {
            unreachable!();
        }
        if entry.is_some() {
            return Err(self.fail());
        }
        Ok(())
    }

    ghost takes = { λ old new call is. mem_takes old new call is };

    ghost cause = { λ old new call is. put_cause old new call is };
}
