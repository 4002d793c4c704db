//! Shelves and sinks: in memory, over the system's files and output, and over such that fail in mid-stream.

use crate::broken::Broken;
use crate::table::check;
use mp_logic::{List, Text};
use mp_ports::{FileShelf, MemShelf, MemSink, ReadErr, Shelf, Sink, StdSink};
use std::alloc::Global;
use std::fs;
use std::test::Fail;

fn text(alloc: Global, bytes: &[u8]) -> Option<Text> {
    Some(List::from_vec(bytes.to_vec(alloc).ok()?))
}

/// A name, the limit of a read of it, and what it gives.
type Read = (&'static str, u64, Result<&'static str, ReadErr>);

fn is_due(read: Result<Text, ReadErr>, due: Result<&[u8], ReadErr>) -> bool {
    match (read, due) {
        (Ok(read), Ok(due)) => read.as_slice() == due,
        (Err(read), Err(due)) => read == due,
        _ => false,
    }
}

/// Whether the read gives what is due.
fn reads<S: Shelf>(alloc: Global, shelf: &mut S, row: &Read) -> Option<bool> {
    let (name, limit, due) = row;
    let name = text(alloc, name.as_bytes())?;
    let due = match due {
        Ok(due) => Ok(due.as_bytes()),
        Err(due) => Err(*due),
    };
    Some(is_due(shelf.read(alloc, &name, *limit), due))
}

/// Whether each read gives what is due.
fn reads_all<S: Shelf>(alloc: Global, shelf: &mut S, rows: &[Read]) -> Result<(), Fail> {
    for (place, row) in rows.iter().enumerate() {
        check(place, reads(alloc, shelf, row))?;
    }
    Ok(())
}

/// Whether the put takes all of the bytes.
fn puts<K: Sink>(sink: &mut K, bytes: &str) -> bool {
    sink.put(bytes.as_bytes()).is_ok()
}

// ## In memory

static FILES: [(&str, &str); 3] = [("a", "12345"), ("b", ""), ("a", "6")];

fn files(alloc: Global) -> Option<List<(Text, Text)>> {
    let mut files = Vec::new(alloc);
    for (name, bytes) in &FILES {
        let file = (
            text(alloc, name.as_bytes())?,
            text(alloc, bytes.as_bytes())?,
        );
        files.push(file).ok()?;
    }
    Some(List::from_vec(files))
}

/// The shelf of the files, whose second and seventh read fail.
fn shelf(alloc: Global) -> Option<MemShelf> {
    let files = files(alloc)?;
    let fails = List::from_vec([2, 7].to_vec(alloc).ok()?);
    Some(MemShelf::new(files, fails))
}

static READS: [Read; 7] = [
    ("a", 5, Ok("12345")),
    ("a", 5, Err(ReadErr::Failed)),
    ("a", 4, Err(ReadErr::TooLong)),
    ("c", 5, Err(ReadErr::Failed)),
    ("b", 0, Ok("")),
    ("a", 100, Ok("12345")),
    ("a", 4, Err(ReadErr::Failed)),
];

#[test]
fn a_shelf_in_memory_reads_and_fails_by_its_list(rt: HostRuntime) -> Result<(), Fail> {
    let mut shelf = shelf(rt.alloc()).ok_or("no memory")?;
    reads_all(rt.alloc(), &mut shelf, &READS)
}

/// The sink that has room for 8 bytes, and of whose puts some take no more than so many and fail.
fn sink(alloc: Global) -> Option<MemSink> {
    let fails = [(2, 2), (2, 7), (3, 9), (5, 3), (6, 2)].to_vec(alloc).ok()?;
    MemSink::new(alloc, 8, List::from_vec(fails)).ok()
}

/// What is put, whether all of it is taken, and what the sink has then.
type Put = (&'static str, bool, &'static str);

static PUTS: [Put; 8] = [
    ("abc", true, "abc"),
    ("defg", false, "abcde"),
    ("f", false, "abcdef"),
    ("ghi", false, "abcdef"),
    ("wxyz", false, "abcdef"),
    ("ghij", false, "abcdefgh"),
    ("", true, "abcdefgh"),
    ("k", false, "abcdefgh"),
];

/// Whether the put takes what is due.
fn takes(sink: &mut MemSink, row: &Put) -> bool {
    let (bytes, whole, taken) = row;
    puts(sink, *bytes) == *whole && sink.taken() == taken.as_bytes()
}

fn takes_all(sink: &mut MemSink) -> Result<(), Fail> {
    for (place, row) in PUTS.iter().enumerate() {
        check(place, Some(takes(sink, row)))?;
    }
    Ok(())
}

#[test]
fn a_sink_in_memory_takes_what_is_listed_and_fits(rt: HostRuntime) -> Result<(), Fail> {
    let mut sink = sink(rt.alloc()).ok_or("no memory")?;
    takes_all(&mut sink)
}

// ## The system's

/// The file that is there.
const PATH: &str = "mp_tests_file";

/// A name, the limit of a read of it, and how the read fails, if it doesn't give all bytes of the file.
type FileRead = (&'static [u8], u64, Option<ReadErr>);

static FILE_READS: [FileRead; 5] = [
    (b"mp_tests_file", 10000, None),
    (b"mp_tests_file", u64::MAX, None),
    (b"mp_tests_file", 9999, Some(ReadErr::TooLong)),
    (b"mp_tests_no_file", 9, Some(ReadErr::Failed)),
    (b"\xff", 9, Some(ReadErr::Failed)),
];

/// Whether the read gives these bytes, or fails as is due.
fn reads_file<S: Shelf>(
    alloc: Global,
    shelf: &mut S,
    row: &FileRead,
    bytes: &[u8],
) -> Option<bool> {
    let (name, limit, due) = row;
    let name = text(alloc, *name)?;
    let due = match due {
        None => Ok(bytes),
        Some(due) => Err(*due),
    };
    Some(is_due(shelf.read(alloc, &name, *limit), due))
}

fn reads_each<S: Shelf>(alloc: Global, shelf: &mut S, bytes: &[u8]) -> Result<(), Fail> {
    for (place, row) in FILE_READS.iter().enumerate() {
        check(place, reads_file(alloc, shelf, row, bytes))?;
    }
    Ok(())
}

#[test]
fn a_file_is_read_up_to_the_limit(rt: HostRuntime) -> Result<(), Fail> {
    let bytes = vec![in rt.alloc(); 7u8; 10000]?;
    fs::write(&rt, PATH, bytes.as_slice())?;
    reads_each(rt.alloc(), &mut FileShelf::new(&rt), bytes.as_slice())?;
    fs::remove_file(&rt, PATH)?;
    Ok(())
}

fn takes_output<K: Sink>(sink: &mut K) -> bool {
    puts(sink, "two puts, ") && puts(sink, "and no bytes\n") && puts(sink, "")
}

#[test]
fn standard_output_takes_bytes(rt: HostRuntime) -> Result<(), Fail> {
    check(0, Some(takes_output(&mut StdSink::new(&rt))))
}

// ## Ports that fail

/// Reads of a file that gives as many bytes as its name has, and fails then.
static BROKEN_READS: [Read; 4] = [
    ("aaa", 100, Err(ReadErr::Failed)),
    ("aaa", 3, Err(ReadErr::Failed)),
    ("aaa", 2, Err(ReadErr::TooLong)),
    ("", 100, Err(ReadErr::Failed)),
];

#[test]
fn a_file_that_fails_after_its_first_bytes_gives_none(rt: HostRuntime) -> Result<(), Fail> {
    let broken = Broken::new(0, false);
    reads_all(rt.alloc(), &mut FileShelf::new(&broken), &BROKEN_READS)
}

/// What is put into an output that takes three times two bytes, and whether all of it is taken.
static BROKEN_PUTS: [(&str, bool); 4] = [("abcd", true), ("efgh", false), ("i", false), ("", true)];

/// Whether the output takes what is due, where it is full or fails then.
fn stops(is_full: bool) -> bool {
    let broken = Broken::new(3, is_full);
    let mut sink = StdSink::new(&broken);
    for (bytes, whole) in &BROKEN_PUTS {
        if puts(&mut sink, *bytes) != *whole {
            return false;
        }
    }
    true
}

#[test]
fn an_output_that_stops_after_its_first_bytes_fails() -> Result<(), Fail> {
    check(0, Some(stops(false)))?;
    check(1, Some(stops(true)))
}
