ghost use Rattle.std.specs.Prelude.{◌≡◌, ◌≤◌, ℕ, List, None};
ghost use Rattle.std.specs.declared.option.Option.{Option};
ghost use Rattle.mp_ports.specs.Sinks.{PutTakes, OutPuts};
ghost use Rattle.mp_ports.specs.laws.Puts.{out_takes, out_cause};

use crate::ports::{PutFailed, Sink};
use std::io;
use std::io::{Print, Write};
use std::marker::Model;

/// Standard output. It tells no content; contracts see it as its count of faults, which stops at
/// `u64::MAX`.
#[derive(Drop)]
pub struct StdSink<'r, R> {
    rt: &'r R,
    faults: u64,
}

impl<'r, R> Model for StdSink<'r, R> {
    ghost use Rattle.std.specs.Prelude.{ℕ};

    ghost Value = { ℕ };

    ghost view = { λ s. s.faults };
}

impl<R: Print> StdSink<'_, R> {
    /// The standard output of this runtime. The count begins at 0.
    pub fn new(rt: &R) -> StdSink<'_, R>
        ensures { result ≡ 0 }
    {
        StdSink { rt, faults: 0 }
    }
}

/// Writes all of the bytes, and flushes them. A write that takes none of them fails.
fn write_whole<W: Write>(writer: &mut W, bytes: &[u8]) -> Result<(), PutFailed>
    ensures { PutTakes (W.contents writer.old) (W.contents writer.new) bytes.now result }
{
    let mut at = 0;
    while at < bytes.len() {
        match writer.write(&bytes[at..]) {
            Ok(count) if count > 0 => at += count,
            _ => return Err(PutFailed),
        }
    }
    match writer.flush() {
        Ok(()) => Ok(()),
        Err(_) => Err(PutFailed),
    }
}

impl<R: Print> Sink for StdSink<'_, R> {
    ghost puts = { λ old new call. OutPuts old new call };

    ghost taken = { λ s. None };

    ghost faults = { λ s. s };

    /// Writes all of the bytes, and flushes them. Each PutFailed raises the count of faults by one,
    /// up to `u64::MAX`.
    fn put(&mut self, bytes: &[u8]) -> Result<(), PutFailed> {
        let written = write_whole(&mut io::writer(self.rt), bytes);
        if written.is_err() {
            self.faults = self.faults.saturating_add(1);
        }
        written
    }

    ghost takes = { λ old new call is. out_takes old new call is };

    ghost cause = { λ old new call is. out_cause old new call is };
}
