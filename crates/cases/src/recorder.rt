//! A sink in memory that keeps where each put ended.
ghost use Rattle.mp_ports.specs.Sinks.{OutPuts};
ghost use Rattle.mp_ports.specs.laws.Puts.{out_takes, out_cause};

use mp_ports::{MemSink, PutFailed, Sink};

/// A sink in memory that keeps where each put ended. It tells contracts nothing of the bytes taken.
#[derive(Drop)]
pub struct Recorder {
    /// The sink that takes the bytes.
    pub sink: MemSink,
    /// After each put, how many bytes had been taken.
    pub ends: Vec<usize>,
    faults: u64,
}

impl Recorder {
    /// A recorder over the sink, whose earlier puts ended there.
    pub fn new(sink: MemSink, ends: Vec<usize>) -> Recorder {
        Recorder {
            sink,
            ends,
            faults: 0,
        }
    }
}

impl Sink for Recorder {
    ghost use Rattle.std.specs.Prelude.{None};

    ghost puts = { λ old new call. OutPuts old.faults new.faults call };

    ghost taken = { λ _. None };

    ghost faults = { λ s. s.faults };

    /// Puts the bytes into the sink. A put that can't be recorded fails.
    fn put(&mut self, bytes: &[u8]) -> Result<(), PutFailed> {
        let put = self.sink.put(bytes);
        let kept = self.ends.push(self.sink.taken().len());
        if put.is_ok() && kept.is_ok() {
            return Ok(());
        }
        self.faults = self.faults.saturating_add(1);
        Err(PutFailed)
    }

    ghost takes = { λ old new call is. out_takes old.faults new.faults call is };

    ghost cause = { λ old new call is. out_cause old.faults new.faults call is };
}
