ghost use Rattle.std.specs.Prelude.{◌≡◌, ◌≤◌, ℕ, List, length, IfOk};
ghost use Rattle.std.specs.declared.option.Option.{Option};
ghost use Rattle.mp_ports.specs.Calls.{Read, Put};
ghost use Rattle.mp_ports.specs.Causes.{ReadCause, PutCause};
ghost use Rattle.mp_ports.specs.Shelves.{Told};
ghost use Rattle.mp_ports.specs.Sinks.{PutTakes};

use mp_logic::Text;
use std::alloc::Global;
use thiserror::Error;

/// Why a file was not read.
#[derive(Clone, Copy, Debug, PartialEq, Eq, Error)]
pub enum ReadErr {
    /// There is no such file, or a read failed. The shelf counted a fault, if its count could rise.
    #[error("the file could not be read")]
    Failed,
    /// The file has more bytes than the limit. The shelf counted a file that is too long, if its
    /// count could rise.
    #[error("the file is too long")]
    TooLong,
    /// Want of memory.
    #[error("out of memory")]
    NoMemory,
}

/// Not all of the bytes were taken. The sink counted a fault, if its count could rise.
#[derive(Clone, Copy, Debug, PartialEq, Eq, Error)]
#[error("the bytes could not be written")]
pub struct PutFailed;

/// Files by name. Each call is a step of a relation, and what is known of bytes and counts follows
/// from that relation. A count that stands at `u64::MAX` rises no more.
pub trait Shelf {
    /// This call, with its answer, takes the one state to the other.
    ghost reads: { Self → Self → Read → Type 0 };

    /// The bytes that it holds under a name, where it tells them.
    ghost bytes: { Self → List ℕ → Option (List ℕ) };

    /// How many faults there have been.
    ghost faults: { Self → ℕ };

    /// How many files were found too long.
    ghost longs: { Self → ℕ };

    /// The bytes of the file of this name, at most `limit` of them; what the shelf holds stays.
    ///
    /// Failed comes only where the count of faults rose in this call, or stands at `u64::MAX`; no
    /// other answer changes it. TooLong comes only where the count of long files rose, or stands
    /// there; of a file whose bytes are told it comes, among the answers that are not Failed,
    /// exactly where there are more than `limit`.
    fn read(&mut self, alloc: Global, name: &Text, limit: u64) -> Result<Text, ReadErr>
        ensures { reads self.old self.new (record { name = name.now; limit = limit; answer = result }) };

    /// No more bytes than the limit are given.
    ghost bound: { (old new : Self) (call : Read) → reads old new call → IfOk call.answer (λ text. length text ≤ call.limit) };

    /// Of a file whose bytes are told these are given, or it is too long.
    ghost told: { (old new : Self) (call : Read) → reads old new call → Told (bytes old call.name) call.limit call.answer };

    /// A fault is counted at Failed, and a long file at TooLong, as far as the counts can rise.
    ghost cause: { (old new : Self) (call : Read) → reads old new call → ReadCause (faults old) (faults new) (longs old) (longs new) call.answer };

    /// What it holds stays.
    ghost kept: { (old new : Self) (call : Read) → reads old new call → (other : List ℕ) → bytes new other ≡ bytes old other };
}

/// Where bytes go. Each call is a step of a relation, and what is known of bytes and of the count
/// follows from that relation. A count that stands at `u64::MAX` rises no more.
pub trait Sink {
    /// This call, with its answer, takes the one state to the other.
    ghost puts: { Self → Self → Put → Type 0 };

    /// The bytes that it has taken, where it tells them.
    ghost taken: { Self → Option (List ℕ) };

    /// How many faults there have been.
    ghost faults: { Self → ℕ };

    /// Takes all of the bytes. Where it fails it took the first of them, maybe none.
    ///
    /// PutFailed comes only where the count of faults rose in this call, or stands at `u64::MAX`; Ok
    /// leaves it as it was.
    fn put(&mut self, bytes: &[u8]) -> Result<(), PutFailed>
        ensures { puts self.old self.new (record { bytes = bytes.now; answer = result }) };

    /// All bytes were taken, or the first of them.
    ghost takes: { (old new : Self) (call : Put) → puts old new call → PutTakes (taken old) (taken new) call.bytes call.answer };

    /// A fault is counted where the call failed, if the count can rise.
    ghost cause: { (old new : Self) (call : Put) → puts old new call → PutCause (faults old) (faults new) call.answer };
}
