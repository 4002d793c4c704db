ghost use Rattle.std.specs.Prelude.{◌≡◌, ℕ, List};
ghost use Rattle.mp_ports.specs.Calls.{Put, Chain};
ghost use Rattle.mp_run.specs.Sessions.{PutsLine, StopPuts};

use crate::lines::fault_line;
use crate::status::Status;
use crate::stop::Stop;
use mp_ports::Sink;
use std::alloc::Global;

/// Puts one line by one call, and answers the status that it tells of.
pub fn tell<K: Sink>(out: &mut K, line: &[u8], told: Status) -> Status
    ensures { (calls : List Put) × Chain K.puts out.old out.new calls × PutsLine line.now told calls result }
{
    match out.put(line) {
        Ok(()) => told,
        Err(_) => Status::WriteFault,
    }
}

/// Tells what ended the run before its goals.
pub fn tell_stop<K: Sink>(alloc: Global, stop: Stop, out: &mut K) -> Status
    ensures { (calls : List Put) × Chain K.puts out.old out.new calls × StopPuts stop calls result }
{
    match stop {
        Stop::Refused(line) => tell(out, line.as_slice(), Status::Refused),
        Stop::Fault(file) => match fault_line(alloc, file) {
            Ok(line) => tell(out, line.as_slice(), Status::ReadFault),
            Err(_) => Status::NoMemory,
        },
        Stop::NoMemory => Status::NoMemory,
    }
}
