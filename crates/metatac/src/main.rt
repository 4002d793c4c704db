//! metatac: a strategy prover that prints, for each goal of a script, a proof tree or a named failure.
#![tactic(auto)]

use mp_logic::{List, NoMemory, Text};
use mp_ports::{FileShelf, StdSink};
use mp_run::{Status, run_here};
use std::env;
use std::env::Env;
use std::io::ErrorKind;
use std::process::ExitCode;

/// The words after the program's name. Where one of them isn't UTF-8 there are none, so that the usage is told.
fn words<R: Env + AllocGlobal>(rt: &R) -> Result<Vec<Text>, NoMemory> {
    let mut words = Vec::new(rt.alloc());
    let args = match env::args(rt) {
        Ok(args) => args,
        Err(fail) if fail.kind() == ErrorKind::OutOfMemory => return Err(NoMemory),
        Err(_) => return Ok(words),
    };
    for word in args.skip(1) {
        if words.push(List::from_vec(word.into_bytes())).is_err() {
            return Err(NoMemory);
        }
    }
    Ok(words)
}

fn main(rt: HostRuntime) -> ExitCode {
    let mut shelf = FileShelf::new(&rt);
    let mut out = StdSink::new(&rt);
    let status = match words(&rt) {
        Ok(words) => run_here(rt.alloc(), words.as_slice(), &mut shelf, &mut out),
        Err(NoMemory) => Status::NoMemory,
    };
    ExitCode::from(status.number())
}
