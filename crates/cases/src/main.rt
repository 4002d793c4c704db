//! Cases: runs the words of each over files in memory, and prints each whose answer isn't the one that is due, and last
//! how many passed and how many failed.
#![tactic(auto)]

mod case;
mod difference;
mod fields;
mod part;
mod quoted;
mod read;
mod recorder;
mod run;
mod stop;
mod text;

use std::alloc::Global;
use std::process::ExitCode;
use std::rt::Files;
use std::{env, fs};
use stop::Stop;

/// How many cases passed, and how many failed.
#[derive(Clone, Copy)]
struct Counts {
    passed: u64,
    failed: u64,
}

/// Runs the cases of a file, and prints each that fails. A file that isn't in the format counts as one that fails.
fn run_file<R: Files + Print + AllocGlobal>(
    rt: &R,
    path: &str,
    counts: &mut Counts,
) -> anyhow::Result<()> {
    let alloc: Global = rt.alloc();
    let source = fs::read_to_string(rt, path)?;
    let suite = match read::read_suite(alloc, source.as_str()) {
        Ok(suite) => suite,
        Err(Stop::Fault { line, why }) => {
            println!(rt; "{path}:{line}: {why}")?;
            counts.failed = counts.failed.saturating_add(1);
            return Ok(());
        }
        Err(Stop::NoMemory) => anyhow::bail!("out of memory"),
    };
    for case in &suite.cases {
        match run::difference(alloc, &suite, case)? {
            None => counts.passed = counts.passed.saturating_add(1),
            Some(difference) => {
                counts.failed = counts.failed.saturating_add(1);
                println!(rt; "{path}:{}: {}\n{difference}", case.line, case.name)?;
            }
        }
    }
    Ok(())
}

fn main(rt: HostRuntime) -> anyhow::Result<ExitCode> {
    let mut counts = Counts {
        passed: 0,
        failed: 0,
    };
    for path in env::args(&rt)?.skip(1) {
        run_file(&rt, path.as_str(), &mut counts)?;
    }
    println!(rt; "{} passed, {} failed", counts.passed, counts.failed)?;
    if counts.failed > 0 {
        return Ok(ExitCode::FAILURE);
    }
    Ok(ExitCode::SUCCESS)
}
