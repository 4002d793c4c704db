//! The commands, from the words and the files to the bytes written.
#![tactic(auto)]

mod block;
mod check;
mod command;
mod goals;
mod laws;
mod limits;
mod lines;
mod loading;
mod piece;
mod reading;
mod run;
mod status;
mod stop;
mod telling;

pub use laws::{bad_trees_end, drills_evaluate, one_answer, runs_answer, some_answer};
pub use limits::{LONGEST_FILE, LONGEST_TREES};
pub use run::run_here;
pub use status::Status;
