ghost use Rattle.std.specs.Prelude.{List};
ghost use Rattle.mp_ports.specs.Calls.{Read, Put, Chain};
ghost use Rattle.mp_run.specs.Commands.{command_of as command_of_words};
ghost use Rattle.mp_run.specs.Loaded.{command_seen};
ghost use Rattle.mp_run.specs.Sessions.{Session, CommandSession};

use crate::command::{Command, command_of};
use crate::goals::put_loaded;
use crate::loading::load;
use crate::status::Status;
use crate::telling::{tell, tell_stop};
use mp_logic::Text;
use mp_ports::{Shelf, Sink};
use std::alloc::Global;

/// The line that tells the commands.
const USAGE: &[u8] =
    b"usage: metatac seq THEORY SCRIPT | drill THEORY SCRIPT SCHEDULE | replay THEORY SCRIPT TREES | prove THEORY SCRIPT [--workers=N] [--lose=N] | load N\n";

/// Runs a command: reads its files, and puts the block of each goal or the line that refuses a file.
fn run_command<H: Shelf, K: Sink>(
    alloc: Global,
    command: Command<'_>,
    shelf: &mut H,
    out: &mut K,
) -> Status
    ensures { (reads : List Read) × (puts : List Put) × Chain H.reads shelf.old shelf.new reads × Chain K.puts out.old out.new puts × CommandSession (command_seen command.entry) reads puts result }
{
    match load(alloc, shelf, command) {
        Ok(loaded) => put_loaded(alloc, loaded, out),
        Err(stop) => tell_stop(alloc, stop, out),
    }
}

/// Runs the command that the words give, over these files and into this sink, and answers how it ended.
///
/// The calls of `read` and of `put` that it makes, in order, are those of a session of the command. Each file is read at most
/// once, in its turn: the theory, the script, and the schedule if one is drilled, or the tree file if one is replayed; the
/// first one that can't be read or is refused is told by its line, and none is read after it. Else the piece of each goal is
/// put by one call, goal by goal: the text of the tree or failure that evaluation from left to right gives; or that of a
/// drill, after the replies; or what is said of its block in the tree file: that its tree is valid for the goal by the steps
/// of the theory, with how many open leaves, that a failure isn't checked, or where and why its tree isn't valid. The first
/// tree that isn't valid ends the run with BadTree, which nothing else does. A put that fails ends the run. If the words are
/// no command, nothing is read and the usage line is put. Where memory runs out, the run ends with NoMemory.
///
/// What is known of the bytes and the counts follows by the laws of this crate, whatever the shelf and the sink tell.
pub fn run_here<H: Shelf, K: Sink>(
    alloc: Global,
    words: &[Text],
    shelf: &mut H,
    out: &mut K,
) -> Status
    ensures { (reads : List Read) × (puts : List Put) × Chain H.reads shelf.old shelf.new reads × Chain K.puts out.old out.new puts × Session (command_of_words words.now) reads puts result }
{
    match command_of(words) {
        Some(command) => run_command(alloc, command, shelf, out),
        None => tell(out, USAGE, Status::Usage),
    }
}
