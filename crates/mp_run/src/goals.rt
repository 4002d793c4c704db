ghost use Rattle.std.specs.Prelude.{◌≡◌, List, IfOk, zip};
ghost use Rattle.mp_ports.specs.Calls.{Put, Chain};
ghost use Rattle.mp_run.specs.Loaded.{IsReady, SearchInRange, PutsMade, PutsPieces, search_seen, said_of};
ghost use Rattle.mp_run.specs.Replays.{IsReplayed};
ghost use Rattle.mp_run.specs.Sessions.{Ended, IsPiece};
ghost use Rattle.mp_run.specs.Loaded.{next_after as next_after_piece};
ghost use Rattle.mp_theory.specs.Tables.{IsTheory};
ghost use Rattle.mp_treetext.specs.Printed.{EachGoodPrinted};
ghost use Rattle.mp_scripttext.specs.Entries.{IsGoodEntry, EachGood};

use crate::block::{drill_block, seq_block};
use crate::check::replay_piece;
use crate::loading::{Loaded, Plan, Search};
use crate::piece::{Piece, Verdict};
use crate::status::Status;
use mp_drill::some_trace;
use mp_logic::{List as Items, NoMemory, Waiting};
use mp_names::Names;
use mp_ports::Sink;
use mp_refiner::{Refiner, step_law};
use mp_scripttext::Entry;
use mp_theory::Theory;
use mp_treetext::Printed;
use std::alloc::Global;

/// The piece of a goal whose tree is searched for.
fn piece_of(
    alloc: Global,
    names: &Names,
    theory: &Theory,
    search: &Search,
    entry: Entry,
) -> Result<Piece, NoMemory>
    requires theory { IsTheory theory.now }
    requires good { IsGoodEntry theory.now entry }
    requires range { SearchInRange search.now }
    ensures { IfOk result (IsPiece (search_seen search.now) names.now theory.now entry) }
{
    match search {
        Search::Evaluated => seq_block(alloc, names, theory, entry),
        Search::Drilled(sections) => drill_block(alloc, names, theory, sections, entry),
    }
}

/// How a run goes on after a piece.
#[derive(Clone, Copy, Debug, PartialEq, Eq)]
enum Next {
    /// It goes on, and this is the status so far.
    GoesOn(Status),
    /// It ends with this status.
    Ends(Status),
}

/// How a run goes on after a piece of this verdict, by the status before it.
fn next_after(verdict: Verdict, before: Status) -> Next
    ensures { result ≡ next_after_piece verdict before }
{
    match verdict {
        Verdict::Closed => Next::GoesOn(before),
        Verdict::Open => Next::GoesOn(Status::NotAll),
        Verdict::Ends(status) => Next::Ends(status),
    }
}

/// Puts the piece that was made, by one call.
fn put_piece<K: Sink>(made: Result<Piece, NoMemory>, before: Status, out: &mut K) -> Next
    ensures { PutsMade K.puts made before out.old out.new result }
{
    let Ok(piece) = made else {
        return Next::Ends(Status::NoMemory);
    };
    match out.put(piece.text.as_slice()) {
        Ok(()) => next_after(piece.verdict, before),
        Err(_) => Next::Ends(Status::WriteFault),
    }
}

/// Puts the piece of each goal whose tree is searched for, in order, each by one call.
fn put_searched<K: Sink>(
    alloc: Global,
    names: &Names,
    theory: &Theory,
    search: &Search,
    entries: Items<Entry>,
    out: &mut K,
) -> Status
    requires theory { IsTheory theory.now }
    requires goals { EachGood theory.now entries }
    requires range { SearchInRange search.now }
    ensures { (calls : List Put) × Chain K.puts out.old out.new calls × PutsPieces (IsPiece (search_seen search.now) names.now theory.now) entries calls result }
{
    // Each goal has a piece, also one whose piece is never made.
    some_trace::<Refiner>();
    step_law();
    let mut status = Status::AllClosed;
    let mut waiting = Waiting::new(entries);
    while let Some(entry) = waiting.next() {
        let made = piece_of(alloc, names, theory, search, entry);
        match put_piece(made, status, out) {
            Next::GoesOn(after) => status = after,
            Next::Ends(end) => return end,
        }
    }
    status
}

/// Puts the piece of each goal with its block in a tree file, in order, each by one call.
fn put_replayed<K: Sink>(
    alloc: Global,
    names: &Names,
    theory: &Theory,
    entries: Items<Entry>,
    printed: Items<Printed>,
    out: &mut K,
) -> Status
    requires theory { IsTheory theory.now }
    requires goals { EachGood theory.now entries }
    requires checkable { EachGoodPrinted theory.now printed }
    ensures { (calls : List Put) × Chain K.puts out.old out.new calls × PutsPieces (IsReplayed names.now theory.now) (zip entries printed) calls result }
{
    // Each block has a piece, also one whose piece is never made.
    step_law();
    let mut status = Status::AllClosed;
    let mut goals = Waiting::new(entries);
    let mut rest = Waiting::new(printed);
    while let Some(entry) = goals.next() {
        let Some(block) = rest.next() else {
            return status;
        };
        let made = replay_piece(alloc, names, theory, &entry, &block);
        match put_piece(made, status, out) {
            Next::GoesOn(after) => status = after,
            Next::Ends(end) => return end,
        }
    }
    status
}

/// Puts the pieces of what was loaded.
pub fn put_loaded<K: Sink>(alloc: Global, loaded: Loaded, out: &mut K) -> Status
    requires { IsReady loaded }
    ensures { (calls : List Put) × Chain K.puts out.old out.new calls × Ended (Ok (said_of loaded)) calls result }
{
    let Loaded {
        names,
        theory,
        script,
        plan,
    } = loaded;
    match plan {
        Plan::Searched(search) => {
            put_searched(alloc, &names, &theory, &search, script.entries, out)
        }
        Plan::Replayed(blocks) => {
            put_replayed(alloc, &names, &theory, script.entries, blocks, out)
        }
    }
}
