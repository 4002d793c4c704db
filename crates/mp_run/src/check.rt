ghost use Rattle.std.specs.Prelude.{◌≡◌, IfOk, IsTrue};
ghost use Rattle.mp_theory.specs.Allowed.{is_good};
ghost use Rattle.mp_theory.specs.Tables.{IsTheory};
ghost use Rattle.mp_treetext.specs.Printed.{IsGoodPrinted, IsGoodProof};
ghost use Rattle.mp_run.specs.Replays.{IsChecked, IsLine, IsReplayed, bad_node_of as bad_node_of_cause};
ghost use Rattle.mp_run.specs.Replays.{checked_of as checked_of_verdict, run_verdict as run_verdict_of};

use crate::piece::{Piece, Verdict};
use crate::status::Status;
use mp_logic::{List as Items, NoMemory, Sym, Tree};
use mp_names::Names;
use mp_refiner::{Refiner, step_law};
use mp_replay::{BadCause, Verdict as TreeVerdict, replay};
use mp_report::{BadNode, Checked, checked_text};
use mp_scripttext::Entry;
use mp_term::Sequent;
use mp_theory::{Just, Theory};
use mp_treetext::Printed;
use std::alloc::Global;

/// What is said of a bad node, by its cause.
fn bad_node_of(cause: &BadCause<Sequent>) -> BadNode
    ensures { result ≡ bad_node_of_cause cause.now }
{
    match cause {
        BadCause::Goal => BadNode::Goal,
        BadCause::Refused(why) => BadNode::Refused(*why),
        BadCause::Kids { .. } => BadNode::Kids,
    }
}

/// What is said of a tree, by the verdict on it.
fn checked_of(verdict: &TreeVerdict<Sequent>) -> Checked
    ensures { result ≡ checked_of_verdict verdict.now }
{
    match verdict {
        TreeVerdict::Closed => Checked::Closed,
        TreeVerdict::OpenLeaves(leaves) => Checked::Open(*leaves),
        TreeVerdict::Bad { node, cause } => Checked::Bad {
            node: *node,
            cause: bad_node_of(cause),
        },
    }
}

/// The verdict on what is said of a block: a bad tree ends the run.
fn run_verdict(checked: Checked) -> Verdict
    ensures { result ≡ run_verdict_of checked }
{
    match checked {
        Checked::Closed => Verdict::Closed,
        Checked::Open(_) | Checked::Unchecked => Verdict::Open,
        Checked::Bad { .. } => Verdict::Ends(Status::BadTree),
    }
}

/// The piece of a goal of whose block this is said.
fn line_piece(
    alloc: Global,
    names: &Names,
    entry: &Entry,
    checked: Checked,
) -> Result<Piece, NoMemory>
    ensures { IfOk result (IsLine names.now entry.now checked) }
{
    Ok(Piece {
        text: checked_text(alloc, names, entry.name, checked)?,
        verdict: run_verdict(checked),
    })
}

/// The piece of a goal whose block is a tree: each step of it is taken anew.
fn tree_piece(
    alloc: Global,
    names: &Names,
    theory: &Theory,
    entry: &Entry,
    tree: &Tree<Sequent>,
    justs: &Items<Just>,
) -> Result<Piece, NoMemory>
    requires theory { IsTheory theory.now }
    requires goal { IsTrue (is_good entry.now.goal) }
    requires good { IsGoodProof theory.now justs.now tree.now }
    ensures { IfOk result (IsChecked names.now theory.now entry.now (Printed.Proof tree.now justs.now)) }
{
    // Each step of a tree is a step of a rule.
    step_law();
    let refiner = Refiner::new(theory);
    let verdict = replay(alloc, &refiner, justs, &entry.goal, tree)?;
    line_piece(alloc, names, entry, checked_of(&verdict))
}

/// The piece of a goal by its block in a tree file.
pub fn replay_piece(
    alloc: Global,
    names: &Names,
    theory: &Theory,
    entry: &Entry,
    block: &Printed,
) -> Result<Piece, NoMemory>
    requires theory { IsTheory theory.now }
    requires goal { IsTrue (is_good entry.now.goal) }
    requires good { IsGoodPrinted theory.now block.now }
    ensures { IfOk result (IsReplayed names.now theory.now (entry.now, block.now)) }
{
    match block {
        Printed::Proof { tree, justs } => tree_piece(alloc, names, theory, entry, tree, justs),
        Printed::Failed { .. } => line_piece(alloc, names, entry, Checked::Unchecked),
    }
}
