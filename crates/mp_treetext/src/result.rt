ghost use Rattle.std.specs.Prelude.{◌≡◌, ◌++◌, ◌+◌, OnOk, IfOk};
ghost use Rattle.mp_logic.specs.Trees.{leaf_count_of};
ghost use Rattle.mp_treetext.specs.Printed.{printed_text};
ghost use Rattle.mp_treetext.specs.Results.{failure_text, kind_text, leaves_text, outcome_text, proof_text};
ghost use Rattle.mp_treetext.specs.Results.{result_text as result_text_of};

use crate::print::push_tree;
use crate::printed::Printed;
use mp_logic::{List, NoMemory, Sym, Text, Tree, leaf_count};
use mp_names::Names;
use mp_strategy::{Kind, Outcome, TacId};
use mp_term::Sequent;
use mp_termtext::{push_bytes, push_decimal, push_sequent};
use mp_theory::{Just, Theory};
use std::alloc::Global;

/// The block of a goal: its name, whether its tree is closed or how many leaves are open, and the tree's
/// lines; or its failure, with the number of the strategy counted from 1.
pub fn result_text(
    alloc: Global,
    names: &Names,
    theory: &Theory,
    name: Sym,
    justs: &List<Just>,
    outcome: &Outcome<Sequent>,
) -> Result<Text, NoMemory>
    ensures { IfOk result (λ text. text ≡ result_text_of names.now theory.now name justs.now outcome.now) }
{
    let mut out = Vec::new(alloc);
    push_result(alloc, &mut out, names, theory, name, justs, outcome)?;
    Ok(List::from_vec(out))
}

/// Appends the block of a goal. Where there is no memory, some of it may have been appended.
pub fn push_result(
    alloc: Global,
    out: &mut Vec<u8>,
    names: &Names,
    theory: &Theory,
    name: Sym,
    justs: &List<Just>,
    outcome: &Outcome<Sequent>,
) -> Result<(), NoMemory>
    ensures { OnOk result (out.new.items ≡ out.old.items ++ result_text_of names.now theory.now name justs.now outcome.now) }
{
    push_bytes(out, b"goal ")?;
    push_bytes(out, names.text(name))?;
    push_bytes(out, b": ")?;
    push_outcome(alloc, out, names, theory, justs, outcome)
}

/// Appends the block of a goal as it was read. Where there is no memory, some of it may have been appended.
pub fn push_printed(
    alloc: Global,
    out: &mut Vec<u8>,
    names: &Names,
    theory: &Theory,
    name: Sym,
    printed: &Printed,
) -> Result<(), NoMemory>
    ensures { OnOk result (out.new.items ≡ out.old.items ++ printed_text names.now theory.now name printed.now) }
{
    push_bytes(out, b"goal ")?;
    push_bytes(out, names.text(name))?;
    push_bytes(out, b": ")?;
    match printed {
        Printed::Proof { tree, justs } => push_proof(alloc, out, names, theory, justs, tree),
        Printed::Failed { kind, tac, goal } => push_failure(out, names, *kind, *tac, goal),
    }
}

/// Appends what stands after the goal's name.
fn push_outcome(
    alloc: Global,
    out: &mut Vec<u8>,
    names: &Names,
    theory: &Theory,
    justs: &List<Just>,
    outcome: &Outcome<Sequent>,
) -> Result<(), NoMemory>
    ensures { OnOk result (out.new.items ≡ out.old.items ++ outcome_text names.now theory.now justs.now outcome.now) }
{
    match outcome {
        Outcome::Tree(tree) => push_proof(alloc, out, names, theory, justs, tree),
        Outcome::Failure(failure) => {
            push_failure(out, names, failure.kind, failure.tac, &failure.goal)
        }
    }
}

/// Appends whether the tree is closed or how many leaves are open, and its lines.
fn push_proof(
    alloc: Global,
    out: &mut Vec<u8>,
    names: &Names,
    theory: &Theory,
    justs: &List<Just>,
    tree: &Tree<Sequent>,
) -> Result<(), NoMemory>
    ensures { OnOk result (out.new.items ≡ out.old.items ++ proof_text names.now theory.now justs.now tree.now) }
{
    push_leaves(out, tree)?;
    push_bytes(out, b"\n")?;
    push_tree(alloc, out, names, theory, justs, tree)
}

/// Appends whether the tree is closed, or how many leaves are open.
fn push_leaves(out: &mut Vec<u8>, tree: &Tree<Sequent>) -> Result<(), NoMemory>
    ensures { OnOk result (out.new.items ≡ out.old.items ++ leaves_text (leaf_count_of tree.now)) }
{
    let open = leaf_count(tree);
    if open == 0 {
        return push_bytes(out, b"closed");
    }
    push_decimal(out, open)?;
    push_bytes(out, b" open")
}

/// Appends a failure: its kind, the number of its strategy counted from 1, and its goal.
fn push_failure(
    out: &mut Vec<u8>,
    names: &Names,
    kind: Kind,
    tac: TacId,
    goal: &Sequent,
) -> Result<(), NoMemory>
    ensures { OnOk result (out.new.items ≡ out.old.items ++ failure_text names.now kind tac goal.now) }
{
    push_bytes(out, b"failed ")?;
    push_kind(out, kind)?;
    push_bytes(out, b" at strategy ")?;
    push_decimal(out, tac.0 as u64 + 1)?;
    push_bytes(out, b" | ")?;
    push_sequent(out, names, goal)?;
    push_bytes(out, b"\n")
}

/// Appends the name of the kind.
fn push_kind(out: &mut Vec<u8>, kind: Kind) -> Result<(), NoMemory>
    ensures { OnOk result (out.new.items ≡ out.old.items ++ kind_text kind) }
{
    match kind {
        Kind::OutOfFuel => push_bytes(out, b"OutOfFuel"),
        Kind::NoMatch => push_bytes(out, b"NoMatch"),
        Kind::BadArgument => push_bytes(out, b"BadArgument"),
        Kind::BadAddress => push_bytes(out, b"BadAddress"),
        Kind::UnderBinder => push_bytes(out, b"UnderBinder"),
        Kind::TooLarge => push_bytes(out, b"TooLarge"),
        Kind::NoProgress => push_bytes(out, b"NoProgress"),
        Kind::Incomplete => push_bytes(out, b"Incomplete"),
        Kind::WrongCount => push_bytes(out, b"WrongCount"),
        Kind::Failed => push_bytes(out, b"Failed"),
    }
}
