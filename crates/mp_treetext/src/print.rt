ghost use Rattle.std.specs.Prelude.{◌≡◌, ◌++◌, [], slice_get, OnOk, IfOk};
ghost use Rattle.mp_treetext.specs.Trees.{goal_text, step_text, tree_text};

use mp_logic::{JustId, List, NoMemory, Text, Tree};
use mp_names::Names;
use mp_steptext::push_just;
use mp_term::Sequent;
use mp_termtext::{push_bytes, push_sequent};
use mp_theory::{Just, Theory};
use std::alloc::Global;

/// The one text of a proof tree: a line for each node in preorder, indented by two spaces for each step
/// above it, with the node's justification or `open`, a bar, and its sequent.
pub fn print_tree(
    alloc: Global,
    names: &Names,
    theory: &Theory,
    justs: &List<Just>,
    tree: &Tree<Sequent>,
) -> Result<Text, NoMemory>
    ensures { IfOk result (λ text. text ≡ tree_text names.now theory.now justs.now tree.now []) }
{
    let mut out = Vec::new(alloc);
    push_tree(alloc, &mut out, names, theory, justs, tree)?;
    Ok(List::from_vec(out))
}

/// Appends the one text of a proof tree. Where there is no memory, some of it may have been appended.
pub fn push_tree(
    alloc: Global,
    out: &mut Vec<u8>,
    names: &Names,
    theory: &Theory,
    justs: &List<Just>,
    tree: &Tree<Sequent>,
) -> Result<(), NoMemory>
    ensures { OnOk result (out.new.items ≡ out.old.items ++ tree_text names.now theory.now justs.now tree.now []) }
{
    let mut indent = Vec::new(alloc);
    push_node(out, names, theory, justs, tree, &mut indent)
}

fn push_node(
    out: &mut Vec<u8>,
    names: &Names,
    theory: &Theory,
    justs: &List<Just>,
    tree: &Tree<Sequent>,
    indent: &mut Vec<u8>,
) -> Result<(), NoMemory>
    ensures text { OnOk result (out.new.items ≡ out.old.items ++ tree_text names.now theory.now justs.now tree.now indent.old.items) }
    ensures indent { OnOk result (indent.new.items ≡ indent.old.items) }
{
    push_bytes(out, indent.as_slice())?;
    match tree {
        Tree::Leaf(goal) => {
            push_bytes(out, b"open")?;
            push_goal(out, names, goal)
        }
        Tree::Step { goal, just, kids } => {
            push_step(out, names, theory, justs, *just)?;
            push_goal(out, names, goal)?;
            let depth = indent.len();
            push_bytes(indent, b"  ")?;
            for kid in kids.as_slice() {
                push_node(out, names, theory, justs, kid, indent)?;
            }
            indent.truncate(depth);
            Ok(())
        }
    }
}

/// Appends a bar, the sequent and the line's end.
fn push_goal(out: &mut Vec<u8>, names: &Names, goal: &Sequent) -> Result<(), NoMemory>
    ensures { OnOk result (out.new.items ≡ out.old.items ++ goal_text names.now goal.now) }
{
    push_bytes(out, b" | ")?;
    push_sequent(out, names, goal)?;
    push_bytes(out, b"\n")
}

/// Appends the text of a step by the justification of this number.
fn push_step(
    out: &mut Vec<u8>,
    names: &Names,
    theory: &Theory,
    justs: &List<Just>,
    just: JustId,
) -> Result<(), NoMemory>
    ensures { OnOk result (out.new.items ≡ out.old.items ++ step_text names.now theory.now (slice_get justs.now just.0)) }
{
    match justs.get(just.0 as u64) {
        Some(just) => push_just(out, names, theory, just),
        None => Ok(()),
    }
}
