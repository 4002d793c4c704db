ghost use Rattle.std.specs.Prelude.{◌≡◌, ◌++◌, OnOk, IfOk};
ghost use Rattle.mp_report.specs.Checks.{bad_node_text, check_text, step_refusal_text};
ghost use Rattle.mp_report.specs.Checks.{checked_text as checked_text_of};

use mp_logic::{List, NoMemory, Sym, Text, Why};
use mp_names::Names;
use mp_termtext::{push_bytes, push_decimal};
use std::alloc::Global;

/// What is wrong with a node of a tree.
#[derive(Clone, Copy, Debug, PartialEq, Eq)]
pub enum BadNode {
    /// The tree is for another goal than the script's.
    Goal,
    /// The step gives other subgoals than the kids' goals.
    Kids,
    /// The step is refused.
    Refused(Why),
}

/// What is said of a goal's block in a tree file.
#[derive(Clone, Copy, Debug, PartialEq, Eq)]
pub enum Checked {
    /// The tree is valid for the goal, and has no open leaf.
    Closed,
    /// The tree is valid for the goal, and has so many open leaves.
    Open(u64),
    /// The block tells a failure, which has no proof to check.
    Unchecked,
    /// The tree isn't valid for the goal: its first bad node, counted from 1 in preorder, and what is wrong with it.
    Bad { node: u64, cause: BadNode },
}

/// The line of a goal's block that was checked.
pub fn checked_text(
    alloc: Global,
    names: &Names,
    name: Sym,
    checked: Checked,
) -> Result<Text, NoMemory>
    ensures { IfOk result (λ text. text ≡ checked_text_of names.now name checked) }
{
    let mut out = Vec::new(alloc);
    push_checked(&mut out, names, name, checked)?;
    Ok(List::from_vec(out))
}

/// Appends the line of a goal's block that was checked. Where there is no memory, some of it may have
/// been appended.
pub fn push_checked(
    out: &mut Vec<u8>,
    names: &Names,
    name: Sym,
    checked: Checked,
) -> Result<(), NoMemory>
    ensures { OnOk result (out.new.items ≡ out.old.items ++ checked_text_of names.now name checked) }
{
    push_bytes(out, b"goal ")?;
    push_bytes(out, names.text(name))?;
    push_bytes(out, b": ")?;
    push_check(out, checked)
}

/// Appends what stands after the goal's name.
fn push_check(out: &mut Vec<u8>, checked: Checked) -> Result<(), NoMemory>
    ensures { OnOk result (out.new.items ≡ out.old.items ++ check_text checked) }
{
    match checked {
        Checked::Closed => push_bytes(out, b"valid closed\n"),
        Checked::Open(leaves) => {
            push_bytes(out, b"valid ")?;
            push_decimal(out, leaves)?;
            push_bytes(out, b" open\n")
        }
        Checked::Unchecked => push_bytes(out, b"failed unchecked\n"),
        Checked::Bad { node, cause } => {
            push_bytes(out, b"bad node ")?;
            push_decimal(out, node)?;
            push_bytes(out, b": ")?;
            push_bad_node(out, cause)?;
            push_bytes(out, b"\n")
        }
    }
}

/// Appends what is wrong with a node.
fn push_bad_node(out: &mut Vec<u8>, cause: BadNode) -> Result<(), NoMemory>
    ensures { OnOk result (out.new.items ≡ out.old.items ++ bad_node_text cause) }
{
    match cause {
        BadNode::Goal => push_bytes(out, b"goal"),
        BadNode::Kids => push_bytes(out, b"kids"),
        BadNode::Refused(why) => push_step_refusal(out, why),
    }
}

/// Appends the name of the refusal.
fn push_step_refusal(out: &mut Vec<u8>, why: Why) -> Result<(), NoMemory>
    ensures { OnOk result (out.new.items ≡ out.old.items ++ step_refusal_text why) }
{
    match why {
        Why::NoMatch => push_bytes(out, b"NoMatch"),
        Why::BadArgument => push_bytes(out, b"BadArgument"),
        Why::BadAddress => push_bytes(out, b"BadAddress"),
        Why::UnderBinder => push_bytes(out, b"UnderBinder"),
        Why::TooLarge => push_bytes(out, b"TooLarge"),
    }
}
