ghost use Rattle.std.specs.Prelude.{◌≡◌, reverse, IfOk, OnOk};
ghost use Rattle.mp_treetext.specs.Values.{first_tree, put_line, roots_of};

use mp_logic::{JustId, List, NoMemory, Tree};
use mp_term::{Sequent, Term};
use std::alloc::Global;

/// A line of a tree: its depth, its goal, and the number of the justification that it is a step by; None for an open goal.
#[derive(Drop)]
pub(crate) struct Line {
    pub depth: u64,
    pub goal: Sequent,
    pub just: Option<JustId>,
}

/// A tree, and the depth of its first line.
#[derive(Drop)]
pub(crate) struct Root {
    pub depth: u64,
    pub tree: Tree<Sequent>,
}

/// The trees that these lines make, the first one last.
fn roots(alloc: Global, lines: List<Line>) -> Result<Vec<Root>, NoMemory>
    ensures { IfOk result (λ roots. reverse roots.items ≡ roots_of lines) }
{
    let mut lines = lines;
    let mut roots = Vec::new(alloc);
    while let Some(line) = lines.pop() {
        put_line(alloc, &mut roots, line)?;
    }
    Ok(roots)
}

/// One line more before the trees, of which the first one is last: it takes the deeper ones in front as its kids.
fn put_line(alloc: Global, roots: &mut Vec<Root>, line: Line) -> Result<(), NoMemory>
    ensures { OnOk result (reverse roots.new.items ≡ put_line line (reverse roots.old.items)) }
{
    let Line { depth, goal, just } = line;
    let mut kids = List::new(alloc);
    loop {
        match roots.pop() {
            None => break,
            Some(root) => {
                if root.depth <= depth {
                    if roots.push(root).is_err() {
                        return Err(NoMemory);
                    }
                    break;
                }
                if kids.push(root.tree).is_err() {
                    return Err(NoMemory);
                }
            }
        }
    }
    let tree = match just {
        None => Tree::Leaf(goal),
        Some(just) => Tree::Step { goal, just, kids },
    };
    match roots.push(Root { depth, tree }) {
        Ok(()) => Ok(()),
        Err(_) => Err(NoMemory),
    }
}

/// The first of the trees that these lines make, which is the only one where each line stands where it may.
pub(crate) fn tree_of_lines(alloc: Global, lines: List<Line>) -> Result<Tree<Sequent>, NoMemory>
    ensures { IfOk result (λ tree. tree ≡ first_tree (roots_of lines)) }
{
    let mut roots = roots(alloc, lines)?;
    match roots.pop() {
        Some(root) => Ok(root.tree),
        None => Ok(Tree::Leaf(Sequent {
            hyps: List::new(alloc),
            concl: Term::Var(0),
        })),
    }
}
