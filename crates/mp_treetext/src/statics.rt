ghost use Rattle.std.specs.Prelude.{◌≡◌, ◌<◌, ◌^◌, length, drop, List, IfOk, None};
ghost use Rattle.std.specs.List.{flat_map};
ghost use Rattle.mp_logic.specs.declared.sym.Sym.{Sym};
ghost use Rattle.mp_names.specs.Sets.{Met};
ghost use Rattle.mp_words.specs.Faults.{least, least_from};
ghost use Rattle.mp_treetext.specs.Statics.{block_faults, block_names, file_faults, is_count, is_due, may_follow, missing_tree_faults, written_faults, open_lines, order_faults, stand_faults, stand_of, state_faults, tree_line_faults, tree_lines_faults, unknown_goal_faults};

use crate::limits::MOST_LINE_DEPTH;
use crate::place::{line_end, line_start, spaces_at};
use crate::raw::{RawBlock, RawGoalLine, RawState, RawTreeLine};
use mp_logic::{List, NoMemory, Sym};
use mp_names::NameSet;
use mp_steptext::{GivenTerm, RawStep, check_step};
use mp_strategy::MOST_NODES;
use mp_termtext::{RawBound, check_sequent};
use mp_theory::Theory;
use mp_words::{RawName, TextErr, TextWhy, check_number, sooner_if, sooner_of};
use std::alloc::Global;

/// How a line of a tree stands: its depth, and whether its goal is open.
#[derive(Clone, Copy)]
pub(crate) struct Stand {
    pub depth: u64,
    pub is_open: bool,
}

/// How this line stands in the source.
fn stand_of(source: &[u8], line: &RawTreeLine) -> Stand
    ensures { result ≡ stand_of source.now line.now }
{
    Stand {
        depth: spaces_at(source, line.at) / 2,
        is_open: line.step.is_none(),
    }
}

/// Whether a line of this depth may follow the one before it.
fn may_follow(before: Option<Stand>, depth: u64) -> bool
    ensures { result ≡ may_follow before depth }
{
    match before {
        None => depth == 0,
        Some(before) => {
            depth > 0 && depth - 1 <= before.depth && !(before.is_open && before.depth < depth)
        }
    }
}

/// The earliest of the fault that is held and those of how a line stands after the one before it.
fn check_stand(
    source: &[u8],
    before: Option<Stand>,
    line: &RawTreeLine,
    held: Option<TextErr>,
) -> Option<TextErr>
    ensures { result ≡ least_from held (stand_faults source.now before line.now) }
{
    let start = line_start(source, line.at);
    let spaces = spaces_at(source, line.at);
    let depth = spaces / 2;
    let held = sooner_if(held, depth > MOST_LINE_DEPTH, start, TextWhy::TooDeep);
    let misplaced = spaces % 2 == 1 || !may_follow(before, depth);
    sooner_if(held, misplaced, start, TextWhy::BadIndent)
}

/// The earliest of the fault that is held and those of the step, if there is one.
fn check_node(
    alloc: Global,
    theory: &Theory,
    step: &Option<RawStep<RawBound>>,
    held: Option<TextErr>,
) -> Result<Option<TextErr>, NoMemory>
    ensures { IfOk result (λ found. found ≡ least_from held (written_faults theory.now step.now)) }
{
    match step {
        Some(step) => check_step::<GivenTerm>(alloc, theory, step, held),
        None => Ok(held),
    }
}

/// The earliest of the fault that is held and those of a line of a tree after the one before it.
#[tactic(auto, using(mp_words::proofs::Soonest::least_from_append))]
fn check_tree_line(
    alloc: Global,
    theory: &Theory,
    source: &[u8],
    before: Option<Stand>,
    line: &RawTreeLine,
    held: Option<TextErr>,
) -> Result<Option<TextErr>, NoMemory>
    ensures { IfOk result (λ found. found ≡ least_from held (tree_line_faults theory.now source.now before line.now)) }
{
    let held = check_stand(source, before, line, held);
    let held = check_node(alloc, theory, &line.step, held)?;
    check_sequent(alloc, &line.goal, held)
}

/// The earliest of the fault that is held and those of the lines of a tree.
fn check_tree_lines(
    alloc: Global,
    theory: &Theory,
    source: &[u8],
    lines: &[RawTreeLine],
    held: Option<TextErr>,
) -> Result<Option<TextErr>, NoMemory>
    ensures { IfOk result (λ found. found ≡ least_from held (tree_lines_faults theory.now source.now None lines.now)) }
{
    let mut held = held;
    let mut before = None;
    for line in lines {
        held = check_tree_line(alloc, theory, source, before, line, held)?;
        before = Some(stand_of(source, line));
    }
    Ok(held)
}

/// The number of lines whose goal is open.
fn open_lines(lines: &[RawTreeLine]) -> u64
    ensures { result ≡ open_lines lines.now }
{
    let mut count = 0u64;
    for line in lines {
        if line.step.is_none() {
            count += 1;
        }
    }
    count
}

/// Whether the number that is written is this count, which isn't 0.
fn is_count(number: i64, count: u64) -> bool
    ensures { result ≡ is_count number count }
{
    number > 0 && number as u64 == count
}

/// The sooner one of the fault that is held and that of a tree that is missing after this place.
fn check_missing(
    source: &[u8],
    at: u32,
    lines: &[RawTreeLine],
    held: Option<TextErr>,
) -> Option<TextErr>
    requires { length source.now < 2 ^ 32 }
    ensures { result ≡ least_from held (missing_tree_faults source.now at lines.now) }
{
    if lines.is_empty() {
        sooner_of(held, line_end(source, at), TextWhy::BadIndent)
    } else {
        held
    }
}

/// The earliest of the fault that is held and those of what is written of the goal, which these lines follow.
fn check_state(
    alloc: Global,
    source: &[u8],
    goal: &RawGoalLine,
    lines: &[RawTreeLine],
    held: Option<TextErr>,
) -> Result<Option<TextErr>, NoMemory>
    requires { length source.now < 2 ^ 32 }
    ensures { IfOk result (λ found. found ≡ least_from held (state_faults source.now goal.now goal.now.state lines.now)) }
{
    match &goal.state {
        RawState::Closed => {
            let wrong = open_lines(lines) > 0;
            let held = sooner_if(held, wrong, goal.at, TextWhy::CountDiffers);
            Ok(check_missing(source, goal.name.at, lines, held))
        }
        RawState::Open(count) => {
            let wrong = !is_count(count.value, open_lines(lines));
            let held = sooner_if(held, wrong, goal.at, TextWhy::CountDiffers);
            Ok(check_missing(source, goal.name.at, lines, held))
        }
        RawState::Failed(failure) => {
            let held = check_number(held, 1, MOST_NODES as u32, failure.tac);
            check_sequent(alloc, &failure.goal, held)
        }
    }
}

/// The earliest of the fault that is held and those of a block but of its name.
#[tactic(auto, using(mp_words::proofs::Soonest::least_from_append))]
fn check_block(
    alloc: Global,
    theory: &Theory,
    source: &[u8],
    block: &RawBlock,
    held: Option<TextErr>,
) -> Result<Option<TextErr>, NoMemory>
    requires { length source.now < 2 ^ 32 }
    ensures { IfOk result (λ found. found ≡ least_from held (block_faults theory.now source.now block.now)) }
{
    let lines = block.lines.as_slice();
    let held = check_state(alloc, source, &block.goal, lines, held)?;
    check_tree_lines(alloc, theory, source, lines, held)
}

/// The earliest of the fault that is held and those of blocks but of their names.
fn check_blocks(
    alloc: Global,
    theory: &Theory,
    source: &[u8],
    blocks: &[RawBlock],
    held: Option<TextErr>,
) -> Result<Option<TextErr>, NoMemory>
    requires { length source.now < 2 ^ 32 }
    ensures { IfOk result (λ found. found ≡ least_from held (flat_map (block_faults theory.now source.now) blocks.now)) }
{
    let mut held = held;
    for block in blocks {
        held = check_block(alloc, theory, source, block, held)?;
    }
    Ok(held)
}

/// The names of these goals.
fn goal_names(alloc: Global, goals: &[Sym]) -> Result<NameSet, NoMemory>
    ensures { IfOk result (λ names. Met names goals.now) }
{
    let mut names = NameSet::new(alloc);
    for goal in goals {
        names.meet(*goal)?;
    }
    Ok(names)
}

/// The sooner one of the fault that is held and UnknownName, for a name that isn't among these names of goals.
fn check_unknown(held: Option<TextErr>, names: &NameSet, name: RawName) -> Option<TextErr>
    ensures { (goals : List Sym) → Met names.now goals → result ≡ least_from held (unknown_goal_faults goals name) }
{
    match names.place(name.name) {
        Some(_) => held,
        None => sooner_of(held, name.at, TextWhy::UnknownName),
    }
}

/// The earliest of the fault that is held and those of blocks whose name is no goal's.
fn check_names(
    alloc: Global,
    goals: &[Sym],
    blocks: &[RawBlock],
    held: Option<TextErr>,
) -> Result<Option<TextErr>, NoMemory>
    ensures { IfOk result (λ found. found ≡ least_from held (flat_map (unknown_goal_faults goals.now) (block_names blocks.now))) }
{
    let names = goal_names(alloc, goals)?;
    let mut held = held;
    for block in blocks {
        held = check_unknown(held, &names, block.goal.name);
    }
    Ok(held)
}

/// Whether the name is that of the first of the goals that are due.
fn is_due(due: &[Sym], name: RawName) -> bool
    ensures { result ≡ is_due due.now name }
{
    match due.first() {
        Some(goal) => goal.0 == name.name.0,
        None => false,
    }
}

/// The goals after the first one.
fn after_first(goals: &[Sym]) -> &[Sym]
    ensures { result.now ≡ drop 1 goals.now }
{
    match goals.split_first() {
        Some((_, rest)) => rest,
        None => goals,
    }
}

/// The earliest of the fault that is held and those of blocks that aren't those of the goals in their order.
fn check_order(
    source: &[u8],
    goals: &[Sym],
    blocks: &[RawBlock],
    held: Option<TextErr>,
) -> Option<TextErr>
    requires { length source.now < 2 ^ 32 }
    ensures { result ≡ least_from held (order_faults (length source.now) goals.now (block_names blocks.now)) }
{
    let mut held = held;
    let mut due = goals;
    for block in blocks {
        let name = block.goal.name;
        held = sooner_if(held, !is_due(due, name), name.at, TextWhy::WrongGoal);
        due = after_first(due);
    }
    sooner_if(
        held,
        !due.is_empty(),
        source.len() as u32,
        TextWhy::WrongGoal,
    )
}

/// The least static fault of a tree file for these goals, in a theory. None exactly where no static rule is broken.
#[tactic(auto, using(mp_words::proofs::Soonest::least_from_append))]
pub(crate) fn file_fault(
    alloc: Global,
    theory: &Theory,
    goals: &[Sym],
    source: &[u8],
    blocks: &[RawBlock],
) -> Result<Option<TextErr>, NoMemory>
    requires { length source.now < 2 ^ 32 }
    ensures { IfOk result (λ found. found ≡ least (file_faults theory.now goals.now source.now blocks.now)) }
{
    let held = check_names(alloc, goals, blocks, None)?;
    let held = check_order(source, goals, blocks, held);
    check_blocks(alloc, theory, source, blocks, held)
}
