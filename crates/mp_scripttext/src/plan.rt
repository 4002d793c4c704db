ghost use Rattle.std.specs.Prelude.{◌≡◌, ◌≤◌, ◌<◌, ◌+◌, ◌++◌, ◌∷◌, [], ℕ, List, length, map, set, IfOk, OnOk};
ghost use Rattle.mp_strategy.specs.declared.limits.TheConstants.{MOST_NODES};
ghost use Rattle.mp_strategy.specs.declared.tactic.Tac.TheVariants as tac;
ghost use Rattle.mp_theory.specs.Tables.{Laws};
ghost use Rattle.mp_steptext.specs.Terms.{just_of};
ghost use Rattle.mp_scripttext.specs.Plans.{CanClose, HasRoom, closed, grown, holes};
ghost use Rattle.mp_scripttext.specs.Strategies.{atom_strategy, link_of, nodes_of, numbers, prefix_faults, prefix_link, race_row, step_alone, strategy_of};

use crate::raw::{RawAtom, RawLink, RawPrefix, RawStrategy};
use mp_logic::{JustId, List, NoMemory};
use mp_steptext::{RawStep, build_just};
use mp_strategy::{Tac, TacId};
use mp_termtext::RawBound;
use mp_theory::{Just, Theory};
use std::alloc::Global;

/// A table of strategies that is made row by row, and the justifications that its steps name.
#[derive(Drop)]
pub(crate) struct Plan {
    pub tacs: List<Tac>,
    pub justs: List<Just>,
}

/// The number of the next row.
fn next_row(plan: &Plan) -> TacId
    requires { length plan.now.tacs ≤ MOST_NODES }
    ensures { result.0 ≡ length plan.now.tacs }
{
    TacId(plan.tacs.len() as u32)
}

/// Adds a row.
fn push_row(plan: &mut Plan, row: Tac) -> Result<(), NoMemory>
    ensures { OnOk result (plan.new ≡ record { tacs = plan.old.tacs ++ row ∷ []; justs = plan.old.justs }) }
{
    match plan.tacs.push(row) {
        Ok(()) => Ok(()),
        Err((_, refused)) => Err(refused),
    }
}

/// Writes a row anew.
fn set_row(plan: &mut Plan, at: TacId, row: Tac)
    requires { at.0 < length plan.old.tacs }
    ensures { plan.new ≡ record { tacs = set plan.old.tacs at.0 row; justs = plan.old.justs } }
{
    *plan.tacs.item_mut(at.0 as u64) = row;
}

/// Adds so many rows that are still to be written.
fn push_holes(plan: &mut Plan, count: u64) -> Result<(), NoMemory>
    ensures { OnOk result (plan.new ≡ record { tacs = plan.old.tacs ++ holes count; justs = plan.old.justs }) }
{
    for _ in 0..count {
        push_row(plan, Tac::Id)?;
    }
    Ok(())
}

/// Adds the row and the justification of a step.
fn push_step(
    alloc: Global,
    theory: &Theory,
    plan: &mut Plan,
    step: &RawStep<RawBound>,
) -> Result<(), NoMemory>
    requires { HasRoom theory.now (step_alone step.now ∷ []) plan.old }
    ensures { OnOk result (plan.new ≡ grown theory.now (step_alone step.now ∷ []) plan.old) }
{
    let number = JustId(plan.justs.len() as u32);
    push_row(plan, Tac::Step(number))?;
    let just = build_just(alloc, theory, step)?;
    match plan.justs.push(just) {
        Ok(()) => Ok(()),
        Err((_, refused)) => Err(refused),
    }
}

/// The row of a race between these branches.
fn race(branches: List<TacId>) -> Tac
    ensures { result ≡ race_row branches }
{
    if branches.as_slice().is_empty() {
        Tac::Fail
    } else {
        Tac::Race(branches)
    }
}

/// Writes the row of a prefix over its argument, which stands after it. `try` has a further part, `id`.
fn close_prefix(plan: &mut Plan, at: TacId, prefix: RawPrefix) -> Result<(), NoMemory>
    requires there { at.0 < length plan.old.tacs }
    requires faultless { prefix_faults prefix ≡ [] }
    requires room { length plan.old.tacs + nodes_of (prefix_link prefix).parts ≤ MOST_NODES }
    ensures { OnOk result ((t : Laws) → plan.new ≡ closed t at.0 (prefix_link prefix) plan.old) }
{
    let argument = TacId(at.0 + 1);
    let row = match prefix {
        RawPrefix::Try => {
            let other = next_row(plan);
            push_row(plan, Tac::Id)?;
            Tac::Else(argument, other)
        }
        RawPrefix::Repeat(times) => Tac::Repeat(times.value as u32, argument),
        RawPrefix::Progress => Tac::Progress(argument),
        RawPrefix::Complete => Tac::Complete(argument),
    };
    set_row(plan, at, row);
    Ok(())
}

/// Adds the rows of an atom.
#[cycle(planning)]
fn push_atom(alloc: Global, theory: &Theory, plan: &mut Plan, raw: &RawAtom) -> Result<(), NoMemory>
    requires { HasRoom theory.now (atom_strategy raw.now ∷ []) plan.old }
    ensures { OnOk result (plan.new ≡ grown theory.now (atom_strategy raw.now ∷ []) plan.old) }
{
    match raw {
        RawAtom::Id => push_row(plan, Tac::Id),
        RawAtom::Fail => push_row(plan, Tac::Fail),
        RawAtom::Step(step) => push_step(alloc, theory, plan, step),
        RawAtom::Race(branches) => {
            let at = next_row(plan);
            push_row(plan, Tac::Id)?;
            let numbers = push_strategies(alloc, theory, plan, branches.as_slice())?;
            set_row(plan, at, race(numbers));
            Ok(())
        }
        RawAtom::Prefix(prefix, argument) => {
            let at = next_row(plan);
            push_row(plan, Tac::Id)?;
            push_atom(alloc, theory, plan, argument.get())?;
            close_prefix(plan, at, *prefix)
        }
        RawAtom::Group(inner) => push_strategy(alloc, theory, plan, inner.get()),
    }
}

/// Adds the rows of the further parts of a link, and writes its row over them and over what stands after that row.
#[cycle(planning)]
fn close_link(
    alloc: Global,
    theory: &Theory,
    plan: &mut Plan,
    at: TacId,
    raw: &RawLink,
) -> Result<(), NoMemory>
    requires { CanClose theory.now at.0 (link_of raw.now) plan.old }
    ensures { OnOk result (plan.new ≡ closed theory.now at.0 (link_of raw.now) plan.old) }
{
    let first = TacId(at.0 + 1);
    let next = next_row(plan);
    match raw {
        RawLink::Then(atom) => {
            push_atom(alloc, theory, plan, atom)?;
            set_row(plan, at, Tac::Then(first, next));
            Ok(())
        }
        RawLink::ThenL(strategies) => {
            let others = push_strategies(alloc, theory, plan, strategies.as_slice())?;
            set_row(plan, at, Tac::ThenL(first, others));
            Ok(())
        }
        RawLink::OrElse(chain) => {
            push_strategy(alloc, theory, plan, chain)?;
            set_row(plan, at, Tac::Else(first, next));
            Ok(())
        }
    }
}

// The last link stands above the others. So there is a row to be written for each link first, and each is written once the
// parts before it and its own stand behind it.
#[cycle(planning)]
fn push_strategy(
    alloc: Global,
    theory: &Theory,
    plan: &mut Plan,
    raw: &RawStrategy,
) -> Result<(), NoMemory>
    requires { HasRoom theory.now (strategy_of raw.now ∷ []) plan.old }
    ensures { OnOk result (plan.new ≡ grown theory.now (strategy_of raw.now ∷ []) plan.old) }
{
    push_holes(plan, raw.links.len())?;
    let mut at = next_row(plan);
    push_atom(alloc, theory, plan, &raw.first)?;
    for link in raw.links.as_slice() {
        at.0 -= 1;
        close_link(alloc, theory, plan, at, link)?;
    }
    Ok(())
}

/// Adds the rows of strategies one after the other, and answers their numbers.
#[cycle(planning)]
fn push_strategies(
    alloc: Global,
    theory: &Theory,
    plan: &mut Plan,
    raws: &[RawStrategy],
) -> Result<List<TacId>, NoMemory>
    requires { HasRoom theory.now (map strategy_of raws.now) plan.old }
    ensures rows { OnOk result (plan.new ≡ grown theory.now (map strategy_of raws.now) plan.old) }
    ensures numbers { IfOk result (λ ids. ids ≡ numbers (map strategy_of raws.now) (length plan.old.tacs)) }
{
    let mut ids = List::new(alloc);
    for raw in raws {
        let id = next_row(plan);
        push_strategy(alloc, theory, plan, raw)?;
        if let Err((_, refused)) = ids.push(id) {
            return Err(refused);
        }
    }
    Ok(ids)
}

/// The table of a strategy and its justifications, numbered in preorder.
pub(crate) fn plan_of(alloc: Global, theory: &Theory, raw: &RawStrategy) -> Result<Plan, NoMemory>
    requires faultless { (strategy_of raw.now).faults theory.now ≡ [] }
    requires few { (strategy_of raw.now).nodes ≤ MOST_NODES }
    ensures rows { IfOk result (λ plan. plan.tacs ≡ (strategy_of raw.now).rows 0 0) }
    ensures justs { IfOk result (λ plan. plan.justs ≡ map (just_of theory.now) (strategy_of raw.now).steps) }
{
    let mut plan = Plan {
        tacs: List::new(alloc),
        justs: List::new(alloc),
    };
    push_strategy(alloc, theory, &mut plan, raw)?;
    Ok(plan)
}
