ghost use Rattle.std.specs.Prelude.{◌≡◌, ◌+◌, ◌∷◌, [], max, map, IfOk};
ghost use Rattle.mp_logic.specs.Trees.{counted};
ghost use Rattle.mp_strategy.specs.declared.limits.TheConstants.{MOST_BRANCHES};
ghost use Rattle.mp_words.specs.Faults.{least_from, too_many};
ghost use Rattle.mp_scripttext.specs.Statics.{entry_faults, seen_of, shape_faults};
ghost use Rattle.mp_scripttext.specs.Strategies.{Strategy, atom_strategy, deepest, link_of, nodes_of, prefix_faults, prefix_link, strategy_of};

use crate::raw::{RawAtom, RawEntry, RawLink, RawPrefix, RawStrategy};
use crate::seen::Seen;
use mp_logic::NoMemory;
use mp_steptext::{GivenTerm, check_step};
use mp_strategy::{MOST_BRANCHES, MOST_DEPTH, MOST_FUEL, MOST_NODES, MOST_REPEATS};
use mp_termtext::check_sequent;
use mp_theory::Theory;
use mp_words::{TextErr, TextWhy, check_number, check_written_number, sooner_of};
use std::alloc::Global;

/// The sooner one of the fault that is held and TooMany, at the ninth branch of a race.
fn check_branches(held: Option<TextErr>, branches: &[RawStrategy]) -> Option<TextErr>
    ensures { result ≡ least_from held (too_many (λ b. b.at) MOST_BRANCHES branches.now) }
{
    match branches.get(MOST_BRANCHES as usize) {
        Some(branch) => sooner_of(held, branch.at, TextWhy::TooMany),
        None => held,
    }
}

/// The sooner one of the fault that is held and that of the number of a prefix.
fn check_prefix(held: Option<TextErr>, prefix: RawPrefix) -> Option<TextErr>
    ensures { result ≡ least_from held (prefix_faults prefix) }
{
    match prefix {
        RawPrefix::Repeat(number) => check_number(held, 0, MOST_REPEATS, number),
        _ => held,
    }
}

/// What is seen of a prefix and its argument, where this is seen of the argument: `try` has a further part, `id`.
fn with_prefix(prefix: RawPrefix, argument: Seen) -> Seen
    ensures nodes { result.nodes ≡ counted (1 + argument.nodes + nodes_of (prefix_link prefix).parts) }
    ensures depth { result.depth ≡ counted (1 + max argument.depth (deepest (prefix_link prefix).parts)) }
    ensures held { result.held ≡ argument.held }
{
    match prefix {
        RawPrefix::Try => argument.and(Seen::nothing(argument.held).below()).below(),
        _ => argument.below(),
    }
}

/// What is seen of an atom.
#[cycle(seeing)]
fn see_atom(
    alloc: Global,
    theory: &Theory,
    raw: &RawAtom,
    held: Option<TextErr>,
) -> Result<Seen, NoMemory>
    ensures { IfOk result (λ seen. seen ≡ seen_of theory.now held (atom_strategy raw.now ∷ [])) }
{
    match raw {
        RawAtom::Id => Ok(Seen::nothing(held).below()),
        RawAtom::Fail => Ok(Seen::nothing(held).below()),
        RawAtom::Step(step) => {
            let held = check_step::<GivenTerm>(alloc, theory, step, held)?;
            Ok(Seen::nothing(held).below())
        }
        RawAtom::Race(branches) => {
            let held = check_branches(held, branches.as_slice());
            let seen = see_strategies(alloc, theory, branches.as_slice(), held)?;
            Ok(seen.below())
        }
        RawAtom::Prefix(prefix, argument) => {
            let held = check_prefix(held, *prefix);
            let seen = see_atom(alloc, theory, argument.get(), held)?;
            Ok(with_prefix(*prefix, seen))
        }
        RawAtom::Group(inner) => see_strategy(alloc, theory, inner.get(), held),
    }
}

/// What is seen of the further parts that a link has.
#[cycle(seeing)]
fn see_link(
    alloc: Global,
    theory: &Theory,
    raw: &RawLink,
    held: Option<TextErr>,
) -> Result<Seen, NoMemory>
    ensures { IfOk result (λ seen. seen ≡ seen_of theory.now held (link_of raw.now).parts) }
{
    match raw {
        RawLink::Then(atom) => see_atom(alloc, theory, atom, held),
        RawLink::ThenL(strategies) => see_strategies(alloc, theory, strategies.as_slice(), held),
        RawLink::OrElse(chain) => see_strategy(alloc, theory, chain, held),
    }
}

/// What is seen of a strategy.
#[cycle(seeing)]
fn see_strategy(
    alloc: Global,
    theory: &Theory,
    raw: &RawStrategy,
    held: Option<TextErr>,
) -> Result<Seen, NoMemory>
    ensures { IfOk result (λ seen. seen ≡ seen_of theory.now held (strategy_of raw.now ∷ [])) }
{
    let mut seen = see_atom(alloc, theory, &raw.first, held)?;
    for link in raw.links.as_slice() {
        let further = see_link(alloc, theory, link, seen.held)?;
        seen = seen.and(further).below();
    }
    Ok(seen)
}

/// What is seen of strategies that stand side by side.
#[cycle(seeing)]
fn see_strategies(
    alloc: Global,
    theory: &Theory,
    raws: &[RawStrategy],
    held: Option<TextErr>,
) -> Result<Seen, NoMemory>
    ensures { IfOk result (λ seen. seen ≡ seen_of theory.now held (map strategy_of raws.now)) }
{
    let mut seen = Seen::nothing(held);
    for raw in raws {
        let further = see_strategy(alloc, theory, raw, seen.held)?;
        seen = seen.and(further);
    }
    Ok(seen)
}

/// The sooner one of the fault that is seen and those of the size of a goal's strategy, of which this is seen.
fn check_shape(seen: Seen, raw: &RawEntry) -> Option<TextErr>
    ensures { (s : Strategy) → counted s.nodes ≡ seen.nodes → counted s.depth ≡ seen.depth → result ≡ least_from seen.held (shape_faults raw.now s) }
{
    let mut held = seen.held;
    if seen.nodes > MOST_NODES as u64 {
        held = sooner_of(held, raw.name.at, TextWhy::TooMany);
    }
    if seen.depth > u64::from(MOST_DEPTH) {
        held = sooner_of(held, raw.strategy.at, TextWhy::TooDeep);
    }
    held
}

/// The earliest of the fault that is held and those of a goal, but that its name is taken.
pub(crate) fn check_entry(
    alloc: Global,
    theory: &Theory,
    raw: &RawEntry,
    held: Option<TextErr>,
) -> Result<Option<TextErr>, NoMemory>
    ensures { IfOk result (λ found. found ≡ least_from held (entry_faults theory.now raw.now)) }
{
    let held = check_written_number(held, 0, MOST_FUEL, raw.fuel);
    let held = check_sequent(alloc, &raw.goal, held)?;
    let seen = see_strategy(alloc, theory, &raw.strategy, held)?;
    Ok(check_shape(seen, raw))
}
