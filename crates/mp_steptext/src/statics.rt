ghost use Rattle.std.specs.Prelude.{◌≡◌, Some, IfOk, IfSome};
ghost use Rattle.std.specs.List.{flat_map, list_all};
ghost use Rattle.std.specs.Option.{option_copied};
ghost use Rattle.mp_term.specs.declared.limits.TheConstants.{MOST_NODES};
ghost use Rattle.mp_theory.specs.Tables.{IsRule, rule_named};
ghost use Rattle.mp_words.specs.Faults.{is_behind, least_from};
ghost use Rattle.mp_words.specs.Ranges.{number_faults};
ghost use Rattle.mp_steptext.specs.Names.{AreNew, need_numbers};
ghost use Rattle.mp_steptext.specs.Statics.{address_faults, all_given_faults, body_faults, given_faults, hypothesis_faults, missing_faults, need_faults, place_faults, named_rule_faults, rewrite_step_faults, rule_step_faults, step_faults};

use crate::body::Body;
use crate::names::{find_need, given_names, need_names};
use crate::raw::{RawGiven, RawPlace, RawRewriteStep, RawRuleStep, RawStep};
use mp_logic::{NoMemory, Sym};
use mp_schema::has_two_contexts;
use mp_term::limits::{MOST_DEPTH, MOST_HYPOTHESES, MOST_NODES};
use mp_theory::{Need, Rule, Theory};
use mp_words::{
    RawNumber, TextErr, TextWhy, behind, check_number, check_second, check_written_number,
    sooner_if, sooner_of,
};
use std::alloc::Global;

/// The greatest number of a hypothesis.
const MOST_HYPOTHESIS: u32 = MOST_HYPOTHESES as u32;

/// The greatest number after `at`: one more than a sequent has hypotheses.
const MOST_PLACE: u32 = MOST_HYPOTHESIS + 1;

/// The greatest number of a subterm: no operator has more of them.
const MOST_SUBTERM: u32 = MOST_NODES as u32;

/// The rule of this name.
fn find_rule(theory: &Theory, name: Sym) -> Option<&Rule>
    ensures rule { option_copied result ≡ rule_named theory.now name }
    ensures whole { IfSome result (λ rule. IsRule rule.now) }
{
    let place = theory.rule_named(name)?;
    theory.rule(place)
}

/// The sooner one of the fault that is held and AtNeeded or AtRefused: `at` has to stand exactly where the conclusion of the
/// rule has two contexts.
fn check_place<R>(held: Option<TextErr>, rule: &Rule, raw: &RawRuleStep<R>) -> Option<TextErr>
    ensures { result ≡ least_from held (place_faults rule.now raw.now raw.now.place) }
{
    let needed = has_two_contexts(&rule.concl);
    match raw.place {
        None if needed => sooner_of(held, raw.rule.at, TextWhy::AtNeeded),
        Some(place) if !needed => sooner_of(held, place.at, TextWhy::AtRefused),
        _ => held,
    }
}

// All needs that aren't given are told at one place, so the first one ends the search. Behind a fault that is held no need
// is looked for.
fn check_missing<R>(
    alloc: Global,
    held: Option<TextErr>,
    needs: &[Need],
    raw: &RawRuleStep<R>,
) -> Result<Option<TextErr>, NoMemory>
    ensures { IfOk result (λ found. found ≡ least_from held (flat_map (missing_faults raw.now) needs.now)) }
{
    if behind(held, raw.rule.at) {
        return Ok(held);
    }
    let names = given_names(alloc, raw.given.as_slice())?;
    for need in needs {
        if names.place(need.name).is_none() {
            return Ok(sooner_of(held, raw.rule.at, TextWhy::MissingWith));
        }
    }
    Ok(held)
}

fn check_need<B: Body>(
    held: Option<TextErr>,
    need: Option<&Need>,
    raw: &RawGiven<B::Raw>,
) -> Option<TextErr>
    ensures { result ≡ least_from held (need_faults B.arity B.faults (option_copied need.entry) raw.now) }
{
    match need {
        None => sooner_of(held, raw.name.at, TextWhy::ExtraWith),
        Some(need) => {
            if u64::from(need.arity) == B::arity(&raw.body) {
                held
            } else {
                sooner_of(held, raw.name.at, TextWhy::BadArity)
            }
        }
    }
}

/// Whether the names of all that is given are after the fault that is held.
fn are_behind<R>(held: Option<TextErr>, given: &[RawGiven<R>]) -> bool
    ensures { result ≡ list_all (λ g. is_behind held g.name.at) given.now }
{
    for raw in given {
        if !behind(held, raw.name.at) {
            return false;
        }
    }
    true
}

/// The earliest of the fault that is held and those of each one that is given. The needs have different names.
fn check_given<B: Body>(
    alloc: Global,
    held: Option<TextErr>,
    needs: &[Need],
    given: &[RawGiven<B::Raw>],
) -> Result<Option<TextErr>, NoMemory>
    requires { AreNew (need_numbers needs.now) }
    ensures { IfOk result (λ found. found ≡ least_from held (flat_map (given_faults B.arity B.faults needs.now) given.now)) }
{
    let names = need_names(alloc, needs)?;
    let mut held = held;
    for raw in given {
        held = check_need::<B>(held, find_need(needs, &names, raw.name.name), raw);
    }
    Ok(held)
}

/// The earliest of the fault that is held and those of all that is given. The needs have different names.
// Behind a fault that is held no name is looked for. So the needs of a rule are gone through only for a step that gives all of
// them, and for the first step that doesn't.
fn check_all_given<B: Body>(
    alloc: Global,
    held: Option<TextErr>,
    needs: &[Need],
    given: &[RawGiven<B::Raw>],
) -> Result<Option<TextErr>, NoMemory>
    requires { AreNew (need_numbers needs.now) }
    ensures { IfOk result (λ found. found ≡ least_from held (all_given_faults B.arity B.faults needs.now given.now)) }
{
    if are_behind(held, given) {
        return Ok(held);
    }
    let held = check_given::<B>(alloc, held, needs, given)?;
    let found = check_second(alloc, given, TextWhy::TwiceWith, held)?;
    Ok(found)
}

/// The earliest of the fault that is held and those of a step by this rule.
fn check_rule<B: Body>(
    alloc: Global,
    held: Option<TextErr>,
    rule: &Rule,
    raw: &RawRuleStep<B::Raw>,
) -> Result<Option<TextErr>, NoMemory>
    requires { IsRule rule.now }
    ensures { IfOk result (λ found. found ≡ least_from held (named_rule_faults B.arity B.faults (Some rule.now) raw.now)) }
{
    let held = check_place(held, rule, raw);
    let held = check_missing(alloc, held, rule.needs.as_slice(), raw)?;
    let found = check_all_given::<B>(alloc, held, rule.needs.as_slice(), raw.given.as_slice())?;
    Ok(found)
}

/// The earliest of the fault that is held and those of what is given by itself.
fn check_bodies<B: Body>(
    alloc: Global,
    given: &[RawGiven<B::Raw>],
    held: Option<TextErr>,
) -> Result<Option<TextErr>, NoMemory>
    ensures { IfOk result (λ found. found ≡ least_from held (flat_map (body_faults B.arity B.faults) given.now)) }
{
    let mut held = held;
    for raw in given {
        held = B::check(alloc, &raw.body, raw.at, held)?;
    }
    Ok(held)
}

/// The earliest of the fault that is held and those of a step by a rule.
fn check_rule_step<B: Body>(
    alloc: Global,
    theory: &Theory,
    raw: &RawRuleStep<B::Raw>,
    held: Option<TextErr>,
) -> Result<Option<TextErr>, NoMemory>
    ensures { IfOk result (λ found. found ≡ least_from held (rule_step_faults B.arity B.faults theory.now raw.now)) }
{
    let held = check_written_number(held, 1, MOST_PLACE, raw.place);
    let held = check_bodies::<B>(alloc, raw.given.as_slice(), held)?;
    let Some(rule) = find_rule(theory, raw.rule.name) else {
        return Ok(sooner_of(held, raw.rule.at, TextWhy::UnknownName));
    };
    let found = check_rule::<B>(alloc, held, rule, raw)?;
    Ok(found)
}

/// The sooner one of the fault that is held and that of a hypothesis's number.
fn check_hypothesis(held: Option<TextErr>, place: RawPlace) -> Option<TextErr>
    ensures { result ≡ least_from held (hypothesis_faults place) }
{
    match place {
        RawPlace::Concl => held,
        RawPlace::Hyp(number) => check_number(held, 1, MOST_HYPOTHESIS, number),
    }
}

/// The earliest of the fault that is held and those of these numbers of subterms.
fn check_subterms(held: Option<TextErr>, address: &[RawNumber]) -> Option<TextErr>
    ensures { result ≡ least_from held (flat_map (number_faults 1 MOST_NODES) address.now) }
{
    let mut held = held;
    for number in address {
        held = check_number(held, 1, MOST_SUBTERM, *number);
    }
    held
}

/// The earliest of the fault that is held and those of an address: of each number, and of the first one too many.
fn check_address(held: Option<TextErr>, address: &[RawNumber]) -> Option<TextErr>
    ensures { result ≡ least_from held (address_faults address.now) }
{
    let held = check_subterms(held, address);
    match address.get(MOST_DEPTH as usize) {
        Some(number) => sooner_of(held, number.at, TextWhy::BadNumber),
        None => held,
    }
}

/// The earliest of the fault that is held and those of a step by a rewrite.
fn check_rewrite_step(
    theory: &Theory,
    raw: &RawRewriteStep,
    held: Option<TextErr>,
) -> Option<TextErr>
    ensures { result ≡ least_from held (rewrite_step_faults theory.now raw.now) }
{
    let held = check_hypothesis(held, raw.place);
    let held = check_address(held, raw.address.as_slice());
    let unknown = theory.rewrite_named(raw.rewrite.name).is_none();
    sooner_if(held, unknown, raw.rewrite.at, TextWhy::UnknownName)
}

/// The earliest of the fault that is held and those of a step.
pub fn check_step<B: Body>(
    alloc: Global,
    theory: &Theory,
    raw: &RawStep<B::Raw>,
    held: Option<TextErr>,
) -> Result<Option<TextErr>, NoMemory>
    ensures { IfOk result (λ found. found ≡ least_from held (step_faults B.arity B.faults theory.now raw.now)) }
{
    match raw {
        RawStep::Rule(step) => check_rule_step::<B>(alloc, theory, step, held),
        RawStep::Rewrite(step) => Ok(check_rewrite_step(theory, step, held)),
    }
}
