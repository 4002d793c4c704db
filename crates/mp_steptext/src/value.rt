ghost use Rattle.std.specs.Prelude.{◌≡◌, ◌+◌, [], map, IfOk};
ghost use Rattle.std.specs.List.{flat_map};
ghost use Rattle.mp_term.specs.declared.limits.TheConstants.{MOST_HYPOTHESES, MOST_NODES};
ghost use Rattle.mp_words.specs.Ranges.{number_faults, written_number_faults};
ghost use Rattle.mp_steptext.specs.Names.{given_numbers};
ghost use Rattle.mp_steptext.specs.Statics.{address_faults, all_given_faults, body_faults, hypothesis_faults, missing_faults, rewrite_step_faults, rule_step_faults, step_faults};
ghost use Rattle.mp_steptext.specs.Values.{first_hypotheses, from_0, given_for, place_value, rewrite_step_value, rule_step_value, step_value};

use crate::body::{Body, StepValue};
use crate::names::{find_given, given_names};
use crate::raw::{RawPlace, RawRewriteStep, RawRuleStep, RawStep};
use mp_logic::{List, NoMemory};
use mp_names::NameSet;
use mp_theory::{Address, Need, Place, Theory};
use mp_words::RawNumber;
use std::alloc::Global;

/// What a step gives for a need, where what it gives has these names.
fn build_given<B: Body>(
    alloc: Global,
    step: &RawRuleStep<B::Raw>,
    names: &NameSet,
    need: &Need,
) -> Result<B::Given, NoMemory>
    requires names { names.now ≡ given_numbers step.now.given }
    requires bodies { flat_map (body_faults B.arity B.faults) step.now.given ≡ [] }
    requires there { missing_faults step.now need.now ≡ [] }
    ensures { IfOk result (λ given. given ≡ given_for B.given step.now.given need.now) }
{
    let Some(raw) = find_given(step.given.as_slice(), names, need.name) else {
        unreachable!()
    };
    B::build(alloc, need, &raw.body, raw.at)
}

/// What a step gives, in the order of the needs.
fn build_all_given<B: Body>(
    alloc: Global,
    step: &RawRuleStep<B::Raw>,
    needs: &List<Need>,
) -> Result<List<B::Given>, NoMemory>
    requires bodies { flat_map (body_faults B.arity B.faults) step.now.given ≡ [] }
    requires there { flat_map (missing_faults step.now) needs.now ≡ [] }
    requires given { all_given_faults B.arity B.faults needs.now step.now.given ≡ [] }
    ensures { IfOk result (λ given. given ≡ map (given_for B.given step.now.given) needs.now) }
{
    let names = given_names(alloc, step.given.as_slice())?;
    let mut built = List::with_capacity(alloc, needs.len())?;
    for need in needs.as_slice() {
        let given = build_given::<B>(alloc, step, &names, need)?;
        if let Err((_, refused)) = built.push(given) {
            return Err(refused);
        }
    }
    Ok(built)
}

/// The size of the first context: one less than the number after `at`.
fn build_first(place: Option<RawNumber>) -> Option<u32>
    requires { written_number_faults 1 (MOST_HYPOTHESES + 1) place ≡ [] }
    ensures { result ≡ first_hypotheses place }
{
    match place {
        Some(number) => Some((number.value - 1) as u32),
        None => None,
    }
}

/// The value of a step by a rule that keeps the static rules.
fn build_rule_step<B: Body>(
    alloc: Global,
    theory: &Theory,
    step: &RawRuleStep<B::Raw>,
) -> Result<StepValue<B::Given>, NoMemory>
    requires { rule_step_faults B.arity B.faults theory.now step.now ≡ [] }
    ensures { IfOk result (λ value. value ≡ rule_step_value B.given theory.now step.now) }
{
    let Some(place) = theory.rule_named(step.rule.name) else {
        unreachable!()
    };
    let Some(rule) = theory.rule(place) else {
        unreachable!()
    };
    let given = build_all_given::<B>(alloc, step, &rule.needs)?;
    Ok(StepValue::Rule {
        rule: place,
        first: build_first(step.place),
        given,
    })
}

/// The term of the goal that is rewritten in.
fn build_place(place: RawPlace) -> Place
    requires { hypothesis_faults place ≡ [] }
    ensures { result ≡ place_value place }
{
    match place {
        RawPlace::Concl => Place::Concl,
        RawPlace::Hyp(number) => Place::Hyp((number.value - 1) as u32),
    }
}

/// The number of a subterm, counted from 0.
fn build_subterm(number: RawNumber) -> u32
    requires { number_faults 1 MOST_NODES number ≡ [] }
    ensures { result ≡ from_0 number }
{
    (number.value - 1) as u32
}

/// The way to the subterm that is replaced.
fn build_address(alloc: Global, address: &[RawNumber]) -> Result<Address, NoMemory>
    requires { address_faults address.now ≡ [] }
    ensures { IfOk result (λ built. built ≡ map from_0 address.now) }
{
    let mut built = Address::new(alloc);
    for number in address {
        built.push(build_subterm(*number))?;
    }
    Ok(built)
}

/// The value of a step by a rewrite that keeps the static rules.
fn build_rewrite_step<G>(
    alloc: Global,
    theory: &Theory,
    step: &RawRewriteStep,
) -> Result<StepValue<G>, NoMemory>
    requires { rewrite_step_faults theory.now step.now ≡ [] }
    ensures { IfOk result (λ value. value ≡ rewrite_step_value theory.now step.now) }
{
    let Some(rewrite) = theory.rewrite_named(step.rewrite.name) else {
        unreachable!()
    };
    let address = build_address(alloc, step.address.as_slice())?;
    Ok(StepValue::Rewrite {
        rewrite,
        place: build_place(step.place),
        address,
    })
}

/// The value of a step that keeps the static rules.
pub fn build_step<B: Body>(
    alloc: Global,
    theory: &Theory,
    step: &RawStep<B::Raw>,
) -> Result<StepValue<B::Given>, NoMemory>
    requires { step_faults B.arity B.faults theory.now step.now ≡ [] }
    ensures { IfOk result (λ value. value ≡ step_value B.given theory.now step.now) }
{
    match step {
        RawStep::Rule(step) => build_rule_step::<B>(alloc, theory, step),
        RawStep::Rewrite(step) => build_rewrite_step(alloc, theory, step),
    }
}
