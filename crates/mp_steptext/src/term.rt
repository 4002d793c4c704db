ghost use Rattle.std.specs.Prelude.{◌≡◌, [], IfOk, IsTrue};
ghost use Rattle.mp_theory.specs.Allowed.{is_allowed};
ghost use Rattle.mp_termtext.specs.Grammar.{bound};
ghost use Rattle.mp_steptext.specs.Printing.{given_text};
ghost use Rattle.mp_steptext.specs.Terms.{given_term, just_by, just_of, term_arity, given_term_faults, term_step_faults};

use crate::body::{Body, StepValue};
use crate::raw::RawStep;
use crate::value::build_step;
use mp_logic::NoMemory;
use mp_names::Names;
use mp_term::limits::MOST_HYPOTHESES;
use mp_termtext::{
    RawBound, build_bound, check_bound_term, parse_bound, push_bound_term, push_bytes,
};
use mp_theory::{Given, Just, Need, Theory};
use mp_words::{ReadFail, Reader, TextErr, Word};
use std::alloc::Global;

/// The variables `x1` to `x200` of a given term are free.
const FREE: u32 = MOST_HYPOTHESES as u32;

/// A given term after its binders, as what steps give.
pub struct GivenTerm;

impl Reader for GivenTerm {
    type Raw = RawBound;

    ghost grammar = { bound };

    /// Reads a term after its binders, if any.
    fn read(alloc: Global, words: &[Word]) -> Result<(RawBound, &[Word]), ReadFail> {
        parse_bound(alloc, words)
    }
}

impl Body for GivenTerm {
    type Given = Given;

    ghost arity = { term_arity };

    ghost faults = { given_term_faults };

    ghost given = { given_term };

    ghost text = { given_text };

    fn arity(raw: &RawBound) -> u64 {
        raw.binders.len()
    }

    fn check(
        alloc: Global,
        raw: &RawBound,
        at: u32,
        held: Option<TextErr>,
    ) -> Result<Option<TextErr>, NoMemory> {
        check_bound_term(alloc, raw, FREE, at, held)
    }

    fn build(alloc: Global, need: &Need, raw: &RawBound, _at: u32) -> Result<Given, NoMemory> {
        let mut env = Vec::new(alloc);
        let bound = build_bound(alloc, raw, FREE, &mut env)?;
        Ok(Given {
            name: need.name,
            arity: need.arity,
            body: bound.body,
        })
    }

    fn push(out: &mut Vec<u8>, names: &Names, value: &Given) -> Result<(), NoMemory> {
        push_bytes(out, names.text(value.name))?;
        push_bytes(out, b" := ")?;
        push_bound_term(out, names, FREE, value.arity, &value.body)
    }
}

/// The justification of a step that keeps the static rules. The theory allows it.
pub fn build_just(
    alloc: Global,
    theory: &Theory,
    step: &RawStep<RawBound>,
) -> Result<Just, NoMemory>
    requires { term_step_faults theory.now step.now ≡ [] }
    ensures value { IfOk result (λ just. just ≡ just_of theory.now step.now) }
    ensures allowed { IfOk result (λ just. IsTrue (is_allowed theory.now just)) }
{
    // `len` ensures that these are a theory's laws, by which the justification is allowed.
    let _count = theory.len();
    let value = build_step::<GivenTerm>(alloc, theory, step)?;
    Ok(just_by(value))
}

/// The justification by the value of a step.
fn just_by(value: StepValue<Given>) -> Just
    ensures { result ≡ just_by value }
{
    match value {
        StepValue::Rule { rule, first, given } => Just::Rule { rule, first, given },
        StepValue::Rewrite {
            rewrite,
            place,
            address,
        } => Just::Rewrite {
            rewrite,
            place,
            address,
        },
    }
}
