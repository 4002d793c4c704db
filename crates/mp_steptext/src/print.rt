ghost use Rattle.std.specs.Prelude.{◌≡◌, ◌++◌, OnOk};
ghost use Rattle.mp_theory.specs.Tables.{rewrite_at, rule_at};
ghost use Rattle.mp_steptext.specs.Printing.{address_text, all_given_text, first_text, just_text, place_text, rewrite_step_text, rewrite_text, rule_step_text, rule_text};

use crate::body::Body;
use crate::term::GivenTerm;
use mp_logic::NoMemory;
use mp_names::Names;
use mp_termtext::{push_bytes, push_decimal};
use mp_theory::{Just, Place, Theory};

/// Appends the one text of a step by this justification. Where there is no memory, some of it may have been appended.
pub fn push_just(
    out: &mut Vec<u8>,
    names: &Names,
    theory: &Theory,
    just: &Just,
) -> Result<(), NoMemory>
    ensures { OnOk result (out.new.items ≡ out.old.items ++ just_text names.now theory.now just.now) }
{
    match just {
        Just::Rule { rule, first, given } => {
            push_rule_step::<GivenTerm>(out, names, theory, *rule, *first, given.as_slice())
        }
        Just::Rewrite {
            rewrite,
            place,
            address,
        } => push_rewrite_step(out, names, theory, *rewrite, *place, address.steps()),
    }
}

/// Appends the one text of a step by the rule at this place, with what it gives. Where there is no memory, some of it may
/// have been appended.
pub fn push_rule_step<B: Body>(
    out: &mut Vec<u8>,
    names: &Names,
    theory: &Theory,
    rule: u32,
    first: Option<u32>,
    given: &[B::Given],
) -> Result<(), NoMemory>
    ensures { OnOk result (out.new.items ≡ out.old.items ++ rule_step_text B.text names.now (rule_at theory.now rule) first given.now) }
{
    push_bytes(out, b"rule ")?;
    push_rule(out, names, theory, rule)?;
    push_first(out, first)?;
    push_all_given::<B>(out, names, given)
}

/// Appends the name of the rule at this place.
fn push_rule(out: &mut Vec<u8>, names: &Names, theory: &Theory, place: u32) -> Result<(), NoMemory>
    ensures { OnOk result (out.new.items ≡ out.old.items ++ rule_text names.now (rule_at theory.now place)) }
{
    match theory.rule(place) {
        None => Ok(()),
        Some(rule) => push_bytes(out, names.text(rule.name)),
    }
}

/// Appends where the first context ends, if the step says it.
fn push_first(out: &mut Vec<u8>, first: Option<u32>) -> Result<(), NoMemory>
    ensures { OnOk result (out.new.items ≡ out.old.items ++ first_text first) }
{
    let Some(first) = first else {
        return Ok(());
    };
    push_bytes(out, b" at ")?;
    push_decimal(out, first as u64 + 1)
}

/// Appends what is given, if there is any.
fn push_all_given<B: Body>(
    out: &mut Vec<u8>,
    names: &Names,
    given: &[B::Given],
) -> Result<(), NoMemory>
    ensures { OnOk result (out.new.items ≡ out.old.items ++ all_given_text (B.text names.now) given.now) }
{
    let mut begun = false;
    for one in given {
        if begun {
            push_bytes(out, b"; ")?;
        } else {
            push_bytes(out, b" with [")?;
        }
        B::push(out, names, one)?;
        begun = true;
    }
    if begun {
        push_bytes(out, b"]")?;
    }
    Ok(())
}

/// Appends the one text of a step by the rewrite at this place.
fn push_rewrite_step(
    out: &mut Vec<u8>,
    names: &Names,
    theory: &Theory,
    rewrite: u32,
    place: Place,
    address: &[u32],
) -> Result<(), NoMemory>
    ensures { OnOk result (out.new.items ≡ out.old.items ++ rewrite_step_text names.now (rewrite_at theory.now rewrite) place address.now) }
{
    push_bytes(out, b"rw ")?;
    push_rewrite(out, names, theory, rewrite)?;
    push_bytes(out, b" ")?;
    push_place(out, place)?;
    push_address(out, address)
}

/// Appends the name of the rewrite at this place.
fn push_rewrite(
    out: &mut Vec<u8>,
    names: &Names,
    theory: &Theory,
    place: u32,
) -> Result<(), NoMemory>
    ensures { OnOk result (out.new.items ≡ out.old.items ++ rewrite_text names.now (rewrite_at theory.now place)) }
{
    match theory.rewrite(place) {
        None => Ok(()),
        Some(rewrite) => push_bytes(out, names.text(rewrite.name)),
    }
}

/// Appends the term of the goal that is rewritten in.
fn push_place(out: &mut Vec<u8>, place: Place) -> Result<(), NoMemory>
    ensures { OnOk result (out.new.items ≡ out.old.items ++ place_text place) }
{
    match place {
        Place::Concl => push_bytes(out, b"concl"),
        Place::Hyp(number) => {
            push_bytes(out, b"hyp ")?;
            push_decimal(out, number as u64 + 1)
        }
    }
}

/// Appends the address between brackets.
fn push_address(out: &mut Vec<u8>, address: &[u32]) -> Result<(), NoMemory>
    ensures { OnOk result (out.new.items ≡ out.old.items ++ address_text address.now) }
{
    let Some((first, rest)) = address.split_first() else {
        return push_bytes(out, b" []");
    };
    push_bytes(out, b" [")?;
    push_decimal(out, *first as u64 + 1)?;
    for number in rest {
        push_bytes(out, b"; ")?;
        push_decimal(out, *number as u64 + 1)?;
    }
    push_bytes(out, b"]")
}
