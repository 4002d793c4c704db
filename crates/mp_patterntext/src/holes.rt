#![tactic(auto, using(crate::proofs::Gathering::gathering_holes))]

ghost use Rattle.std.specs.Prelude.{◌≡◌, ◌++◌, IfOk, OnOk};
ghost use Rattle.std.specs.List.{flat_map};
ghost use Rattle.mp_names.specs.Sets.{Met};
ghost use Rattle.mp_words.specs.Faults.{least_from};
ghost use Rattle.mp_patterntext.specs.Scopes.{syms_of, unknown_faults};
ghost use Rattle.mp_patterntext.specs.Uses.{holes_in_param, raw_holes, raw_bound_holes};

use crate::{RawParamPat, RawPattern, RawPatternBound};
use mp_logic::{List, NoMemory};
use mp_names::NameSet;
use mp_words::{RawName, TextErr, TextWhy, sooner_if};
use std::alloc::Global;

/// Appends the holes of a pattern, in the order of the text.
#[cycle(gathering)]
pub fn gather_holes(raw: &RawPattern, holes: &mut List<RawName>) -> Result<(), NoMemory>
    ensures { OnOk result (holes.new ≡ holes.old ++ raw_holes raw.now) }
{
    match raw {
        RawPattern::Var { .. } => Ok(()),
        RawPattern::Op { params, subs, .. } => {
            gather_param_holes(params.as_slice(), holes)?;
            gather_bound_holes(subs.as_slice(), holes)?;
            Ok(())
        }
        RawPattern::Meta { args, .. } => {
            gather_argument_holes(args.as_slice(), holes)?;
            Ok(())
        }
    }
}

#[cycle(gathering)]
fn gather_bound_holes(subs: &[RawPatternBound], holes: &mut List<RawName>) -> Result<(), NoMemory>
    ensures { OnOk result (holes.new ≡ holes.old ++ flat_map raw_bound_holes subs.now) }
{
    for sub in subs {
        gather_holes(&sub.body, holes)?;
    }
    Ok(())
}

/// Appends the holes of arguments, in the order of the text.
#[cycle(gathering)]
pub fn gather_argument_holes(args: &[RawPattern], holes: &mut List<RawName>) -> Result<(), NoMemory>
    ensures { OnOk result (holes.new ≡ holes.old ++ flat_map raw_holes args.now) }
{
    for arg in args {
        gather_holes(arg, holes)?;
    }
    Ok(())
}

fn gather_param_holes(params: &[RawParamPat], holes: &mut List<RawName>) -> Result<(), NoMemory>
    ensures { OnOk result (holes.new ≡ holes.old ++ flat_map holes_in_param params.now) }
{
    for param in params {
        if let RawParamPat::Hole { name, .. } = param
            && let Err((_, refused)) = holes.push(*name)
        {
            return Err(refused);
        }
    }
    Ok(())
}

/// These names, each once.
fn names_of(alloc: Global, written: &[RawName]) -> Result<NameSet, NoMemory>
    ensures { IfOk result (λ names. Met names (syms_of written.now)) }
{
    let mut names = NameSet::new(alloc);
    for name in written {
        names.meet(name.name)?;
    }
    Ok(names)
}

/// The earliest of the fault that is held and those of names that aren't among the known ones.
pub fn check_unknown(
    alloc: Global,
    held: Option<TextErr>,
    known: &[RawName],
    asked: &[RawName],
    why: TextWhy,
) -> Result<Option<TextErr>, NoMemory>
    ensures { IfOk result (λ found. found ≡ least_from held (unknown_faults why (syms_of known.now) asked.now)) }
{
    let names = names_of(alloc, known)?;
    let mut held = held;
    for name in asked {
        let unknown = names.place(name.name).is_none();
        held = sooner_if(held, unknown, name.at, why);
    }
    Ok(held)
}
