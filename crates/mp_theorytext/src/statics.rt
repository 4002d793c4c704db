ghost use Rattle.std.specs.Prelude.{◌≡◌, IfOk};
ghost use Rattle.std.specs.List.{flat_map};
ghost use Rattle.mp_theory.specs.Tables.{name_taken};
ghost use Rattle.mp_words.specs.declared.fail.TextWhy.TheVariants as why;
ghost use Rattle.mp_words.specs.Faults.{fault_if, least, least_from};
ghost use Rattle.mp_theorytext.specs.Statics.{law_faults, law_name, theory_faults};

use crate::RawLaw;
use crate::rewrite::check_rewrite;
use mp_logic::{List, NoMemory};
use mp_schematext::check_rule;
use mp_theory::Theory;
use mp_words::{Named, TextErr, TextWhy, check_second, sooner_if};
use std::alloc::Global;

/// The earliest of the fault that is held and those of names that a law of the theory has.
fn check_free(held: Option<TextErr>, theory: &Theory, raws: &[RawLaw]) -> Option<TextErr>
    ensures { result ≡ least_from held (flat_map (λ l. fault_if (name_taken theory.now (law_name l).name) (law_name l).at why.Taken) raws.now) }
{
    let mut held = held;
    for raw in raws {
        let name = raw.named();
        let taken = theory.is_taken(name.name);
        held = sooner_if(held, taken, name.at, TextWhy::Taken);
    }
    held
}

/// The earliest of the fault that is held and those of a law, but that its name is taken.
fn check_law(
    alloc: Global,
    raw: &RawLaw,
    held: Option<TextErr>,
) -> Result<Option<TextErr>, NoMemory>
    ensures { IfOk result (λ found. found ≡ least_from held (law_faults raw.now)) }
{
    match raw {
        RawLaw::Rule(rule) => check_rule(alloc, rule, held),
        RawLaw::Rewrite(rewrite) => check_rewrite(alloc, rewrite, held),
    }
}

fn check_laws(
    alloc: Global,
    raws: &[RawLaw],
    held: Option<TextErr>,
) -> Result<Option<TextErr>, NoMemory>
    ensures { IfOk result (λ found. found ≡ least_from held (flat_map law_faults raws.now)) }
{
    let mut held = held;
    for raw in raws {
        held = check_law(alloc, raw, held)?;
    }
    Ok(held)
}

/// The least static fault of laws that are to be added to the theory. None exactly where there is none.
#[tactic(auto, using(mp_words::proofs::Soonest::least_from_append))]
pub(crate) fn theory_fault(
    alloc: Global,
    theory: &Theory,
    raws: &List<RawLaw>,
) -> Result<Option<TextErr>, NoMemory>
    ensures { IfOk result (λ found. found ≡ least (theory_faults theory.now raws.now)) }
{
    let raws = raws.as_slice();
    let held = check_free(None, theory, raws);
    let held = check_second(alloc, raws, TextWhy::Taken, held)?;
    let found = check_laws(alloc, raws, held)?;
    Ok(found)
}
