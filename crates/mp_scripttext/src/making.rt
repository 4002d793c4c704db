ghost use Rattle.std.specs.Prelude.{◌≡◌, [], IfOk};
ghost use Rattle.mp_strategy.specs.declared.limits.TheConstants.{MOST_FUEL};
ghost use Rattle.mp_words.specs.Ranges.{written_number_faults};
ghost use Rattle.mp_scripttext.specs.Statics.{entry_faults};
ghost use Rattle.mp_scripttext.specs.Values.{entry_of, fuel_of};

use crate::plan::plan_of;
use crate::raw::RawEntry;
use crate::script::Entry;
use mp_logic::NoMemory;
use mp_termtext::build_sequent;
use mp_theory::Theory;
use mp_words::RawNumber;
use std::alloc::Global;

/// The fuel where none is written.
const DEFAULT_FUEL: u32 = 200;

/// The fuel that is written.
fn build_fuel(fuel: Option<RawNumber>) -> u32
    requires { written_number_faults 0 MOST_FUEL fuel ≡ [] }
    ensures { result ≡ fuel_of fuel }
{
    match fuel {
        Some(number) => number.value as u32,
        None => DEFAULT_FUEL,
    }
}

/// The goal that is written, where no static rule is broken.
pub(crate) fn build_entry(alloc: Global, theory: &Theory, raw: &RawEntry) -> Result<Entry, NoMemory>
    requires { entry_faults theory.now raw.now ≡ [] }
    ensures { IfOk result (λ entry. entry ≡ entry_of theory.now raw.now) }
{
    let goal = build_sequent(alloc, &raw.goal)?;
    let plan = plan_of(alloc, theory, &raw.strategy)?;
    Ok(Entry {
        name: raw.name.name,
        goal,
        fuel: build_fuel(raw.fuel),
        justs: plan.justs,
        tacs: plan.tacs,
    })
}
