#![tactic(auto, using(mp_patterntext::proofs::Gathering::gathering_uses))]

ghost use Rattle.std.specs.Prelude.{◌≡◌, ◌++◌, IfOk, OnOk, map};
ghost use Rattle.mp_words.specs.Faults.{least_from};
ghost use Rattle.mp_patterntext.specs.Places.{use_at};
ghost use Rattle.mp_patterntext.specs.Uses.{uses_faults};
ghost use Rattle.mp_schematext.specs.Uses.{uses_in_item, uses_in_rule, uses_in_schema};

use crate::{RawItem, RawRule, RawSchema};
use mp_logic::{List, NoMemory};
use mp_patterntext::{Place, check_alike, gather_argument_uses, gather_uses, push_place};
use mp_words::TextErr;
use std::alloc::Global;

/// The earliest of the fault that is held and those of the uses in a rule: each is like the first one of its name.
pub(crate) fn check_rule_uses(
    alloc: Global,
    raw: &RawRule,
    held: Option<TextErr>,
) -> Result<Option<TextErr>, NoMemory>
    ensures { IfOk result (λ found. found ≡ least_from held (uses_faults (uses_in_rule raw.now))) }
{
    let mut places = List::new(alloc);
    for premise in raw.premises.as_slice() {
        gather_schema(premise, &mut places)?;
    }
    gather_schema(&raw.concl, &mut places)?;
    check_alike(alloc, places.as_slice(), held)
}

/// Appends the places in a schema, in the order of the text.
fn gather_schema<'a>(raw: &'a RawSchema, places: &mut List<Place<'a>>) -> Result<(), NoMemory>
    ensures { OnOk result (map use_at places.new ≡ map use_at places.old ++ uses_in_schema raw.now) }
{
    for item in raw.items.as_slice() {
        gather_item(item, places)?;
    }
    gather_uses(&raw.concl, places)
}

fn gather_item<'a>(raw: &'a RawItem, places: &mut List<Place<'a>>) -> Result<(), NoMemory>
    ensures { OnOk result (map use_at places.new ≡ map use_at places.old ++ uses_in_item raw.now) }
{
    match raw {
        RawItem::Ctx {
            name,
            ctxs,
            args,
            ..
        } => {
            let place = Place {
                is_context: true,
                name: name.name,
                at: name.at,
                ctxs: ctxs.as_slice(),
                args: args.as_slice(),
            };
            push_place(places, place)?;
            gather_argument_uses(args.as_slice(), places)
        }
        RawItem::Hyp { pattern, .. } => gather_uses(pattern, places),
    }
}
