#![tactic(auto, using(mp_patterntext::proofs::Gathering::gathering_holes))]

ghost use Rattle.std.specs.Prelude.{◌≡◌, ◌++◌, OnOk};
ghost use Rattle.std.specs.List.{flat_map};
ghost use Rattle.mp_schematext.specs.Uses.{raw_item_holes, raw_schema_holes};

use crate::{RawItem, RawSchema};
use mp_logic::{List, NoMemory};
use mp_patterntext::{gather_argument_holes, gather_holes};
use mp_words::RawName;

/// Appends the holes of schemata, in the order of the text.
pub(crate) fn gather_schemata(raws: &[RawSchema], holes: &mut List<RawName>) -> Result<(), NoMemory>
    ensures { OnOk result (holes.new ≡ holes.old ++ flat_map raw_schema_holes raws.now) }
{
    for raw in raws {
        gather_schema(raw, holes)?;
    }
    Ok(())
}

/// Appends the holes of a schema.
pub(crate) fn gather_schema(raw: &RawSchema, holes: &mut List<RawName>) -> Result<(), NoMemory>
    ensures { OnOk result (holes.new ≡ holes.old ++ raw_schema_holes raw.now) }
{
    for item in raw.items.as_slice() {
        gather_item(item, holes)?;
    }
    gather_holes(&raw.concl, holes)
}

fn gather_item(raw: &RawItem, holes: &mut List<RawName>) -> Result<(), NoMemory>
    ensures { OnOk result (holes.new ≡ holes.old ++ raw_item_holes raw.now) }
{
    match raw {
        RawItem::Hyp { pattern, .. } => gather_holes(pattern, holes),
        RawItem::Ctx { args, .. } => gather_argument_holes(args.as_slice(), holes),
    }
}
