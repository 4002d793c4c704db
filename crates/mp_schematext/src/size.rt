ghost use Rattle.std.specs.Prelude.{◌≡◌};
ghost use Rattle.mp_logic.specs.Trees.{counted};
ghost use Rattle.mp_schematext.specs.Statics.{raw_item_size_of, raw_schema_size_of};

use crate::{RawItem, RawSchema};
use mp_patterntext::{arguments_size, pattern_size};

/// The number of variables, operators and second-order variables of a schema. The count stops at `2^64 - 1`.
pub(crate) fn schema_size(raw: &RawSchema) -> u64
    ensures { result ≡ counted (raw_schema_size_of raw.now) }
{
    let mut total = pattern_size(&raw.concl);
    for item in raw.items.as_slice() {
        total = total.saturating_add(item_size(item));
    }
    total
}

fn item_size(raw: &RawItem) -> u64
    ensures { result ≡ counted (raw_item_size_of raw.now) }
{
    match raw {
        RawItem::Hyp { pattern, .. } => pattern_size(pattern),
        RawItem::Ctx { args, .. } => arguments_size(args.as_slice()),
    }
}
