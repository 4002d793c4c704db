ghost use Rattle.std.specs.Prelude.{◌≡◌};
ghost use Rattle.std.specs.Option.{option_copied};
ghost use Rattle.mp_schema.specs.Values.{find_ctx};

use crate::CtxVal;
use mp_logic::{List, Sym};

/// The value of this context; None where it has none.
pub fn context_value(ctxs: &List<CtxVal>, name: Sym) -> Option<&CtxVal>
    ensures { option_copied result ≡ find_ctx ctxs.now name }
{
    for item in ctxs.as_slice() {
        if item.name.0 == name.0 {
            return Some(item);
        }
    }
    None
}
