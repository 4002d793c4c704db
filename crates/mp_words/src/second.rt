ghost use Rattle.std.specs.Prelude.{◌≡◌, IfOk};
ghost use Rattle.mp_words.specs.Faults.{least_from};
ghost use Rattle.mp_words.specs.Seconds.{second_faults};

use crate::{RawName, TextErr, TextWhy, sooner_if};
use mp_logic::NoMemory;
use mp_names::NameSet;
use std::alloc::Global;

/// What is written with a name of its own.
pub trait Named {
    ghost use Rattle.mp_words.specs.declared.raw.RawName.{RawName};

    /// The name.
    ghost named: { Self → RawName };

    /// The name that it has.
    fn named(&self) -> RawName
        ensures { result ≡ named self.now };
}

/// The sooner one of the fault that is held and those of a second item of its name, and so on.
pub fn check_second<X: Named>(
    alloc: Global,
    items: &[X],
    why: TextWhy,
    held: Option<TextErr>,
) -> Result<Option<TextErr>, NoMemory>
    ensures { IfOk result (λ found. found ≡ least_from held (second_faults X.named why items.now)) }
{
    let mut seen = NameSet::new(alloc);
    let mut held = held;
    for item in items {
        let name = item.named();
        let known = seen.meet(name.name)?;
        held = sooner_if(held, known, name.at, why);
    }
    Ok(held)
}
