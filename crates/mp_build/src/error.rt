ghost use Rattle.std.specs.Prelude.{◌≡◌};
ghost use Rattle.mp_build.specs.declared.error.BuildErr.TheVariants as err;

use mp_logic::NoMemory;
use thiserror::Error;

/// Why an instance isn't built.
#[derive(Clone, Copy, Debug, PartialEq, Eq, Error)]
pub enum BuildErr {
    /// It isn't within the limits.
    #[error("an instance that is too large")]
    TooLarge,
    /// Want of memory.
    #[error("want of memory")]
    NoMemory,
}

impl From<NoMemory> for BuildErr {
    ghost from_gives = { λ _ e. e ≡ err.NoMemory };

    fn from(_refused: NoMemory) -> BuildErr {
        BuildErr::NoMemory
    }
}
