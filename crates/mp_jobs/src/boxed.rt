ghost use Rattle.std.specs.Prelude.{◌≡◌, IfOk, IfErr};

use mp_logic::NoMemory;
use std::alloc::Global;
use std::marker::Model;

/// A `Box` that contracts see as its value, so that a type may hold a box of its own type.
#[derive(Debug, Drop)]
pub struct Boxed<T> {
    inner: Box<T>,
}

impl<T> Model for Boxed<T> {
    ghost Value = { T };

    ghost coded = { T.code };

    ghost view = { λ boxed. boxed.inner.value };
}

impl<T> Boxed<T> {
    ghost use Rattle.std.specs.Borrow.{Lends, sem};
    ghost use Rattle.mp_jobs.specs.contracts.boxed.Boxed.{the_row};

    /// The value in a box of its own. Where there is no memory the value comes back.
    pub fn new(alloc: Global, value: T) -> Result<Boxed<T>, (T, NoMemory)>
        ensures ok { IfOk result (λ boxed. boxed ≡ value) }
        ensures returned { IfErr result (λ e. e.0 ≡ value) }
    {
        match Box::new(alloc, value) {
            Ok(inner) => Ok(Boxed { inner }),
            Err(failed) => Err((failed.value, NoMemory)),
        }
    }

    /// The value, to look at.
    pub fn get(&self) -> &T
        ensures { result.now ≡ self.now }
    {
        &self.inner
    }

    /// The value, to be changed.
    pub fn get_mut(&mut self) -> &mut T
        ensures* writes_back { sem 𝓛 (Lends (the_row T.row) T.row self.entry result (λ x. x)) }
        ensures value { result.now ≡ self.old }
    {
        &mut self.inner
    }

    /// The value, out of its box. It takes no memory.
    pub fn into_inner(self) -> T
        ensures { result ≡ self }
    {
        let Boxed { inner } = self;
        Box::into_inner(inner)
    }
}
