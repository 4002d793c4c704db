ghost use Rattle.std.specs.Prelude.{◌≡◌, ◌++◌, ◌∷◌, [], IfOk, OnOk, OnErr};

use mp_logic::NoMemory;
use smallvec::SmallVec;
use std::alloc::Global;
use std::marker::Model;

// Most addresses are no longer, and then take no allocation.
const INLINE: usize = 8;

/// The way from a term to one of its subterms: at each operator the number of the subterm, counted from 0. Contracts see
/// the list of these numbers.
#[derive(Drop)]
pub struct Address {
    steps: SmallVec<u32, INLINE>,
}

impl Model for Address {
    ghost use Rattle.std.specs.Prelude.{List, ℕ};

    ghost Value = { List ℕ };

    ghost view = { λ address. address.steps.items };
}

impl Address {
    /// The address of the term itself.
    pub fn new(alloc: Global) -> Address
        ensures { result ≡ [] }
    {
        Address {
            steps: SmallVec::new(alloc),
        }
    }

    /// Goes one step further. Where there is no memory the address stays as it is.
    pub fn push(&mut self, step: u32) -> Result<(), NoMemory>
        ensures longer { OnOk result (self.new ≡ self.old ++ step ∷ []) }
        ensures unchanged { OnErr result (self.new ≡ self.old) }
    {
        match self.steps.push(step) {
            Ok(()) => Ok(()),
            Err(_) => Err(NoMemory),
        }
    }

    /// The steps in order.
    pub fn steps(&self) -> &[u32]
        ensures { result.now ≡ self.now }
    {
        self.steps.as_slice()
    }

    /// An equal address.
    pub fn copy(&self, alloc: Global) -> Result<Address, NoMemory>
        ensures { IfOk result (λ copied. copied ≡ self.now) }
    {
        match SmallVec::from_slice(alloc, self.steps.as_slice()) {
            Ok(steps) => Ok(Address { steps }),
            Err(_) => Err(NoMemory),
        }
    }
}
