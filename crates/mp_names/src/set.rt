ghost use Rattle.std.specs.Prelude.{◌≡◌, [], IfOk, OnOk, OnErr};
ghost use Rattle.mp_names.specs.Sets.{is_met, place_of, with_met};

use indexmap::IndexSet;
use mp_logic::{NoMemory, Sym};
use std::alloc::Global;
use std::marker::Model;

/// The names that were met so far, by their numbers, to tell the first use of a name from a second one. Contracts see
/// the list of the numbers, in the order in which they were met.
#[derive(Drop)]
pub struct NameSet {
    set: IndexSet<u32>,
}

impl Model for NameSet {
    ghost use Rattle.std.specs.Prelude.{List, ℕ};

    ghost Value = { List ℕ };

    ghost view = { λ names. names.set.keys };
}

impl NameSet {
    /// No name was met.
    pub fn new(alloc: Global) -> NameSet
        ensures { result ≡ [] }
    {
        NameSet {
            set: IndexSet::new(alloc),
        }
    }

    /// Meets the name, and answers whether it was met before. Where there is no memory nothing is met.
    pub fn meet(&mut self, name: Sym) -> Result<bool, NoMemory>
        ensures known { IfOk result (λ known. known ≡ is_met self.old name.0) }
        ensures met { OnOk result (self.new ≡ with_met self.old name.0) }
        ensures kept { OnErr result (self.new ≡ self.old) }
    {
        match self.set.insert(name.0) {
            Ok(new) => Ok(!new),
            Err(_) => Err(NoMemory),
        }
    }

    /// The place of the name among the names that were met, in the order in which they were met, counted from 0.
    /// None exactly where it wasn't met.
    pub fn place(&self, name: Sym) -> Option<usize>
        ensures { result ≡ place_of self.now name.0 }
    {
        self.set.get_index_of(&name.0)
    }
}
