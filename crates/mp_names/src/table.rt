ghost use Rattle.std.specs.Prelude.{◌≡◌, ◌<◌, ◌≤◌, ◌^◌, ◌-◌, ◌+◌, ℕ, length, slice_get, IfOk, OnErr, OnOk, IfSome, IfNone, Some, None, []};
ghost use Rattle.mp_names.specs.Table.{HasNumber, AreDistinct, Extends, entered, number_of, text_of};

use indexmap::IndexSet;
use mp_logic::{NoMemory, Sym};
use std::alloc::Global;
use std::marker::Model;

/// Distinct names, numbered from 0 in the order of their first entry. A name keeps its number as long as the
/// table lives. Contracts see the table as the list of its names.
#[derive(Drop)]
pub struct Names {
    set: IndexSet<Vec<u8>>,
}

impl Model for Names {
    ghost use Rattle.std.specs.Prelude.{List, ℕ, map, length, ◌<◌, ◌^◌};
    ghost use Rattle.mp_names.specs.Table.{AreDistinct};

    ghost Value = { List (List ℕ) };

    ghost view = { λ names. map (λ key. key.items) names.set.keys };

    ghost invariant = { λ names. AreDistinct (map (λ key. key.items) names.set.keys) × (length names.set.keys < 2 ^ 32) };
}

impl Names {
    /// The empty table.
    pub fn new(alloc: Global) -> Names
        ensures { result ≡ [] }
    {
        Names {
            set: IndexSet::new(alloc),
        }
    }

    /// The number of names held, which is also the number that the next new name is given.
    pub fn len(&self) -> u64
        ensures count { result ≡ length self.now }
        ensures distinct { AreDistinct self.now }
    {
        self.set.len() as u64
    }

    /// The number of this name. None exactly where the name isn't held.
    pub fn find(&self, name: &[u8]) -> Option<Sym>
        ensures found { IfSome result (λ sym. HasNumber self.now sym.0 name.now) }
        ensures number { IfSome result (λ sym. sym.0 ≡ number_of self.now name.now) }
        ensures absent { IfNone result ((at : ℕ) → HasNumber self.now at name.now → ⊥) }
    {
        let Some(at) = self.set.get_index_of(name) else {
            return None;
        };
        Some(Sym(at as u32))
    }

    /// The name with this number; the empty text where no name held has it.
    pub fn text(&self, sym: Sym) -> &[u8]
        ensures { result.now ≡ text_of self.now sym.0 }
    {
        match self.set.get_index(sym.0 as usize) {
            Some(name) => name.as_slice(),
            None => b"".as_slice(),
        }
    }

    /// The number of this name, which is entered as the last one where it isn't held. Where there is no memory
    /// the table stays as it was.
    pub fn number(&mut self, alloc: Global, name: &[u8]) -> Result<Sym, NoMemory>
        requires { length self.old < 2 ^ 32 - 1 }
        ensures number { IfOk result (λ sym. sym.0 ≡ number_of self.old name.now) }
        ensures table { OnOk result (self.new ≡ entered self.old name.now) }
        ensures has { IfOk result (λ sym. HasNumber self.new sym.0 name.now) }
        ensures grown { OnOk result (Extends self.old self.new) }
        ensures few { OnOk result (length self.new ≤ length self.old + 1) }
        ensures kept { OnErr result (self.new ≡ self.old) }
    {
        if let Some(known) = self.find(name) {
            return Ok(known);
        }
        let copied = copy_name(alloc, name)?;
        let entered = self.enter(copied)?;
        Ok(entered)
    }

    fn enter(&mut self, name: Vec<u8>) -> Result<Sym, NoMemory>
        requires { length self.old < 2 ^ 32 - 1 }
        ensures number { IfOk result (λ sym. sym.0 ≡ number_of self.old name.items) }
        ensures table { OnOk result (self.new ≡ entered self.old name.items) }
        ensures kept { OnErr result (self.new ≡ self.old) }
    {
        let Ok((at, _)) = self.set.insert_full(name) else {
            return Err(NoMemory);
        };
        Ok(Sym(at as u32))
    }
}

fn copy_name(alloc: Global, name: &[u8]) -> Result<Vec<u8>, NoMemory>
    ensures { IfOk result (λ copied. copied.items ≡ name.now) }
{
    let Ok(mut copied) = Vec::with_capacity(alloc, name.len()) else {
        return Err(NoMemory);
    };
    match copied.extend_from_slice(name) {
        Ok(()) => Ok(copied),
        Err(_) => Err(NoMemory),
    }
}
