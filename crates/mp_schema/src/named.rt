ghost use Rattle.std.specs.Prelude.{◌≡◌, ◌++◌, ◌∷◌, [], length, slice_get, None, OnOk, OnErr};
ghost use Rattle.std.specs.Option.{option_copied};
ghost use Rattle.mp_schema.specs.Values.{find_meta, find_param};

use crate::{MetaVal, ParamVal};
use indexmap::IndexMap;
use mp_logic::{NoMemory, Sym};
use mp_term::Param;
use std::alloc::Global;
use std::marker::Model;

/// The values of second-order variables by name, in the order in which they were added. Contracts see the list of the
/// values. A look at a value takes the same time however many there are.
#[derive(Drop)]
pub struct MetaVals {
    values: IndexMap<u32, MetaVal>,
}

impl Model for MetaVals {
    ghost use Rattle.std.specs.Prelude.{List, map, ℕ};
    ghost use Rattle.std.specs.Coded.{codes};
    ghost use Rattle.mp_schema.specs.declared.instance.MetaVal.{MetaVal};
    ghost use Rattle.mp_schema.specs.contracts.instance.MetaVal as meta_val;
    ghost use Rattle.mp_schema.specs.Named.{AreNamed};

    ghost Value = { List MetaVal };

    ghost coded = { Prim.hlevel (codes, meta_val.the_row.coded) };

    ghost view = { λ t. map (λ (e : ℕ × MetaVal). e.1) t.values.entries };

    ghost invariant = { λ t. AreNamed (λ (x : MetaVal). x.name.0) t.values.entries };
}

impl MetaVals {
    /// No values.
    pub fn new(alloc: Global) -> MetaVals
        ensures { result ≡ [] }
    {
        MetaVals {
            values: IndexMap::new(alloc),
        }
    }

    /// The number of values.
    pub fn len(&self) -> u64
        ensures { result ≡ length self.now }
    {
        self.values.len() as u64
    }

    /// The value at this place, counted from 0. None exactly where there is none.
    pub fn at(&self, place: u64) -> Option<&MetaVal>
        ensures { option_copied result ≡ slice_get self.now place }
    {
        match self.values.get_index(place as usize) {
            Some((_, value)) => Some(value),
            None => None,
        }
    }

    /// The value of this second-order variable. None exactly where it has none.
    pub fn get(&self, name: Sym) -> Option<&MetaVal>
        ensures { option_copied result ≡ find_meta self.now name }
    {
        self.values.get(&name.0)
    }

    /// Adds the value at the end. Its name must have none. Where there is no memory the values stay.
    pub fn push(&mut self, value: MetaVal) -> Result<(), NoMemory>
        requires { find_meta self.old value.name ≡ None }
        ensures ok { OnOk result (self.new ≡ self.old ++ value ∷ []) }
        ensures err { OnErr result (self.new ≡ self.old) }
    {
        match self.values.insert(value.name.0, value) {
            Ok(_) => Ok(()),
            Err(_) => Err(NoMemory),
        }
    }
}

/// The values of holes by name, in the order in which they were added. Contracts see the list of the values. A look at a
/// value takes the same time however many there are.
#[derive(Drop)]
pub struct ParamVals {
    values: IndexMap<u32, ParamVal>,
}

impl Model for ParamVals {
    ghost use Rattle.std.specs.Prelude.{List, map, ℕ};
    ghost use Rattle.std.specs.Coded.{codes};
    ghost use Rattle.mp_schema.specs.declared.instance.ParamVal.{ParamVal};
    ghost use Rattle.mp_schema.specs.contracts.instance.ParamVal as param_val;
    ghost use Rattle.mp_schema.specs.Named.{AreNamed};

    ghost Value = { List ParamVal };

    ghost coded = { Prim.hlevel (codes, param_val.the_row.coded) };

    ghost view = { λ t. map (λ (e : ℕ × ParamVal). e.1) t.values.entries };

    ghost invariant = { λ t. AreNamed (λ (x : ParamVal). x.name.0) t.values.entries };
}

impl ParamVals {
    /// No values.
    pub fn new(alloc: Global) -> ParamVals
        ensures { result ≡ [] }
    {
        ParamVals {
            values: IndexMap::new(alloc),
        }
    }

    /// The parameter of this hole. None exactly where it has none.
    pub fn get(&self, name: Sym) -> Option<Param>
        ensures { result ≡ find_param self.now name }
    {
        match self.values.get(&name.0) {
            Some(held) => Some(held.value),
            None => None,
        }
    }

    /// Adds the value at the end. Its name must have none. Where there is no memory the values stay.
    pub fn push(&mut self, value: ParamVal) -> Result<(), NoMemory>
        requires { find_param self.old value.name ≡ None }
        ensures ok { OnOk result (self.new ≡ self.old ++ value ∷ []) }
        ensures err { OnErr result (self.new ≡ self.old) }
    {
        match self.values.insert(value.name.0, value) {
            Ok(_) => Ok(()),
            Err(_) => Err(NoMemory),
        }
    }
}
