ghost use Rattle.std.specs.Prelude.{◌≡◌, ◌<◌, ◌++◌, ◌∷◌, [], false, map, nat_eq, position, slice_get, IfSome, OnOk, OnErr};
ghost use Rattle.std.specs.Option.{option_copied};
ghost use Rattle.mp_theory.specs.Tables.{law_count, no_laws, rule_at, place_of_rule, added_rule, rewrite_at, place_of_rewrite, added_rewrite, rewrite_refusal_of, IsRewrite, name_taken, width_of, refusal_of, IsRefusal, IsLaw, IsRule, IsTheory, name_in};

use crate::needs::find_needs;
use crate::{Law, Rewrite, Rule};
use indexmap::IndexMap;
use mp_logic::{List, NoMemory, Sym};
use mp_schema::{Pattern, Schema, SchemaFault, find_rule_fault, rewrite_fault, rule_fault};
use std::alloc::Global;
use std::marker::Model;
use thiserror::Error;

/// Why a rule isn't added.
#[derive(Clone, Copy, Debug, PartialEq, Eq, Error)]
pub enum TheoryErr {
    /// A law has this name already.
    #[error("the name is taken")]
    Taken,
    /// The premises and the conclusion make no rule.
    #[error("a faulty schema")]
    Schema(SchemaFault),
    /// Want of memory.
    #[error("want of memory")]
    NoMemory,
}

/// Laws by name, in the order in which they were added. Contracts see the record of them, and look up in it by
/// `specs/Tables.antt`.
#[derive(Drop)]
pub struct Theory {
    laws: IndexMap<u32, Law>,
}

impl Model for Theory {
    ghost use Rattle.std.specs.Prelude.{◌<◌, ◌≡◌, length, map, ℕ};
    ghost use Rattle.mp_theory.specs.Tables.{Laws, IsTheory, name_in};
    ghost use Rattle.mp_theory.specs.declared.law.Law.{Law};
    ghost use Rattle.mp_theory.specs.contracts.law.Law as law;
    ghost use Rattle.std.specs.Coded.{codes};

    ghost Value = { Laws };

    ghost coded = { Prim.hlevel (codes, law.the_row.coded) };

    ghost view = { λ t. record { laws = map (λ (e : ℕ × Law). e.1) t.laws.entries } };

    ghost invariant = { λ t. (length t.laws.entries < 4294967296) × IsTheory (record { laws = map (λ (e : ℕ × Law). e.1) t.laws.entries }) × (map (λ (e : ℕ × Law). e.0) t.laws.entries ≡ map name_in (map (λ (e : ℕ × Law). e.1) t.laws.entries)) };
}

impl Theory {
    /// No laws.
    pub fn new(alloc: Global) -> Theory
        ensures { result ≡ no_laws }
    {
        Theory {
            laws: IndexMap::new(alloc),
        }
    }

    /// Adds the rule with these premises and this conclusion at the end, with what it needs. Refused is first a name that
    /// a law has already, then the first fault of the premises and the conclusion. After an error the theory is as it
    /// was.
    pub fn add_rule(
        &mut self,
        alloc: Global,
        name: Sym,
        premises: List<Schema>,
        concl: Schema,
    ) -> Result<(), TheoryErr>
        requires room { law_count self.old < 4294967295 }
        ensures added { OnOk result (self.new ≡ added_rule self.old name premises concl) }
        ensures unchanged { OnErr result (self.new ≡ self.old) }
        ensures refusal { IsRefusal (refusal_of self.old name premises concl) result }
    {
        if self.is_taken(name) {
            return Err(TheoryErr::Taken);
        }
        let found = match find_rule_fault(alloc, &premises, &concl) {
            Ok(found) => found,
            // It answers the same in longer time, so want of memory hides no fault.
            Err(NoMemory) => rule_fault(&premises, &concl),
        };
        if let Some(fault) = found {
            return Err(TheoryErr::Schema(fault));
        }
        let Ok(needs) = find_needs(alloc, &premises, &concl) else {
            return Err(TheoryErr::NoMemory);
        };
        let rule = Rule {
            name,
            premises,
            concl,
            needs,
        };
        match self.enter(name, Law::Rule(rule)) {
            Ok(()) => Ok(()),
            Err(NoMemory) => Err(TheoryErr::NoMemory),
        }
    }

    /// Adds the rewrite with these conditions, this redex and this contractum at the end. Refused is first a name that a law
    /// has already, then the first fault of the patterns. After an error the theory is as it was.
    pub fn add_rewrite(
        &mut self,
        alloc: Global,
        name: Sym,
        conds: List<Pattern>,
        redex: Pattern,
        contractum: Pattern,
    ) -> Result<(), TheoryErr>
        requires room { law_count self.old < 4294967295 }
        ensures added { OnOk result (self.new ≡ added_rewrite self.old name conds redex contractum) }
        ensures unchanged { OnErr result (self.new ≡ self.old) }
        ensures refusal { IsRefusal (rewrite_refusal_of self.old name conds redex contractum) result }
    {
        if self.is_taken(name) {
            return Err(TheoryErr::Taken);
        }
        if let Some(fault) = rewrite_fault(&conds, &redex, &contractum) {
            return Err(TheoryErr::Schema(fault));
        }
        let rewrite = Rewrite {
            name,
            conds,
            redex,
            contractum,
        };
        match self.enter(name, Law::Rewrite(rewrite)) {
            Ok(()) => Ok(()),
            Err(NoMemory) => Err(TheoryErr::NoMemory),
        }
    }

    // The law has a new name.
    fn enter(&mut self, name: Sym, law: Law) -> Result<(), NoMemory>
        requires room { law_count self.old < 4294967295 }
        requires law { IsLaw law }
        requires named { name_in law ≡ name.0 }
        requires new { name_taken self.old name ≡ false }
        ensures added { OnOk result (self.new ≡ record { laws = self.old.laws ++ law ∷ [] }) }
        ensures unchanged { OnErr result (self.new ≡ self.old) }
    {
        match self.laws.insert(name.0, law) {
            Ok(_) => Ok(()),
            Err(_) => Err(NoMemory),
        }
    }

    /// The number of laws.
    pub fn len(&self) -> u32
        ensures count { result ≡ law_count self.now }
        ensures theory { IsTheory self.now }
    {
        self.laws.len() as u32
    }

    /// Whether a law has this name.
    pub fn is_taken(&self, name: Sym) -> bool
        ensures { result ≡ name_taken self.now name }
    {
        self.laws.contains_key(&name.0)
    }

    // The law at this place, counted from 0.
    fn law(&self, place: u32) -> Option<&Law>
        ensures law { option_copied result ≡ slice_get self.now.laws place }
        ensures whole { IfSome result (λ law. IsLaw law.now) }
    {
        match self.laws.get_index(place as usize) {
            Some((_, law)) => Some(law),
            None => None,
        }
    }

    // The place of the law with this name.
    fn place_of(&self, name: Sym) -> Option<u32>
        ensures place { result ≡ position (nat_eq name.0) (map name_in self.now.laws) }
        ensures theory { IsTheory self.now }
    {
        match self.laws.get_index_of(&name.0) {
            Some(place) => Some(place as u32),
            None => None,
        }
    }

    /// The rule at this place, counted from 0. None exactly where no law stands there or one of another kind. A rule of a
    /// theory has no fault, and its needs are what its premises need.
    pub fn rule(&self, place: u32) -> Option<&Rule>
        ensures rule { option_copied result ≡ rule_at self.now place }
        ensures whole { IfSome result (λ rule. IsRule rule.now) }
    {
        match self.law(place) {
            Some(law) => law.as_rule(),
            None => None,
        }
    }

    /// The rewrite at this place, counted from 0. None exactly where no law stands there or one of another kind. A rewrite
    /// of a theory has no fault.
    pub fn rewrite(&self, place: u32) -> Option<&Rewrite>
        ensures rewrite { option_copied result ≡ rewrite_at self.now place }
        ensures whole { IfSome result (λ rewrite. IsRewrite rewrite.now) }
    {
        match self.law(place) {
            Some(law) => law.as_rewrite(),
            None => None,
        }
    }

    /// The place of the rule with this name. None exactly where no rule has it.
    pub fn rule_named(&self, name: Sym) -> Option<u32>
        ensures { result ≡ place_of_rule self.now name }
    {
        let place = self.place_of(name)?;
        match self.rule(place) {
            Some(_) => Some(place),
            None => None,
        }
    }

    /// The place of the rewrite with this name. None exactly where no rewrite has it.
    pub fn rewrite_named(&self, name: Sym) -> Option<u32>
        ensures { result ≡ place_of_rewrite self.now name }
    {
        let place = self.place_of(name)?;
        match self.rewrite(place) {
            Some(_) => Some(place),
            None => None,
        }
    }

    /// The most subgoals that a step by a law gives, and 0 without laws: of a rule the number of premises, of
    /// a rewrite the number of conditions and 1.
    pub fn width(&self) -> u32
        ensures { result ≡ width_of self.now }
    {
        let mut width = 0u32;
        for place in 0..self.len() {
            if let Some(law) = self.law(place) {
                width = width.max(law.width());
            }
        }
        width
    }
}
