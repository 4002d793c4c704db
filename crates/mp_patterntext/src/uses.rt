#![tactic(auto, using(crate::proofs::Gathering::gathering_uses))]

ghost use Rattle.std.specs.Prelude.{◌≡◌, ◌++◌, ◌∷◌, [], IfOk, OnOk, map};
ghost use Rattle.std.specs.List.{flat_map};
ghost use Rattle.mp_logic.specs.declared.sym.Sym.{Sym as Name};
ghost use Rattle.mp_logic.specs.Lists.{same_bool};
ghost use Rattle.mp_schema.specs.Faults.{same_names};
ghost use Rattle.mp_words.specs.Faults.{least_from};
ghost use Rattle.mp_patterntext.specs.Places.{Enters, first_held, use_at};
ghost use Rattle.mp_patterntext.specs.Scopes.{syms_of};
ghost use Rattle.mp_patterntext.specs.Uses.{first_use, is_like_first_use, is_like_use, uses_faults, use_name, uses_in, uses_in_bound};

use crate::{RawPattern, RawPatternBound};
use mp_logic::{List, NoMemory, Sym};
use mp_words::{RawName, TextErr, TextWhy, sooner_if};
use std::alloc::Global;
use std::collections::HashMap;

/// A place where a second-order variable stands, or a context as an item.
#[derive(Clone, Copy)]
pub struct Place<'a> {
    /// Whether it is a context.
    pub is_context: bool,
    /// The name.
    pub name: Sym,
    /// The first byte of the name.
    pub at: u32,
    /// Its list of contexts.
    pub ctxs: &'a [RawName],
    /// Its arguments.
    pub args: &'a [RawPattern],
}

/// The first use of each name, by the name's number.
#[derive(Drop)]
pub struct FirstUses<'a> {
    places: HashMap<u32, Place<'a>>,
}

impl<'a> FirstUses<'a> {
    // A name that has a use keeps it.
    fn enter(&mut self, place: Place<'a>) -> Result<(), NoMemory>
        ensures { OnOk result (Enters self.old (use_at place.entry ∷ []) self.new) }
    {
        match self.places.entry(place.name.0) {
            Ok(entry) => {
                entry.or_insert(place);
                Ok(())
            }
            Err(_) => Err(NoMemory),
        }
    }

    // Whether it is like the first use of its name.
    fn has_like(&self, place: Place<'_>) -> bool
        ensures { result ≡ is_like_first_use (first_held self.now place.entry.name) (use_at place.entry) }
    {
        match self.places.get(&place.name.0) {
            Some(first) => are_alike(*first, place),
            None => false,
        }
    }
}

fn are_same_names(names: &[RawName], others: &[RawName]) -> bool
    ensures { result ≡ same_names (syms_of names.now) (syms_of others.now) }
{
    if names.len() != others.len() {
        return false;
    }
    for (i, name) in names.iter().enumerate() {
        if name.name.0 != others[i].name.0 {
            return false;
        }
    }
    true
}

fn are_alike(first: Place<'_>, place: Place<'_>) -> bool
    ensures { result ≡ is_like_use (use_at first.entry) (use_at place.entry) }
{
    first.is_context == place.is_context
        && are_same_names(first.ctxs, place.ctxs)
        && first.args.len() == place.args.len()
}

// The first use of each name among these.
fn find_first_uses<'a>(alloc: Global, places: &[Place<'a>]) -> Result<FirstUses<'a>, NoMemory>
    ensures { IfOk result (λ firsts. (name : Name) → first_held firsts name ≡ first_use (map use_at places.now) name) }
{
    let mut firsts = FirstUses {
        places: HashMap::new(alloc),
    };
    for place in places {
        firsts.enter(*place)?;
    }
    Ok(firsts)
}

/// The earliest of the fault that is held and those of the uses at these places: each is like the first one of its name.
pub fn check_alike(
    alloc: Global,
    places: &[Place<'_>],
    held: Option<TextErr>,
) -> Result<Option<TextErr>, NoMemory>
    ensures { IfOk result (λ found. found ≡ least_from held (uses_faults (map use_at places.now))) }
{
    let firsts = find_first_uses(alloc, places)?;
    let mut held = held;
    for place in places {
        let differs = !firsts.has_like(*place);
        held = sooner_if(held, differs, place.at, TextWhy::BadUse);
    }
    Ok(held)
}

/// The names at these places.
pub fn names_at(alloc: Global, places: &[Place<'_>]) -> Result<List<RawName>, NoMemory>
    ensures { IfOk result (λ names. names ≡ map use_name (map use_at places.now)) }
{
    let mut names = List::new(alloc);
    for place in places {
        let name = RawName {
            name: place.name,
            at: place.at,
        };
        if let Err((_, refused)) = names.push(name) {
            return Err(refused);
        }
    }
    Ok(names)
}

/// Appends a place.
pub fn push_place<'a>(places: &mut List<Place<'a>>, place: Place<'a>) -> Result<(), NoMemory>
    ensures { OnOk result (map use_at places.new ≡ map use_at places.old ++ use_at place.entry ∷ []) }
{
    match places.push(place) {
        Ok(()) => Ok(()),
        Err((_, refused)) => Err(refused),
    }
}

/// Appends the places in a pattern, in the order of the text.
#[cycle(gathering)]
pub fn gather_uses<'a>(raw: &'a RawPattern, places: &mut List<Place<'a>>) -> Result<(), NoMemory>
    ensures { OnOk result (map use_at places.new ≡ map use_at places.old ++ uses_in raw.now) }
{
    match raw {
        RawPattern::Var { .. } => Ok(()),
        RawPattern::Op { subs, .. } => gather_bound_uses(subs.as_slice(), places),
        RawPattern::Meta {
            name,
            ctxs,
            args,
            at,
        } => {
            let place = Place {
                is_context: false,
                name: *name,
                at: *at,
                ctxs: ctxs.as_slice(),
                args: args.as_slice(),
            };
            push_place(places, place)?;
            gather_argument_uses(args.as_slice(), places)
        }
    }
}

#[cycle(gathering)]
fn gather_bound_uses<'a>(
    subs: &'a [RawPatternBound],
    places: &mut List<Place<'a>>,
) -> Result<(), NoMemory>
    ensures { OnOk result (map use_at places.new ≡ map use_at places.old ++ flat_map uses_in_bound subs.now) }
{
    for sub in subs {
        gather_uses(&sub.body, places)?;
    }
    Ok(())
}

/// Appends the places in arguments, in the order of the text.
#[cycle(gathering)]
pub fn gather_argument_uses<'a>(
    args: &'a [RawPattern],
    places: &mut List<Place<'a>>,
) -> Result<(), NoMemory>
    ensures { OnOk result (map use_at places.new ≡ map use_at places.old ++ flat_map uses_in args.now) }
{
    for arg in args {
        gather_uses(arg, places)?;
    }
    Ok(())
}
