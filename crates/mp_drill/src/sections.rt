ghost use Rattle.std.specs.Prelude.{◌≡◌, IfOk};
ghost use Rattle.mp_drill.specs.Sections.{events_of, SameEvents};

use crate::schedule::{Event, Section};
use mp_logic::{List, NoMemory, Sym};
use mp_names::NameSet;
use std::alloc::Global;
use std::marker::Model;

/// The events of goals, each goal's found by its name in constant time. Contracts see the list of the sections that are
/// kept, of which each goal has one at most.
#[derive(Drop)]
pub struct Sections {
    names: NameSet,
    sections: List<Section>,
    /// The events of a goal without a section.
    none: List<Event>,
}

impl Model for Sections {
    ghost use Rattle.std.specs.Prelude.{◌≡◌, List, [], map};
    ghost use Rattle.mp_drill.specs.declared.schedule.Section.{Section};

    ghost Value = { List Section };

    ghost view = { λ it. it.sections };

    ghost invariant = { λ it. (it.names ≡ map (λ s. s.goal.0) it.sections) × (it.none ≡ []) };
}

impl Sections {
    /// Keeps the first section of each goal. The others go, since a goal has the events of its first one. The time is
    /// linear in the number of the sections.
    pub fn new(alloc: Global, sections: List<Section>) -> Result<Sections, NoMemory>
        ensures { IfOk result (λ kept. SameEvents kept sections) }
    {
        let mut names = NameSet::new(alloc);
        let mut kept = List::new(alloc);
        for section in sections.into_vec() {
            if names.meet(section.goal)? {
                continue;
            }
            if let Err((_, refused)) = kept.push(section) {
                return Err(refused);
            }
        }
        Ok(Sections {
            names,
            sections: kept,
            none: List::new(alloc),
        })
    }

    /// The events of the goal's section; none where it has none.
    pub fn events(&self, goal: Sym) -> &List<Event>
        ensures { result.now ≡ events_of self.now goal }
    {
        let Some(place) = self.names.place(goal) else {
            return &self.none;
        };
        match self.sections.get(place as u64) {
            Some(section) => &section.events,
            None => &self.none,
        }
    }
}
