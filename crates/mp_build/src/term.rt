ghost use Rattle.std.specs.Prelude.{◌≡◌, ◌<◌, ◌^◌, [], IsTrue};
ghost use Rattle.mp_schema.specs.Conditions.{below, lists_known};
ghost use Rattle.mp_schema.specs.Instances.{fits};
ghost use Rattle.mp_schema.specs.Sequents.{wide_of};
ghost use Rattle.mp_schema.specs.Values.{instance_of};
ghost use Rattle.mp_build.specs.Built.{term_of, IsBuiltTerm};
ghost use Rattle.mp_build.specs.Rooms.{room};

use crate::BuildErr;
use crate::build::build_within;
use crate::site::{Site, Span};
use crate::sizes::weigh_pattern;
use mp_schema::{Inst, Pattern};
use mp_term::Term;
use std::alloc::Global;

/// The instance of a pattern of a rewrite, in the scope of its place: `inst.ambient`.
///
/// Each variable of the pattern must be a binder's, no list may have a context, and each value must be in the
/// scope that its uses ask, where a name without a value counts as variable 0. No scope on the way may reach
/// `2^31`.
///
/// TooLarge exactly where the instance is deeper than 200 or has more than 20,000 nodes. This is found before
/// anything is built, and the search for it ends at the limits. NoMemory where memory ran out.
pub fn build_term(alloc: Global, p: &Pattern, inst: &Inst) -> Result<Term, BuildErr>
    requires closed { IsTrue (below p.now 0) }
    requires fitting { let v = instance_of inst.now in IsTrue (fits (wide_of v) v.values p.now) }
    requires plain { IsTrue (lists_known [] p.now) }
    requires narrow { let v = instance_of inst.now in room (wide_of v) v.values p.now v.ambient < 2 ^ 31 }
    ensures { IsBuiltTerm (term_of (instance_of inst.now) p.now) result }
{
    weigh_pattern(alloc, p, inst)?;
    let site = Site {
        places: Vec::new(alloc),
        starts: Vec::new(alloc),
        next: inst.ambient,
    };
    let span = Span {
        base: inst.ambient,
        scope: inst.ambient,
    };
    let made = build_within(alloc, p, inst, &site, span)?;
    Ok(made)
}
