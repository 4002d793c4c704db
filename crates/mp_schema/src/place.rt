ghost use Rattle.std.specs.Prelude.{◌≡◌, map};
ghost use Rattle.mp_schema.specs.Conditions.{has, has_all, is_apart, contexts_among};
ghost use Rattle.mp_schema.specs.Occurrences.{variable_level};
ghost use Rattle.mp_schema.specs.Faults.{has_level, are_distinct, is_like};
ghost use Rattle.mp_schema.specs.Places.{occurrence_at};

use crate::{Item, Pattern};
use mp_logic::{List, Sym};

/// A use of a name in a text: where a context is an item, or where a second-order variable stands.
#[derive(Clone, Copy)]
pub(crate) struct Use<'a> {
    /// Whether it is a context.
    pub is_context: bool,
    /// The name.
    pub name: Sym,
    /// Its list of contexts.
    pub ctxs: &'a [Sym],
    /// Its arguments.
    pub args: &'a [Pattern],
}

impl<'a> Use<'a> {
    // Where a context or a second-order variable has this list of contexts and these arguments.
    pub(crate) fn new(
        is_context: bool,
        name: Sym,
        ctxs: &'a List<Sym>,
        args: &'a List<Pattern>,
    ) -> Use<'a>
        ensures { occurrence_at result ≡ record { is_context = is_context; name = name; ctxs = ctxs.now; levels = map variable_level args.now } }
    {
        Use {
            is_context,
            name,
            ctxs: ctxs.as_slice(),
            args: args.as_slice(),
        }
    }
}

// Whether both are of one kind, with the same list of contexts and as many arguments.
pub(crate) fn are_alike(first: Use<'_>, place: Use<'_>) -> bool
    ensures { result ≡ is_like (occurrence_at first.entry) (occurrence_at place.entry) }
{
    first.is_context == place.is_context
        && first.ctxs == place.ctxs
        && first.args.len() == place.args.len()
}

// Whether no name is in the list twice.
pub(crate) fn are_names_apart(names: &[Sym]) -> bool
    ensures { result ≡ is_apart names.now }
{
    for (i, name) in names.iter().enumerate() {
        if has_name(&names[i + 1..], *name) {
            return false;
        }
    }
    true
}

fn has_name(names: &[Sym], name: Sym) -> bool
    ensures { result ≡ has names.now name }
{
    for other in names {
        if other.0 == name.0 {
            return true;
        }
    }
    false
}

// Whether each of the names is a context among the items.
pub(crate) fn are_contexts(items: &[Item], names: &[Sym]) -> bool
    ensures { result ≡ has_all (contexts_among items.now) names.now }
{
    for name in names {
        if !is_context(items, *name) {
            return false;
        }
    }
    true
}

// Whether the name is a context among the items.
pub(crate) fn is_context(items: &[Item], name: Sym) -> bool
    ensures { result ≡ has (contexts_among items.now) name }
{
    for item in items {
        if let Item::Ctx { name: other, .. } = item
            && other.0 == name.0
        {
            return true;
        }
    }
    false
}

// Whether the arguments are distinct variables.
pub(crate) fn are_distinct_variables(args: &[Pattern]) -> bool
    ensures { result ≡ are_distinct (map variable_level args.now) }
{
    for (i, arg) in args.iter().enumerate() {
        match arg {
            Pattern::Var(level) => {
                if has_variable(&args[i + 1..], *level) {
                    return false;
                }
            }
            _ => return false,
        }
    }
    true
}

fn has_variable(args: &[Pattern], level: u32) -> bool
    ensures { result ≡ has_level (map variable_level args.now) level }
{
    for arg in args {
        if let Pattern::Var(other) = arg
            && *other == level
        {
            return true;
        }
    }
    false
}
