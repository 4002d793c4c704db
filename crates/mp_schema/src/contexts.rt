ghost use Rattle.std.specs.Prelude.{◌≡◌, length};
ghost use Rattle.mp_schema.specs.Conditions.{nothing_before, each_item, item_between, contexts_among, context_names, has_all, has_two_contexts, is_apart, is_framed};
ghost use Rattle.mp_schema.specs.Faults.{is_listed, is_single};

use crate::demand::{Demand, item_keeps, pattern_keeps, schema_keeps};
use crate::place::{Use, are_contexts, are_names_apart, is_context};
use crate::{Item, Schema};

/// The contexts of a list are among these items.
#[derive(Clone, Copy)]
pub(crate) struct Listed<'a> {
    pub before: &'a [Item],
}

impl Demand for Listed<'_> {
    ghost keeps = { λ demand o. has_all (contexts_among demand.before.now) o.ctxs };

    fn is_kept(&self, place: Use<'_>) -> bool {
        are_contexts(self.before, place.ctxs)
    }
}

/// No context is twice in a list.
#[derive(Clone, Copy)]
pub(crate) struct Single;

impl Demand for Single {
    ghost keeps = { λ demand o. is_apart o.ctxs };

    fn is_kept(&self, place: Use<'_>) -> bool {
        are_names_apart(place.ctxs)
    }
}

// Whether each context of a list is an item before it.
pub(crate) fn is_schema_listed(s: &Schema) -> bool
    ensures { result ≡ is_listed s.now }
{
    let items = s.items.as_slice();
    for (i, item) in items.iter().enumerate() {
        let demand = Listed {
            before: &items[..i],
        };
        if !item_keeps(item, &demand) {
            return false;
        }
    }
    pattern_keeps(&s.concl, &Listed { before: items })
}

// Whether no context is an item twice, or twice in one list.
pub(crate) fn is_schema_single(s: &Schema) -> bool
    ensures { result ≡ is_single s.now }
{
    are_contexts_apart(s.items.as_slice()) && schema_keeps(s, &Single)
}

fn are_contexts_apart(items: &[Item]) -> bool
    ensures { result ≡ is_apart (contexts_among items.now) }
{
    for (i, item) in items.iter().enumerate() {
        if let Item::Ctx { name, .. } = item
            && is_context(&items[i + 1..], *name)
        {
            return false;
        }
    }
    true
}

// Whether the contexts of a premise are among those of the conclusion.
pub(crate) fn has_contexts_of(concl: &Schema, premise: &Schema) -> bool
    ensures { result ≡ has_all (context_names concl.now) (context_names premise.now) }
{
    for item in premise.items.as_slice() {
        if let Item::Ctx { name, .. } = item
            && !is_context(concl.items.as_slice(), *name)
        {
            return false;
        }
    }
    true
}

// The number of contexts among the items.
pub(crate) fn count_contexts(items: &[Item]) -> u64
    ensures { result ≡ length (contexts_among items.now) }
{
    let mut contexts = 0u64;
    for item in items {
        if let Item::Ctx { .. } = item {
            contexts += 1;
        }
    }
    contexts
}

/// Whether exactly two items of the schema are contexts. A step by a rule with such a conclusion says how many hypotheses
/// the first one has.
pub fn has_two_contexts(schema: &Schema) -> bool
    ensures { result ≡ has_two_contexts schema.now }
{
    count_contexts(schema.items.as_slice()) == 2
}

// Whether the named hypotheses stand between the contexts, if there are two.
pub(crate) fn is_schema_framed(s: &Schema) -> bool
    ensures { result ≡ is_framed s.now }
{
    !has_two_contexts(s) || are_hypotheses_between(s.items.as_slice())
}

// Whether one context stands before each named hypothesis.
fn are_hypotheses_between(items: &[Item]) -> bool
    ensures { result ≡ each_item item_between items.now nothing_before }
{
    let mut contexts = 0u64;
    for item in items {
        match item {
            Item::Ctx { .. } => contexts += 1,
            Item::Hyp(_) => {
                if contexts != 1 {
                    return false;
                }
            }
        }
    }
    true
}
