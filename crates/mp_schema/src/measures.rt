ghost use Rattle.std.specs.Prelude.{◌≡◌, ◌+◌, ◌&&◌, ◌≤◌, length, map, sum, nat_le};
ghost use Rattle.std.specs.List.{list_all};
ghost use Rattle.mp_logic.specs.Trees.{counted};
ghost use Rattle.mp_logic.specs.Lists.{greatest};
ghost use Rattle.mp_schema.specs.Instances.{all_pass};
ghost use Rattle.mp_schema.specs.Limits.{few_of, few_of_bound, few_of_item, few_of_schema, pattern_depth_of, pattern_depth_of_bound, is_shallow_pattern, is_shallow_item, is_shallow_schema, pattern_size_of, pattern_size_of_bound, item_size_of, schema_size_of, is_small_pattern, is_small_schema};

use crate::limits::{MOST_ARGUMENTS, MOST_CONTEXTS, MOST_ITEMS};
use crate::{Item, PBound, Pattern, Schema};
use mp_term::limits::{MOST_BINDERS, MOST_DEPTH, MOST_NODES, MOST_PARAMETERS};

// Whether a schema keeps the limits on how many there may be.
pub(crate) fn is_few(s: &Schema) -> bool
    ensures { result ≡ few_of_schema s.now }
{
    if s.items.len() > MOST_ITEMS {
        return false;
    }
    for item in s.items.as_slice() {
        if !is_few_item(item) {
            return false;
        }
    }
    is_few_pattern(&s.concl)
}

fn is_few_item(item: &Item) -> bool
    ensures { result ≡ few_of_item item.now }
{
    match item {
        Item::Hyp(p) => is_few_pattern(p),
        Item::Ctx { ctxs, args, .. } => {
            ctxs.len() <= MOST_CONTEXTS
                && args.len() <= MOST_ARGUMENTS
                && are_few_arguments(args.as_slice())
        }
    }
}

#[cycle(few)]
pub(crate) fn is_few_pattern(p: &Pattern) -> bool
    ensures { result ≡ few_of p.now }
{
    match p {
        Pattern::Var(_) => true,
        Pattern::Op { params, subs, .. } => {
            params.len() <= MOST_PARAMETERS && are_few_bodies(subs.as_slice())
        }
        Pattern::Meta { ctxs, args, .. } => {
            ctxs.len() <= MOST_CONTEXTS
                && args.len() <= MOST_ARGUMENTS
                && are_few_arguments(args.as_slice())
        }
    }
}

#[cycle(few)]
fn are_few_bodies(subs: &[PBound]) -> bool
    ensures { result ≡ all_pass (map few_of_bound subs.now) }
{
    for sub in subs {
        if sub.binders > MOST_BINDERS || !is_few_pattern(&sub.body) {
            return false;
        }
    }
    true
}

#[cycle(few)]
fn are_few_arguments(args: &[Pattern]) -> bool
    ensures { result ≡ all_pass (map few_of args.now) }
{
    for arg in args {
        if !is_few_pattern(arg) {
            return false;
        }
    }
    true
}

// Whether no pattern of the schema is too deep.
pub(crate) fn is_shallow(s: &Schema) -> bool
    ensures { result ≡ is_shallow_schema s.now }
{
    let items = s.items.as_slice();
    items.iter().all(|item| is_item_shallow(item)) && is_pattern_shallow(&s.concl)
}

fn is_item_shallow(item: &Item) -> bool
    ensures { result ≡ is_shallow_item item.now }
{
    match item {
        Item::Hyp(p) => is_pattern_shallow(p),
        Item::Ctx { args, .. } => deepest_argument(args.as_slice()) < MOST_DEPTH,
    }
}

pub(crate) fn is_pattern_shallow(p: &Pattern) -> bool
    ensures { result ≡ is_shallow_pattern p.now }
{
    pattern_depth(p) <= MOST_DEPTH
}

// The depth. The count stops at `2^64 - 1`.
#[cycle(deep)]
fn pattern_depth(p: &Pattern) -> u64
    ensures { result ≡ counted (pattern_depth_of p.now) }
{
    match p {
        Pattern::Var(_) => 1,
        Pattern::Op { subs, .. } => deepest_body(subs.as_slice()).saturating_add(1),
        Pattern::Meta { args, .. } => deepest_argument(args.as_slice()).saturating_add(1),
    }
}

#[cycle(deep)]
fn deepest_body(subs: &[PBound]) -> u64
    ensures { result ≡ counted (greatest (map pattern_depth_of_bound subs.now)) }
{
    let mut deepest = 0u64;
    for sub in subs {
        deepest = deepest.max(pattern_depth(&sub.body));
    }
    deepest
}

#[cycle(deep)]
fn deepest_argument(args: &[Pattern]) -> u64
    ensures { result ≡ counted (greatest (map pattern_depth_of args.now)) }
{
    let mut deepest = 0u64;
    for arg in args {
        deepest = deepest.max(pattern_depth(arg));
    }
    deepest
}

// Whether the schema has at most 20,000 nodes.
pub(crate) fn is_small(s: &Schema) -> bool
    ensures { result ≡ is_small_schema s.now }
{
    let mut total = pattern_size(&s.concl);
    for item in s.items.as_slice() {
        total = total.saturating_add(item_size(item));
    }
    total <= MOST_NODES
}

fn item_size(item: &Item) -> u64
    ensures { result ≡ counted (item_size_of item.now) }
{
    match item {
        Item::Hyp(p) => pattern_size(p),
        Item::Ctx { args, .. } => size_of_arguments(args.as_slice()),
    }
}

pub(crate) fn is_pattern_small(p: &Pattern) -> bool
    ensures { result ≡ is_small_pattern p.now }
{
    pattern_size(p) <= MOST_NODES
}

// The number of nodes. The count stops at `2^64 - 1`.
#[cycle(size)]
fn pattern_size(p: &Pattern) -> u64
    ensures { result ≡ counted (pattern_size_of p.now) }
{
    match p {
        Pattern::Var(_) => 1,
        Pattern::Op { subs, .. } => size_of_bodies(subs.as_slice()).saturating_add(1),
        Pattern::Meta { args, .. } => size_of_arguments(args.as_slice()).saturating_add(1),
    }
}

#[cycle(size)]
fn size_of_bodies(subs: &[PBound]) -> u64
    ensures { result ≡ counted (sum (map pattern_size_of_bound subs.now)) }
{
    let mut total = 0u64;
    for sub in subs {
        total = total.saturating_add(pattern_size(&sub.body));
    }
    total
}

#[cycle(size)]
fn size_of_arguments(args: &[Pattern]) -> u64
    ensures { result ≡ counted (sum (map pattern_size_of args.now)) }
{
    let mut total = 0u64;
    for arg in args {
        total = total.saturating_add(pattern_size(arg));
    }
    total
}
