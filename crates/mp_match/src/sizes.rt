ghost use Rattle.std.specs.Prelude.{◌≡◌, length};
ghost use Rattle.mp_schema.specs.Conditions.{contexts_among};
ghost use Rattle.mp_match.specs.Walks.{named_in, sizes_of, size_after};

use mp_logic::List;
use mp_schema::{CtxVal, Item};

/// The sizes of the contexts of a schema in a goal.
#[derive(Clone, Copy)]
pub(crate) struct Sizes {
    /// The size of the first context.
    pub first: u32,
    /// The size of each later one.
    pub later: u32,
}

// The sizes of the contexts in a goal with so many hypotheses; None where one would be negative, or where there is
// no context and the numbers differ.
pub(crate) fn context_sizes(items: &List<Item>, first: Option<u32>, hyps: u32) -> Option<Sizes>
    ensures { result ≡ sizes_of items.now first hyps }
{
    let counts = count_items(items);
    if (hyps as u64) < counts.named {
        return None;
    }
    let left = hyps - counts.named as u32;
    if counts.contexts == 0 {
        if left > 0 {
            return None;
        }
        return Some(Sizes { first: 0, later: 0 });
    }
    match first {
        None => Some(Sizes {
            first: left,
            later: 0,
        }),
        Some(first) => {
            if left < first {
                return None;
            }
            Some(Sizes {
                first,
                later: left - first,
            })
        }
    }
}

#[derive(Clone, Copy)]
pub(crate) struct Counts {
    pub named: u64,
    pub contexts: u64,
}

pub(crate) fn count_items(items: &List<Item>) -> Counts
    ensures named { result.named ≡ named_in items.now }
    ensures contexts { result.contexts ≡ length (contexts_among items.now) }
{
    let mut counts = Counts {
        named: 0,
        contexts: 0,
    };
    for item in items.as_slice() {
        match item {
            Item::Hyp(_) => counts.named += 1,
            Item::Ctx { .. } => counts.contexts += 1,
        }
    }
    counts
}

// The size of the next context, after these.
pub(crate) fn next_size(sizes: Sizes, ctxs: &List<CtxVal>) -> u32
    ensures { result ≡ size_after sizes ctxs.now }
{
    if ctxs.len() == 0 {
        sizes.first
    } else {
        sizes.later
    }
}
