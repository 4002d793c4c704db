ghost use Rattle.std.specs.Prelude.{◌≡◌, IfOk};

use mp_logic::{List, NoMemory};
use mp_term::copy;
use mp_theory::{Given, Just};
use std::alloc::Global;

/// An equal justification.
pub(crate) fn copy_justification(alloc: Global, just: &Just) -> Result<Just, NoMemory>
    ensures { IfOk result (λ copied. copied ≡ just.now) }
{
    match just {
        Just::Rule { rule, first, given } => Ok(Just::Rule {
            rule: *rule,
            first: *first,
            given: copy_given(alloc, given)?,
        }),
        Just::Rewrite {
            rewrite,
            place,
            address,
        } => Ok(Just::Rewrite {
            rewrite: *rewrite,
            place: *place,
            address: address.copy(alloc)?,
        }),
    }
}

fn copy_given(alloc: Global, given: &List<Given>) -> Result<List<Given>, NoMemory>
    ensures { IfOk result (λ copied. copied ≡ given.now) }
{
    let mut copies = List::with_capacity(alloc, given.len())?;
    for item in given.as_slice() {
        let copied = Given {
            name: item.name,
            arity: item.arity,
            body: copy(alloc, &item.body)?,
        };
        if let Err((_, refused)) = copies.push(copied) {
            return Err(refused);
        }
    }
    Ok(copies)
}
