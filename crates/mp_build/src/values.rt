ghost use Rattle.std.specs.Prelude.{◌≡◌, ◌<◌, ◌^◌, length};
ghost use Rattle.mp_schema.specs.Sequents.{wide_of};
ghost use Rattle.mp_schema.specs.Values.{instance_of, kept_of};

use mp_logic::Sym;
use mp_schema::{Inst, context_value};

/// The number of hypotheses that are kept of a context.
pub(crate) fn kept_count(inst: &Inst, name: Sym) -> u64
    ensures { result ≡ length (kept_of inst.now.ctxs name) }
{
    match context_value(&inst.ctxs, name) {
        Some(context) => context.hyps.len(),
        None => 0,
    }
}

/// The number of variables that a value has before its arguments: the ambient ones, and those of these contexts.
pub(crate) fn width_before(inst: &Inst, ctxs: &[Sym]) -> u64
    requires { wide_of (instance_of inst.now) ctxs.now < 2 ^ 31 }
    ensures { result ≡ wide_of (instance_of inst.now) ctxs.now }
{
    let mut total = inst.ambient as u64;
    for name in ctxs {
        total += kept_count(inst, *name);
    }
    total
}
