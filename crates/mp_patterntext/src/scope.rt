ghost use Rattle.std.specs.Prelude.{◌≡◌, ◌&&◌, not};
ghost use Rattle.mp_names.specs.Sets.{is_among};
ghost use Rattle.mp_words.specs.Faults.{is_behind, least_from};
ghost use Rattle.mp_words.specs.Seconds.{second_faults};
ghost use Rattle.mp_patterntext.specs.Scopes.{syms_of};
ghost use Rattle.mp_patterntext.specs.Nodes.{dangling_faults};

use mp_logic::Sym;
use mp_words::{RawName, TextErr, TextWhy, behind, sooner_if};

fn has_name(names: &[RawName], name: Sym) -> bool
    ensures { result ≡ is_among (syms_of names.now) name }
{
    for other in names {
        if other.name.0 == name.0 {
            return true;
        }
    }
    false
}

// Behind a fault that is held no name is looked for.
fn is_unknown(held: Option<TextErr>, known: &[RawName], ctx: RawName) -> bool
    ensures { result ≡ (not (is_behind held ctx.at) && not (is_among (syms_of known.now) ctx.name)) }
{
    !behind(held, ctx.at) && !has_name(known, ctx.name)
}

// Behind a fault that is held no name is looked for.
fn is_second(held: Option<TextErr>, earlier: &[RawName], name: RawName) -> bool
    ensures { result ≡ (not (is_behind held name.at) && is_among (syms_of earlier.now) name.name) }
{
    !behind(held, name.at) && has_name(earlier, name.name)
}

/// The earliest of the fault that is held and those of contexts that aren't among the known ones.
// The time is linear: behind the ninth context of a list, and the 201st item of a schema, there is a fault that is held.
pub fn check_known(held: Option<TextErr>, known: &[RawName], ctxs: &[RawName]) -> Option<TextErr>
    ensures { result ≡ least_from held (dangling_faults (syms_of known.now) ctxs.now) }
{
    let mut held = held;
    for ctx in ctxs {
        let unknown = is_unknown(held, known, *ctx);
        held = sooner_if(held, unknown, ctx.at, TextWhy::DanglingContext);
    }
    held
}

/// The earliest of the fault that is held and those of a second one of its name, where only few names count.
pub fn check_apart(held: Option<TextErr>, names: &[RawName], why: TextWhy) -> Option<TextErr>
    ensures { result ≡ least_from held (second_faults (λ n. n) why names.now) }
{
    let mut held = held;
    for (i, name) in names.iter().enumerate() {
        let second = is_second(held, &names[..i], *name);
        held = sooner_if(held, second, name.at, why);
    }
    held
}
