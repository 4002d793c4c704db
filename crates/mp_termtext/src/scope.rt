ghost use Rattle.std.specs.Prelude.{◌≡◌, ◌++◌, ◌<◌, ◌^◌, OnOk, IfSome};
ghost use Rattle.mp_termtext.specs.Statics.{level_of, names_of, place_in};

use mp_logic::{NoMemory, Sym};
use mp_words::RawName;

/// The place of the last name of the list that is this one.
fn place_in(env: &[Sym], name: Sym) -> Option<usize>
    ensures place { result ≡ place_in env.now name }
    ensures below { IfSome result (λ at. at < 2 ^ 63) }
{
    let mut at = env.len();
    while at > 0 {
        at -= 1;
        if env[at] == name {
            return Some(at);
        }
    }
    None
}

/// The level that a variable means, where the names `env` are bound after so many free ones, which are `x1`
/// and so on. It is that of the last one that is bound under its name, and else that of the free one of its
/// number.
pub fn level_of(free: u32, env: &[Sym], name: Sym, numbered: Option<u32>) -> Option<u64>
    ensures { result ≡ level_of free env.now name numbered }
{
    if let Some(at) = place_in(env, name) {
        return Some(free as u64 + at as u64);
    }
    match numbered {
        Some(number) if 0 < number && number <= free => Some((number - 1) as u64),
        _ => None,
    }
}

/// Appends the names of the binders.
pub fn push_names(env: &mut Vec<Sym>, binders: &[RawName]) -> Result<(), NoMemory>
    ensures { OnOk result (env.new.items ≡ env.old.items ++ names_of binders.now) }
{
    for binder in binders {
        if env.push(binder.name).is_err() {
            return Err(NoMemory);
        }
    }
    Ok(())
}
