ghost use Rattle.std.specs.Prelude.{◌≡◌, [], IfOk};
ghost use Rattle.std.specs.Option.{option_copied};
ghost use Rattle.mp_steptext.specs.Names.{all_met, given_numbers, need_numbers};
ghost use Rattle.mp_steptext.specs.Statics.{given_of, need_of};

use crate::raw::RawGiven;
use mp_logic::{NoMemory, Sym};
use mp_names::NameSet;
use mp_theory::Need;
use std::alloc::Global;

/// The names of needs.
pub(crate) fn need_names(alloc: Global, needs: &[Need]) -> Result<NameSet, NoMemory>
    ensures { IfOk result (λ names. names ≡ all_met [] (need_numbers needs.now)) }
{
    let mut names = NameSet::new(alloc);
    for need in needs {
        names.meet(need.name)?;
    }
    Ok(names)
}

/// The names of what is given.
pub(crate) fn given_names<R>(alloc: Global, given: &[RawGiven<R>]) -> Result<NameSet, NoMemory>
    ensures { IfOk result (λ names. names ≡ all_met [] (given_numbers given.now)) }
{
    let mut names = NameSet::new(alloc);
    for raw in given {
        names.meet(raw.name.name)?;
    }
    Ok(names)
}

/// The need of this name, among needs of these names.
pub(crate) fn find_need<'a>(needs: &'a [Need], names: &NameSet, name: Sym) -> Option<&'a Need>
    requires { names.now ≡ need_numbers needs.now }
    ensures { option_copied result ≡ need_of needs.now name }
{
    let place = names.place(name)?;
    needs.get(place)
}

/// What is given under this name, among all that is given under these names.
pub(crate) fn find_given<'a, R>(
    given: &'a [RawGiven<R>],
    names: &NameSet,
    name: Sym,
) -> Option<&'a RawGiven<R>>
    requires { names.now ≡ given_numbers given.now }
    ensures { option_copied result ≡ given_of given.now name }
{
    let place = names.place(name)?;
    given.get(place)
}
