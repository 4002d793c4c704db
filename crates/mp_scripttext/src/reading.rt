ghost use Rattle.std.specs.Prelude.{◌<◌, ◌≤◌, ◌+◌, ◌-◌, ◌^◌, length, IfOk};
ghost use Rattle.mp_names.specs.Table.{Extends};
ghost use Rattle.mp_scripttext.specs.Entries.{EachGood};
ghost use Rattle.mp_scripttext.specs.Reading.{ReadsScript};

use crate::goals::{Goals, read_goals};
use crate::script::Script;
use mp_names::Names;
use mp_theory::Theory;
use mp_words::{TextFail, lex_text, stopped};
use std::alloc::Global;

/// Reads a script that is all of the text, in a theory: its goals, in the order of the text. A step may give what its rule
/// needs in any order. Bad has the one fault of the text: the first lexical one; else Syntax, at the token at which the
/// grammar is stuck, or at the text's length where it ends too early; else the least static one, which is Taken,
/// UnknownName, TooMany, TooDeep, TooBig, BadNumber, UnboundVar, AtNeeded, AtRefused, MissingWith, ExtraWith, TwiceWith or
/// BadArity. Earlier names keep their numbers, and at most as many are added as the text has bytes, also where the text
/// is refused.
pub fn read_script(
    alloc: Global,
    names: &mut Names,
    theory: &Theory,
    source: &[u8],
) -> Result<Script, TextFail>
    requires room { length names.old + length source.now < 2 ^ 32 - 1 }
    ensures reads { ReadsScript theory.now names.old source.now result names.new }
    ensures good { IfOk result (λ script. EachGood theory.now script.entries) }
    ensures grown { Extends names.old names.new }
    ensures few { length names.new ≤ length names.old + length source.now }
{
    let words = lex_text(alloc, names, source)?;
    // `len` ensures that these are a theory's laws, by which the justifications are allowed.
    let _count = theory.len();
    let mut goals = Goals::new(alloc);
    if let Err(fail) = read_goals(alloc, theory, &mut goals, words.as_slice()) {
        return Err(stopped(source, fail));
    }
    if let Some(fault) = goals.fault(alloc)? {
        return Err(TextFail::Bad(fault));
    }
    Ok(Script {
        entries: goals.entries,
    })
}
