ghost use Rattle.std.specs.Prelude.{◌<◌, ◌≤◌, ◌+◌, ◌-◌, ◌^◌, length};
ghost use Rattle.mp_names.specs.Table.{Extends};
ghost use Rattle.mp_theory.specs.Tables.{law_count};
ghost use Rattle.mp_theorytext.specs.Reading.{ReadsTheory};

use crate::making::build_theory;
use crate::statics::theory_fault;
use crate::syntax::parse_theory;
use mp_names::Names;
use mp_theory::Theory;
use mp_words::{TextFail, lex_text, stopped};
use std::alloc::Global;

/// Reads rules and rewrites that are all of the text, and adds them to the theory, in the order of the text. Bad has the one fault of
/// the text: the first lexical one; else Syntax, at the token at which the grammar is stuck, or at the text's length where
/// it ends too early; else the least static one, which is Taken, TooMany, TooDeep, TooBig, UnboundVar, DanglingContext,
/// TwiceContext, TooManyContexts, MisplacedHyp, NotAPattern, BadUse, UnboundParam or UnboundMeta. Earlier names keep their numbers, and
/// at most as many are added as the text has bytes, also where the text is refused.
/// The names that are held and the bytes are together fewer than 2^32 - 1, and so are the laws that are held and the bytes.
pub fn read_theory(
    alloc: Global,
    names: &mut Names,
    theory: Theory,
    source: &[u8],
) -> Result<Theory, TextFail>
    requires room { length names.old + length source.now < 2 ^ 32 - 1 }
    requires laws { law_count theory + length source.now < 2 ^ 32 - 1 }
    ensures reads { ReadsTheory theory names.old source.now result names.new }
    ensures grown { Extends names.old names.new }
    ensures few { length names.new ≤ length names.old + length source.now }
{
    let words = lex_text(alloc, names, source)?;
    let raws = match parse_theory(alloc, words.as_slice()) {
        Ok(raws) => raws,
        Err(fail) => return Err(stopped(source, fail)),
    };
    // What is written holds all that is needed of the words, of which there are many.
    drop(words);
    if let Some(fault) = theory_fault(alloc, &theory, &raws)? {
        return Err(TextFail::Bad(fault));
    }
    let theory = build_theory(alloc, theory, raws)?;
    Ok(theory)
}
