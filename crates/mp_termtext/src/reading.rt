ghost use Rattle.std.specs.Prelude.{◌<◌, ◌≤◌, ◌+◌, ◌-◌, ◌^◌, None, length};
ghost use Rattle.mp_names.specs.Table.{Extends};
ghost use Rattle.mp_termtext.specs.Reading.{ReadsSequent, ReadsTerm};

use crate::statics::{check_sequent, term_fault};
use crate::value::{build_sequent, build_whole_term};
use crate::{RawSequent, RawTerm};
use mp_names::Names;
use mp_term::{Sequent, Term};
use mp_words::{TextFail, lex_text, stopped, whole};
use std::alloc::Global;

/// Reads a term that is all of the text, where the names `x1` to `x` followed by `scope` are free: `x1` is
/// the variable 0. Bad has the one fault of the text: the first lexical one; else Syntax, at the token at
/// which the grammar is stuck, or at the text's length where it ends too early; else the least static one,
/// which is TooMany, TooDeep, TooBig or UnboundVar. Earlier names keep their numbers, and at most as many are
/// added as the text has bytes, also where the text is refused.
pub fn read_term(
    alloc: Global,
    names: &mut Names,
    source: &[u8],
    scope: u32,
) -> Result<Term, TextFail>
    requires scope { scope < 2 ^ 31 }
    requires room { length names.old + length source.now < 2 ^ 32 - 1 }
    ensures reads { ReadsTerm scope names.old source.now result names.new }
    ensures grown { Extends names.old names.new }
    ensures few { length names.new ≤ length names.old + length source.now }
{
    let words = lex_text(alloc, names, source)?;
    let raw = match whole::<RawTerm>(alloc, words.as_slice()) {
        Ok(raw) => raw,
        Err(fail) => return Err(stopped(source, fail)),
    };
    if let Some(fault) = term_fault(alloc, &raw, scope)? {
        return Err(TextFail::Bad(fault));
    }
    let term = build_whole_term(alloc, &raw, scope)?;
    Ok(term)
}

/// Reads a sequent that is all of the text. Bad has the one fault of the text, as in `read_term`. Earlier
/// names keep their numbers, and at most as many are added as the text has bytes, also where the text is
/// refused.
pub fn read_sequent(alloc: Global, names: &mut Names, source: &[u8]) -> Result<Sequent, TextFail>
    requires room { length names.old + length source.now < 2 ^ 32 - 1 }
    ensures reads { ReadsSequent names.old source.now result names.new }
    ensures grown { Extends names.old names.new }
    ensures few { length names.new ≤ length names.old + length source.now }
{
    let words = lex_text(alloc, names, source)?;
    let raw = match whole::<RawSequent>(alloc, words.as_slice()) {
        Ok(raw) => raw,
        Err(fail) => return Err(stopped(source, fail)),
    };
    if let Some(fault) = check_sequent(alloc, &raw, None)? {
        return Err(TextFail::Bad(fault));
    }
    let sequent = build_sequent(alloc, &raw)?;
    Ok(sequent)
}
