ghost use Rattle.std.specs.Prelude.{◌≡◌, ◌<◌, ◌≤◌, ◌+◌, ◌-◌, ◌^◌, length, IfOk};
ghost use Rattle.mp_names.specs.Table.{Extends};
ghost use Rattle.mp_treetext.specs.Printed.{EachGoodPrinted};
ghost use Rattle.mp_treetext.specs.Reading.{ReadsTrees};

use crate::comparing::file_difference;
use crate::making::build_file;
use crate::printed::Printed;
use crate::statics::file_fault;
use crate::syntax::parse_file;
use mp_logic::{List, Sym};
use mp_names::Names;
use mp_theory::Theory;
use mp_words::{TextErr, TextFail, TextWhy, lex_text, stopped};
use std::alloc::Global;

/// Reads a tree file that is all of the text, in a theory: for each of these goals, in their order, its tree or its failure.
/// The depth of a line is half the number of spaces that it begins with. Bad has the one fault of the text: the first lexical
/// one; else Syntax, at the token at which the grammar is stuck, or at the text's length where it ends too early; else the
/// least static one, which is UnknownName, TooMany, TooDeep, TooBig, BadNumber, UnboundVar, AtNeeded, AtRefused,
/// MissingWith, ExtraWith, TwiceWith, BadArity, WrongGoal, BadIndent or CountDiffers; else NotCanonical, at the first byte that
/// differs from the printed text of what is read, or at the end of the shorter of the two. Earlier names keep their numbers,
/// and at most as many are added as the text has bytes, also where the text is refused.
pub fn read_trees(
    alloc: Global,
    names: &mut Names,
    theory: &Theory,
    goals: &List<Sym>,
    source: &[u8],
) -> Result<List<Printed>, TextFail>
    requires room { length names.old + length source.now < 2 ^ 32 - 1 }
    ensures reads { ReadsTrees theory.now goals.now names.old source.now result names.new }
    ensures good { IfOk result (λ blocks. EachGoodPrinted theory.now blocks) }
    ensures each { IfOk result (λ blocks. length blocks ≡ length goals.now) }
    ensures grown { Extends names.old names.new }
    ensures few { length names.new ≤ length names.old + length source.now }
{
    // `len` ensures that these are a theory's laws, by which the justifications are allowed.
    let _count = theory.len();
    let words = lex_text(alloc, names, source)?;
    let raws = match parse_file(alloc, names, words.as_slice()) {
        Ok(raws) => raws,
        Err(fail) => return Err(stopped(source, fail)),
    };
    if let Some(fault) = file_fault(alloc, theory, goals.as_slice(), source, raws.as_slice())? {
        return Err(TextFail::Bad(fault));
    }
    let blocks = build_file(alloc, theory, source, &raws)?;
    match file_difference(
        alloc,
        names,
        theory,
        goals.as_slice(),
        source,
        blocks.as_slice(),
    )? {
        Some(at) => Err(TextFail::Bad(TextErr {
            at,
            why: TextWhy::NotCanonical,
        })),
        None => Ok(blocks),
    }
}
