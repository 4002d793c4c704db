ghost use Rattle.std.specs.Prelude.{◌<◌, length, IfOk};
ghost use Rattle.mp_words.specs.Reading.{Reads};
ghost use Rattle.mp_scripttext.specs.Grammar.{entry};

use crate::raw::RawEntry;
use crate::strategy::parse_strategy;
use mp_steptext::parse_number_behind;
use mp_termtext::parse_sequent;
use mp_words::{Keyword, Mark, ReadFail, Reader, Word, keyword, mark, name_behind, stuck};
use std::alloc::Global;

impl Reader for RawEntry {
    type Raw = RawEntry;

    ghost grammar = { entry };

    /// Reads `goal`, a name, the fuel, if any, a colon, the sequent, `by` and the strategy.
    fn read(alloc: Global, words: &[Word]) -> Result<(RawEntry, &[Word]), ReadFail> {
        let (name, rest) = name_behind(words, Keyword::Goal)?;
        let (fuel, rest) = parse_number_behind(rest, Keyword::Fuel)?;
        let Some(rest) = mark(rest, Mark::Colon) else {
            return Err(stuck(rest));
        };
        let (goal, rest) = parse_sequent(alloc, rest)?;
        let Some(rest) = keyword(rest, Keyword::By) else {
            return Err(stuck(rest));
        };
        let (strategy, rest) = parse_strategy(alloc, rest)?;
        let entry = RawEntry {
            name,
            fuel,
            goal,
            strategy,
        };
        Ok((entry, rest))
    }
}
