ghost use Rattle.std.specs.Prelude.{◌≡◌, ◌∷◌, ◌<◌, ◌≤◌, [], length, IfOk};
ghost use Rattle.mp_words.specs.Grammars.{whole};
ghost use Rattle.mp_words.specs.Reading.{Reads};
ghost use Rattle.mp_theorytext.specs.Grammar.{equation, law, left, other_conditions, rewrite, theory};
ghost use Rattle.mp_theorytext.specs.Statics.{law_name};

use crate::{RawLaw, RawRewrite};
use mp_logic::{List, NoMemory};
use mp_patterntext::{RawPattern, parse_pattern};
use mp_schematext::RawRule;
use mp_words::{
    Keyword, Mark, Named, RawName, ReadFail, Reader, Word, many, mark, marked, name_behind,
    separated, spelled, stuck,
};
use std::alloc::Global;

/// The pattern, and then the others.
fn put_first(first: RawPattern, others: List<RawPattern>) -> Result<List<RawPattern>, NoMemory>
    ensures { IfOk result (λ all. all ≡ first ∷ others) }
{
    let mut all = others.into_vec();
    match all.insert(0, first) {
        Ok(()) => Ok(List::from_vec(all)),
        Err(_) => Err(NoMemory),
    }
}

/// Reads what is after the first condition: `-->`, or `&` and the other conditions up to it.
fn parse_others(alloc: Global, words: &[Word]) -> Result<(List<RawPattern>, &[Word]), ReadFail>
    ensures reads { Reads (λ x. (x.0, x.1.now)) other_conditions words.now result }
    ensures within { IfOk result (λ x. length x.1.now ≤ length words.now) }
{
    if let Some(rest) = mark(words, Mark::Provided) {
        return Ok((List::new(alloc), rest));
    }
    match mark(words, Mark::And) {
        Some(next) => separated::<RawPattern>(alloc, next, Mark::And, Mark::Provided),
        None => Err(stuck(words)),
    }
}

/// Reads the conditions, if any, and the redex.
fn parse_left(
    alloc: Global,
    words: &[Word],
) -> Result<(List<RawPattern>, RawPattern, &[Word]), ReadFail>
    ensures reads { Reads (λ x. ((x.0, x.1), x.2.now)) left words.now result }
    ensures shorter { IfOk result (λ x. length x.2.now < length words.now) }
{
    let (first, rest) = match parse_pattern(alloc, words) {
        Ok(read) => read,
        Err(fail) => return Err(fail),
    };
    if marked(rest, Mark::Rewrites) {
        return Ok((List::new(alloc), first, rest));
    }
    let (others, rest) = match parse_others(alloc, rest) {
        Ok(read) => read,
        Err(fail) => return Err(fail),
    };
    let (redex, rest) = match parse_pattern(alloc, rest) {
        Ok(read) => read,
        Err(fail) => return Err(fail),
    };
    match put_first(first, others) {
        Ok(conds) => Ok((conds, redex, rest)),
        Err(_) => Err(ReadFail::NoMemory),
    }
}

/// Reads the conditions, the redex, `<->` and the contractum.
fn parse_equation(
    alloc: Global,
    words: &[Word],
) -> Result<(List<RawPattern>, RawPattern, RawPattern, &[Word]), ReadFail>
    ensures reads { Reads (λ x. (((x.0, x.1), x.2), x.3.now)) equation words.now result }
    ensures shorter { IfOk result (λ x. length x.3.now < length words.now) }
{
    let (conds, redex, rest) = match parse_left(alloc, words) {
        Ok(read) => read,
        Err(fail) => return Err(fail),
    };
    let Some(rest) = mark(rest, Mark::Rewrites) else {
        return Err(stuck(rest));
    };
    match parse_pattern(alloc, rest) {
        Ok((contractum, rest)) => Ok((conds, redex, contractum, rest)),
        Err(fail) => Err(fail),
    }
}

impl Reader for RawRewrite {
    type Raw = RawRewrite;

    ghost grammar = { rewrite };

    /// Reads `rewrite`, a name, a colon, the conditions, the redex, `<->` and the contractum.
    fn read(alloc: Global, words: &[Word]) -> Result<(RawRewrite, &[Word]), ReadFail> {
        let (name, rest) = match name_behind(words, Keyword::Rewrite) {
            Ok(read) => read,
            Err(fail) => return Err(fail),
        };
        let Some(rest) = mark(rest, Mark::Colon) else {
            return Err(stuck(rest));
        };
        match parse_equation(alloc, rest) {
            Ok((conds, redex, contractum, rest)) => Ok((
                RawRewrite {
                    name,
                    conds,
                    redex,
                    contractum,
                },
                rest,
            )),
            Err(fail) => Err(fail),
        }
    }
}

impl Named for RawLaw {
    ghost named = { law_name };

    fn named(&self) -> RawName {
        match self {
            RawLaw::Rule(rule) => rule.name,
            RawLaw::Rewrite(rewrite) => rewrite.name,
        }
    }
}

impl Reader for RawLaw {
    type Raw = RawLaw;

    ghost grammar = { law };

    /// Reads a rule or a rewrite.
    fn read(alloc: Global, words: &[Word]) -> Result<(RawLaw, &[Word]), ReadFail> {
        if spelled(words, Keyword::Rule) {
            return match RawRule::read(alloc, words) {
                Ok((rule, rest)) => Ok((RawLaw::Rule(rule), rest)),
                Err(fail) => Err(fail),
            };
        }
        match RawRewrite::read(alloc, words) {
            Ok((rewrite, rest)) => Ok((RawLaw::Rewrite(rewrite), rest)),
            Err(fail) => Err(fail),
        }
    }
}

/// Reads a theory that is all of the words.
pub(crate) fn parse_theory(alloc: Global, words: &[Word]) -> Result<List<RawLaw>, ReadFail>
    ensures reads { Reads (λ x. (x, [])) (whole theory) words.now result }
    ensures few { IfOk result (λ laws. length laws ≤ length words.now) }
{
    many::<RawLaw>(alloc, words)
}
