ghost use Rattle.std.specs.Prelude.{◌<◌, ◌≤◌, length, IfOk};
ghost use Rattle.mp_words.specs.Fronts.{a_name, a_number};
ghost use Rattle.mp_words.specs.Reading.{Reads};
ghost use Rattle.mp_steptext.specs.Grammar.{a_place, address, all_given, given, number_behind, rewrite_step, rule_step, some_given, step};

use crate::raw::{RawGiven, RawPlace, RawRewriteStep, RawRuleStep, RawStep};
use mp_logic::List;
use mp_words::{
    Keyword, Mark, RawName, RawNumber, ReadFail, Reader, Word, capital_at, front, keyword, listed,
    mark, name_at, number_at, separated, stuck,
};
use std::alloc::Global;

/// Reads this word and a number; there is none where the word doesn't stand.
pub fn parse_number_behind(
    words: &[Word],
    which: Keyword,
) -> Result<(Option<RawNumber>, &[Word]), ReadFail>
    ensures reads { Reads (λ x. (x.0, x.1.now)) (number_behind which) words.now result }
    ensures within { IfOk result (λ x. length x.1.now ≤ length words.now) }
{
    let Some(at) = keyword(words, which) else {
        return Ok((None, words));
    };
    match number_at(at) {
        Some((number, rest)) => Ok((Some(number), rest)),
        None => Err(stuck(at)),
    }
}

impl<B: Reader> Reader for RawGiven<B> {
    type Raw = RawGiven<B::Raw>;

    ghost grammar = { given B.grammar };

    /// Reads the name of a need, `:=`, and a body.
    fn read(alloc: Global, words: &[Word]) -> Result<(RawGiven<B::Raw>, &[Word]), ReadFail> {
        let Some((name, rest)) = capital_at(words) else {
            return Err(stuck(words));
        };
        let Some(rest) = mark(rest, Mark::Becomes) else {
            return Err(stuck(rest));
        };
        let at = front(rest);
        match B::read(alloc, rest) {
            Ok((body, rest)) => Ok((RawGiven { name, body, at }, rest)),
            Err(fail) => Err(fail),
        }
    }
}

/// Reads what is given between brackets: one at least.
fn parse_some_given<B: Reader>(
    alloc: Global,
    words: &[Word],
) -> Result<(List<RawGiven<B::Raw>>, &[Word]), ReadFail>
    ensures reads { Reads (λ x. (x.0, x.1.now)) (some_given B.grammar) words.now result }
    ensures shorter { IfOk result (λ x. length x.1.now < length words.now) }
{
    match mark(words, Mark::OpenBracket) {
        Some(inner) => separated::<RawGiven<B>>(alloc, inner, Mark::Semicolon, Mark::CloseBracket),
        None => Err(stuck(words)),
    }
}

/// Reads what is given after `with`; nothing is where `with` doesn't stand.
fn parse_given<B: Reader>(
    alloc: Global,
    words: &[Word],
) -> Result<(List<RawGiven<B::Raw>>, &[Word]), ReadFail>
    ensures reads { Reads (λ x. (x.0, x.1.now)) (all_given B.grammar) words.now result }
    ensures within { IfOk result (λ x. length x.1.now ≤ length words.now) }
{
    match keyword(words, Keyword::With) {
        Some(rest) => parse_some_given::<B>(alloc, rest),
        None => Ok((List::new(alloc), words)),
    }
}

/// Reads a name that begins with a small letter.
fn parse_name(words: &[Word]) -> Result<(RawName, &[Word]), ReadFail>
    ensures reads { Reads (λ x. (x.0, x.1.now)) a_name words.now result }
    ensures shorter { IfOk result (λ x. length x.1.now < length words.now) }
{
    match name_at(words) {
        Some(read) => Ok(read),
        None => Err(stuck(words)),
    }
}

/// Reads what is after `rule`: a name, `at` and a number, and what is given.
fn parse_rule_step<B: Reader>(
    alloc: Global,
    words: &[Word],
) -> Result<(RawRuleStep<B::Raw>, &[Word]), ReadFail>
    ensures reads { Reads (λ x. (x.0, x.1.now)) (rule_step B.grammar) words.now result }
    ensures shorter { IfOk result (λ x. length x.1.now < length words.now) }
{
    let (rule, rest) = parse_name(words)?;
    let (place, rest) = parse_number_behind(rest, Keyword::At)?;
    let (given, rest) = parse_given::<B>(alloc, rest)?;
    Ok((RawRuleStep { rule, place, given }, rest))
}

/// Reads which term of the goal is rewritten in.
fn parse_place(words: &[Word]) -> Result<(RawPlace, &[Word]), ReadFail>
    ensures reads { Reads (λ x. (x.0, x.1.now)) a_place words.now result }
    ensures shorter { IfOk result (λ x. length x.1.now < length words.now) }
{
    if let Some(rest) = keyword(words, Keyword::Concl) {
        return Ok((RawPlace::Concl, rest));
    }
    let Some(rest) = keyword(words, Keyword::Hyp) else {
        return Err(stuck(words));
    };
    match number_at(rest) {
        Some((number, rest)) => Ok((RawPlace::Hyp(number), rest)),
        None => Err(stuck(rest)),
    }
}

/// A number of an address.
struct Subterm;

impl Reader for Subterm {
    type Raw = RawNumber;

    ghost grammar = { a_number };

    /// Reads a number.
    fn read(_alloc: Global, words: &[Word]) -> Result<(RawNumber, &[Word]), ReadFail> {
        match number_at(words) {
            Some(read) => Ok(read),
            None => Err(stuck(words)),
        }
    }
}

/// Reads an address: numbers between brackets, or none.
fn parse_address(alloc: Global, words: &[Word]) -> Result<(List<RawNumber>, &[Word]), ReadFail>
    ensures reads { Reads (λ x. (x.0, x.1.now)) address words.now result }
    ensures shorter { IfOk result (λ x. length x.1.now < length words.now) }
{
    match mark(words, Mark::OpenBracket) {
        Some(inner) => listed::<Subterm>(alloc, inner, Mark::Semicolon, Mark::CloseBracket),
        None => Err(stuck(words)),
    }
}

/// Reads what is after `rw`: a name, a place and an address.
fn parse_rewrite_step(alloc: Global, words: &[Word]) -> Result<(RawRewriteStep, &[Word]), ReadFail>
    ensures reads { Reads (λ x. (x.0, x.1.now)) rewrite_step words.now result }
    ensures shorter { IfOk result (λ x. length x.1.now < length words.now) }
{
    let (rewrite, rest) = parse_name(words)?;
    let (place, rest) = parse_place(rest)?;
    let (address, rest) = parse_address(alloc, rest)?;
    let step = RawRewriteStep {
        rewrite,
        place,
        address,
    };
    Ok((step, rest))
}

/// Reads a step at the front of the words.
pub fn parse_step<B: Reader>(
    alloc: Global,
    words: &[Word],
) -> Result<(RawStep<B::Raw>, &[Word]), ReadFail>
    ensures reads { Reads (λ x. (x.0, x.1.now)) (step B.grammar) words.now result }
    ensures shorter { IfOk result (λ x. length x.1.now < length words.now) }
{
    if let Some(rest) = keyword(words, Keyword::Rule) {
        let (step, rest) = parse_rule_step::<B>(alloc, rest)?;
        return Ok((RawStep::Rule(step), rest));
    }
    let Some(rest) = keyword(words, Keyword::Rw) else {
        return Err(stuck(words));
    };
    let (step, rest) = parse_rewrite_step(alloc, rest)?;
    Ok((RawStep::Rewrite(step), rest))
}
