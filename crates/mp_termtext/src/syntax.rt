ghost use Rattle.std.specs.Prelude.{◌≡◌, ◌<◌, ◌≤◌, [], length, drop, IfOk, MatchOption, None, Some};
ghost use Rattle.mp_words.specs.Grammars.{after, both, made, then_read, stands, taken, token};
ghost use Rattle.mp_words.specs.Reading.{Reads};
ghost use Rattle.mp_termtext.specs.Grammar.{variable_at, param_at, params, begins_binders, binders, bound, bounds_by, hyp, sequent, subs_by, term};

use crate::raw::{RawBound, RawHyp, RawParam, RawSequent, RawTerm};
use mp_logic::List;
use mp_term::Param;
use mp_words::{
    Mark, RawName, ReadFail, Reader, What, Word, front, listed, mark, marked, name_at, separated,
    stuck,
};
use std::alloc::Global;

/// The variable at the front, and what is after it.
fn variable(words: &[Word]) -> Option<(RawTerm, &[Word])>
    ensures { MatchOption result (taken variable_at words.now ≡ None) (λ p. (taken variable_at words.now ≡ Some p.0) × (p.1.now ≡ drop 1 words.now)) }
{
    let (word, rest) = words.split_first()?;
    match word.what {
        What::SmallVar { name, numbered } => {
            let at = word.at;
            Some((RawTerm::Var { name, numbered, at }, rest))
        }
        _ => None,
    }
}

/// The number or the string at the front, and what is after it.
pub fn param_at(words: &[Word]) -> Option<(RawParam, &[Word])>
    ensures { MatchOption result (taken param_at words.now ≡ None) (λ p. (taken param_at words.now ≡ Some p.0) × (p.1.now ≡ drop 1 words.now)) }
{
    let (word, rest) = words.split_first()?;
    let at = word.at;
    match word.what {
        What::Num(number) => {
            let value = Param::Num(number);
            Some((RawParam { value, at }, rest))
        }
        What::Str(text) => {
            let value = Param::Str(text);
            Some((RawParam { value, at }, rest))
        }
        _ => None,
    }
}

impl Reader for RawParam {
    type Raw = RawParam;

    ghost grammar = { token param_at };

    /// Reads a number or a string.
    fn read(_alloc: Global, words: &[Word]) -> Result<(RawParam, &[Word]), ReadFail> {
        match param_at(words) {
            Some(read) => Ok(read),
            None => Err(stuck(words)),
        }
    }
}

/// Reads parameters between brackets; there are none where no bracket opens.
fn parse_params(alloc: Global, words: &[Word]) -> Result<(List<RawParam>, &[Word]), ReadFail>
    ensures reads { Reads (λ x. (x.0, x.1.now)) params words.now result }
    ensures within { IfOk result (λ x. length x.1.now ≤ length words.now) }
{
    match mark(words, Mark::OpenBracket) {
        Some(inner) => separated::<RawParam>(alloc, inner, Mark::Semicolon, Mark::CloseBracket),
        None => Ok((List::new(alloc), words)),
    }
}

/// Whether binders begin at the front: a name before `,` or `.`.
fn binders_ahead(words: &[Word]) -> bool
    ensures { result ≡ begins_binders words.now }
{
    let Some((_, rest)) = name_at(words) else {
        return false;
    };
    marked(rest, Mark::Comma) || marked(rest, Mark::Dot)
}

/// Reads binders and the dot after them; there are none where no binders begin.
pub fn parse_binders(alloc: Global, words: &[Word]) -> Result<(List<RawName>, &[Word]), ReadFail>
    ensures reads { Reads (λ x. (x.0, x.1.now)) binders words.now result }
    ensures within { IfOk result (λ x. length x.1.now ≤ length words.now) }
{
    if binders_ahead(words) {
        separated::<RawName>(alloc, words, Mark::Comma, Mark::Dot)
    } else {
        Ok((List::new(alloc), words))
    }
}

/// Reads a term at the front of the words.
#[cycle(parsing)]
pub(crate) fn parse_term(alloc: Global, words: &[Word]) -> Result<(RawTerm, &[Word]), ReadFail>
    ensures reads { Reads (λ x. (x.0, x.1.now)) term words.now result }
    ensures shorter { IfOk result (λ x. length x.1.now < length words.now) }
{
    if let Some(read) = variable(words) {
        return Ok(read);
    }
    let Some((RawName { name, at }, rest)) = name_at(words) else {
        return Err(stuck(words));
    };
    let (params, rest) = match parse_params(alloc, rest) {
        Ok(read) => read,
        Err(fail) => return Err(fail),
    };
    match parse_subs(alloc, rest) {
        Ok((subs, rest)) => Ok((
            RawTerm::Op {
                name,
                params,
                subs,
                at,
            },
            rest,
        )),
        Err(fail) => Err(fail),
    }
}

/// Reads subterms between braces; there are none where no brace opens.
#[cycle(parsing)]
fn parse_subs(alloc: Global, words: &[Word]) -> Result<(List<RawBound>, &[Word]), ReadFail>
    ensures reads { Reads (λ x. (x.0, x.1.now)) (subs_by term) words.now result }
    ensures within { IfOk result (λ x. length x.1.now ≤ length words.now) }
{
    match mark(words, Mark::OpenBrace) {
        Some(inner) => parse_bounds(alloc, inner),
        None => Ok((List::new(alloc), words)),
    }
}

/// Reads subterms up to the end of their list.
#[cycle(parsing)]
fn parse_bounds(alloc: Global, words: &[Word]) -> Result<(List<RawBound>, &[Word]), ReadFail>
    ensures reads { Reads (λ x. (x.0, x.1.now)) (bounds_by term) words.now result }
    ensures shorter { IfOk result (λ x. length x.1.now < length words.now) }
{
    let mut subs = List::new(alloc);
    let mut at = words;
    loop {
        let (sub, rest) = match parse_bound(alloc, at) {
            Ok(read) => read,
            Err(fail) => return Err(fail),
        };
        match subs.push(sub) {
            Ok(()) => {}
            Err(_) => return Err(ReadFail::NoMemory),
        }
        if let Some(rest) = mark(rest, Mark::CloseBrace) {
            return Ok((subs, rest));
        }
        match mark(rest, Mark::Semicolon) {
            Some(next) => at = next,
            None => return Err(stuck(rest)),
        }
    }
}

/// Reads a term with its binders, if any.
#[cycle(parsing)]
pub fn parse_bound(alloc: Global, words: &[Word]) -> Result<(RawBound, &[Word]), ReadFail>
    ensures reads { Reads (λ x. (x.0, x.1.now)) bound words.now result }
    ensures shorter { IfOk result (λ x. length x.1.now < length words.now) }
{
    let (binders, rest) = match parse_binders(alloc, words) {
        Ok(read) => read,
        Err(fail) => return Err(fail),
    };
    match parse_term(alloc, rest) {
        Ok((body, rest)) => Ok((RawBound { binders, body }, rest)),
        Err(fail) => Err(fail),
    }
}

impl Reader for RawHyp {
    type Raw = RawHyp;

    ghost grammar = { hyp };

    /// Reads a name, a colon and a term.
    fn read(alloc: Global, words: &[Word]) -> Result<(RawHyp, &[Word]), ReadFail> {
        let Some((RawName { name, at }, rest)) = name_at(words) else {
            return Err(stuck(words));
        };
        let Some(rest) = mark(rest, Mark::Colon) else {
            return Err(stuck(rest));
        };
        match parse_term(alloc, rest) {
            Ok((term, rest)) => Ok((RawHyp { name, term, at }, rest)),
            Err(fail) => Err(fail),
        }
    }
}

/// Reads a sequent at the front of the words.
pub fn parse_sequent(alloc: Global, words: &[Word]) -> Result<(RawSequent, &[Word]), ReadFail>
    ensures reads { Reads (λ x. (x.0, x.1.now)) sequent words.now result }
    ensures shorter { IfOk result (λ x. length x.1.now < length words.now) }
{
    let at = front(words);
    let (hyps, rest) = match listed::<RawHyp>(alloc, words, Mark::Semicolon, Mark::Turnstile) {
        Ok(read) => read,
        Err(fail) => return Err(fail),
    };
    match parse_term(alloc, rest) {
        Ok((concl, rest)) => Ok((RawSequent { hyps, concl, at }, rest)),
        Err(fail) => Err(fail),
    }
}

impl Reader for RawTerm {
    type Raw = RawTerm;

    ghost grammar = { term };

    fn read(alloc: Global, words: &[Word]) -> Result<(RawTerm, &[Word]), ReadFail> {
        parse_term(alloc, words)
    }
}

impl Reader for RawSequent {
    type Raw = RawSequent;

    ghost grammar = { sequent };

    fn read(alloc: Global, words: &[Word]) -> Result<(RawSequent, &[Word]), ReadFail> {
        parse_sequent(alloc, words)
    }
}
