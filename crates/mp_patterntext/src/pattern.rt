ghost use Rattle.std.specs.Prelude.{◌≡◌, ◌<◌, ◌≤◌, length, drop, IfOk, MatchOption, None, Some};
ghost use Rattle.mp_words.specs.Grammars.{taken};
ghost use Rattle.mp_words.specs.Fronts.{a_capital};
ghost use Rattle.mp_words.specs.Reading.{Reads};
ghost use Rattle.mp_patterntext.specs.Grammar.{args_by, arguments_by, pattern_bound_by, pattern_bounds_by, contexts, param_pat, param_pats, pattern, pattern_subs_by, pattern_variable_at};

use crate::raw::{RawParamPat, RawPattern, RawPatternBound};
use mp_logic::List;
use mp_termtext::{param_at, parse_binders};
use mp_words::{
    Mark, RawName, ReadFail, Reader, What, Word, capital_at, capital_variable_at, front, mark,
    name_at, separated, stuck,
};
use std::alloc::Global;

/// The reader of a context's name.
pub struct Context;

impl Reader for Context {
    type Raw = RawName;

    ghost grammar = { a_capital };

    /// Reads a name with a capital letter.
    fn read(_alloc: Global, words: &[Word]) -> Result<(RawName, &[Word]), ReadFail> {
        match capital_at(words) {
            Some(read) => Ok(read),
            None => Err(stuck(words)),
        }
    }
}

impl Reader for RawParamPat {
    type Raw = RawParamPat;

    ghost grammar = { param_pat };

    /// Reads a number, a string, or `@` and a name.
    fn read(_alloc: Global, words: &[Word]) -> Result<(RawParamPat, &[Word]), ReadFail> {
        let at = front(words);
        if let Some(behind) = mark(words, Mark::At) {
            return match name_at(behind) {
                Some((name, rest)) => Ok((RawParamPat::Hole { name, at }, rest)),
                None => Err(stuck(behind)),
            };
        }
        match param_at(words) {
            Some((param, rest)) => Ok((RawParamPat::Lit(param), rest)),
            None => Err(stuck(words)),
        }
    }
}

/// Reads parameters between brackets; there are none where no bracket opens.
fn parse_param_pats(alloc: Global, words: &[Word]) -> Result<(List<RawParamPat>, &[Word]), ReadFail>
    ensures reads { Reads (λ x. (x.0, x.1.now)) param_pats words.now result }
    ensures within { IfOk result (λ x. length x.1.now ≤ length words.now) }
{
    match mark(words, Mark::OpenBracket) {
        Some(inner) => separated::<RawParamPat>(alloc, inner, Mark::Semicolon, Mark::CloseBracket),
        None => Ok((List::new(alloc), words)),
    }
}

/// Reads contexts between `<` and `>`; there are none where no `<` stands.
pub fn parse_contexts(alloc: Global, words: &[Word]) -> Result<(List<RawName>, &[Word]), ReadFail>
    ensures reads { Reads (λ x. (x.0, x.1.now)) contexts words.now result }
    ensures within { IfOk result (λ x. length x.1.now ≤ length words.now) }
{
    match mark(words, Mark::Less) {
        Some(inner) => separated::<Context>(alloc, inner, Mark::Semicolon, Mark::Greater),
        None => Ok((List::new(alloc), words)),
    }
}

/// The variable at the front, and what is after it.
fn variable(words: &[Word]) -> Option<(RawPattern, &[Word])>
    ensures { MatchOption result (taken pattern_variable_at words.now ≡ None) (λ p. (taken pattern_variable_at words.now ≡ Some p.0) × (p.1.now ≡ drop 1 words.now)) }
{
    let (word, rest) = words.split_first()?;
    match word.what {
        What::SmallVar { name, .. } => Some((RawPattern::Var { name, at: word.at }, rest)),
        _ => None,
    }
}

/// Reads a pattern at the front of the words.
#[cycle(parsing)]
pub fn parse_pattern(alloc: Global, words: &[Word]) -> Result<(RawPattern, &[Word]), ReadFail>
    ensures reads { Reads (λ x. (x.0, x.1.now)) pattern words.now result }
    ensures shorter { IfOk result (λ x. length x.1.now < length words.now) }
{
    if let Some(read) = variable(words) {
        return Ok(read);
    }
    if let Some((RawName { name, at }, rest)) = capital_variable_at(words) {
        let (ctxs, rest) = match parse_contexts(alloc, rest) {
            Ok(read) => read,
            Err(fail) => return Err(fail),
        };
        return match parse_arguments(alloc, rest) {
            Ok((args, rest)) => Ok((
                RawPattern::Meta {
                    name,
                    ctxs,
                    args,
                    at,
                },
                rest,
            )),
            Err(fail) => Err(fail),
        };
    }
    let Some((RawName { name, at }, rest)) = name_at(words) else {
        return Err(stuck(words));
    };
    let (params, rest) = match parse_param_pats(alloc, rest) {
        Ok(read) => read,
        Err(fail) => return Err(fail),
    };
    match parse_subs(alloc, rest) {
        Ok((subs, rest)) => Ok((
            RawPattern::Op {
                name,
                params,
                subs,
                at,
            },
            rest,
        )),
        Err(fail) => Err(fail),
    }
}

impl Reader for RawPattern {
    type Raw = RawPattern;

    ghost grammar = { pattern };

    /// Reads a pattern.
    fn read(alloc: Global, words: &[Word]) -> Result<(RawPattern, &[Word]), ReadFail> {
        parse_pattern(alloc, words)
    }
}

/// Reads arguments between brackets; there are none where no bracket opens.
#[cycle(parsing)]
pub fn parse_arguments(
    alloc: Global,
    words: &[Word],
) -> Result<(List<RawPattern>, &[Word]), ReadFail>
    ensures reads { Reads (λ x. (x.0, x.1.now)) (arguments_by pattern) words.now result }
    ensures within { IfOk result (λ x. length x.1.now ≤ length words.now) }
{
    match mark(words, Mark::OpenBracket) {
        Some(inner) => parse_args(alloc, inner),
        None => Ok((List::new(alloc), words)),
    }
}

/// Reads arguments up to the end of their list.
#[cycle(parsing)]
fn parse_args(alloc: Global, words: &[Word]) -> Result<(List<RawPattern>, &[Word]), ReadFail>
    ensures reads { Reads (λ x. (x.0, x.1.now)) (args_by pattern) words.now result }
    ensures shorter { IfOk result (λ x. length x.1.now < length words.now) }
{
    let mut args = List::new(alloc);
    let mut at = words;
    loop {
        let (arg, rest) = match parse_pattern(alloc, at) {
            Ok(read) => read,
            Err(fail) => return Err(fail),
        };
        match args.push(arg) {
            Ok(()) => {}
            Err(_) => return Err(ReadFail::NoMemory),
        }
        if let Some(rest) = mark(rest, Mark::CloseBracket) {
            return Ok((args, rest));
        }
        match mark(rest, Mark::Semicolon) {
            Some(next) => at = next,
            None => return Err(stuck(rest)),
        }
    }
}

/// Reads subterms between braces; there are none where no brace opens.
#[cycle(parsing)]
fn parse_subs(alloc: Global, words: &[Word]) -> Result<(List<RawPatternBound>, &[Word]), ReadFail>
    ensures reads { Reads (λ x. (x.0, x.1.now)) (pattern_subs_by pattern) words.now result }
    ensures within { IfOk result (λ x. length x.1.now ≤ length words.now) }
{
    match mark(words, Mark::OpenBrace) {
        Some(inner) => parse_bounds(alloc, inner),
        None => Ok((List::new(alloc), words)),
    }
}

/// Reads subterms up to the end of their list.
#[cycle(parsing)]
fn parse_bounds(alloc: Global, words: &[Word]) -> Result<(List<RawPatternBound>, &[Word]), ReadFail>
    ensures reads { Reads (λ x. (x.0, x.1.now)) (pattern_bounds_by pattern) words.now result }
    ensures shorter { IfOk result (λ x. length x.1.now < length words.now) }
{
    let mut subs = List::new(alloc);
    let mut at = words;
    loop {
        let (sub, rest) = match parse_bound(alloc, at) {
            Ok(read) => read,
            Err(fail) => return Err(fail),
        };
        match subs.push(sub) {
            Ok(()) => {}
            Err(_) => return Err(ReadFail::NoMemory),
        }
        if let Some(rest) = mark(rest, Mark::CloseBrace) {
            return Ok((subs, rest));
        }
        match mark(rest, Mark::Semicolon) {
            Some(next) => at = next,
            None => return Err(stuck(rest)),
        }
    }
}

/// Reads a subterm with its binders, if any.
#[cycle(parsing)]
fn parse_bound(alloc: Global, words: &[Word]) -> Result<(RawPatternBound, &[Word]), ReadFail>
    ensures reads { Reads (λ x. (x.0, x.1.now)) (pattern_bound_by pattern) words.now result }
    ensures shorter { IfOk result (λ x. length x.1.now < length words.now) }
{
    let (binders, rest) = match parse_binders(alloc, words) {
        Ok(read) => read,
        Err(fail) => return Err(fail),
    };
    match parse_pattern(alloc, rest) {
        Ok((body, rest)) => Ok((RawPatternBound { binders, body }, rest)),
        Err(fail) => Err(fail),
    }
}
