ghost use Rattle.std.specs.Prelude.{◌≡◌, ◌<◌, ◌≤◌, length, IfOk};
ghost use Rattle.mp_words.specs.Reading.{Reads};
ghost use Rattle.mp_scripttext.specs.Grammar.{argument, atom, atom_of, begins_link, chain, group, link, listed, prefix, simple, strategies, strategy};

use crate::raw::{RawAtom, RawLink, RawPrefix, RawStrategy};
use mp_logic::{List, NoMemory, Shared};
use mp_steptext::{GivenTerm, parse_step};
use mp_words::{Keyword, Mark, ReadFail, Word, front, keyword, mark, number_at, spelled, stuck};
use std::alloc::Global;

/// Reads what stands before the argument of an atom; it is None where no prefix stands.
fn parse_prefix(words: &[Word]) -> Result<(Option<RawPrefix>, &[Word]), ReadFail>
    ensures reads { Reads (λ x. (x.0, x.1.now)) prefix words.now result }
    ensures within { IfOk result (λ x. length x.1.now ≤ length words.now) }
{
    if let Some(rest) = keyword(words, Keyword::Try) {
        return Ok((Some(RawPrefix::Try), rest));
    }
    if let Some(rest) = keyword(words, Keyword::Progress) {
        return Ok((Some(RawPrefix::Progress), rest));
    }
    if let Some(rest) = keyword(words, Keyword::Complete) {
        return Ok((Some(RawPrefix::Complete), rest));
    }
    let Some(rest) = keyword(words, Keyword::Repeat) else {
        return Ok((None, words));
    };
    match number_at(rest) {
        Some((number, rest)) => Ok((Some(RawPrefix::Repeat(number)), rest)),
        None => Err(stuck(rest)),
    }
}

/// The atom of an argument and what stands before it.
fn prefixed(
    alloc: Global,
    prefix: Option<RawPrefix>,
    argument: RawAtom,
) -> Result<RawAtom, NoMemory>
    ensures { IfOk result (λ atom. atom ≡ atom_of (prefix, argument)) }
{
    match prefix {
        Some(prefix) => {
            let argument = Shared::new(alloc, argument)?;
            Ok(RawAtom::Prefix(prefix, argument))
        }
        None => Ok(argument),
    }
}

/// Whether a link stands at the front: `then` or `thenl`.
fn link_ahead(words: &[Word]) -> bool
    ensures { result ≡ begins_link words.now }
{
    spelled(words, Keyword::Then) || spelled(words, Keyword::ThenL)
}

/// Reads strategies between brackets.
#[cycle(parsing)]
fn parse_list(alloc: Global, words: &[Word]) -> Result<(List<RawStrategy>, &[Word]), ReadFail>
    ensures reads { Reads (λ x. (x.0, x.1.now)) listed words.now result }
    ensures shorter { IfOk result (λ x. length x.1.now < length words.now) }
{
    match mark(words, Mark::OpenBracket) {
        Some(inner) => parse_strategies(alloc, inner),
        None => Err(stuck(words)),
    }
}

/// Reads strategies up to the end of their list.
#[cycle(parsing)]
fn parse_strategies(alloc: Global, words: &[Word]) -> Result<(List<RawStrategy>, &[Word]), ReadFail>
    ensures reads { Reads (λ x. (x.0, x.1.now)) strategies words.now result }
    ensures shorter { IfOk result (λ x. length x.1.now < length words.now) }
{
    let mut items = List::new(alloc);
    let mut at = words;
    loop {
        let (item, rest) = match parse_strategy(alloc, at) {
            Ok(read) => read,
            Err(fail) => return Err(fail),
        };
        match items.push(item) {
            Ok(()) => {}
            Err(_) => return Err(ReadFail::NoMemory),
        }
        if let Some(rest) = mark(rest, Mark::CloseBracket) {
            return Ok((items, rest));
        }
        match mark(rest, Mark::Semicolon) {
            Some(next) => at = next,
            None => return Err(stuck(rest)),
        }
    }
}

/// Reads a strategy and the parenthesis after it.
#[cycle(parsing)]
fn parse_group(alloc: Global, words: &[Word]) -> Result<(RawAtom, &[Word]), ReadFail>
    ensures reads { Reads (λ x. (x.0, x.1.now)) group words.now result }
    ensures shorter { IfOk result (λ x. length x.1.now < length words.now) }
{
    let (inner, at) = match parse_strategy(alloc, words) {
        Ok(read) => read,
        Err(fail) => return Err(fail),
    };
    let Some(rest) = mark(at, Mark::CloseParenthesis) else {
        return Err(stuck(at));
    };
    match Shared::new(alloc, inner) {
        Ok(inner) => Ok((RawAtom::Group(inner), rest)),
        Err(_) => Err(ReadFail::NoMemory),
    }
}

/// Reads an atom that needs no parentheses as an argument.
#[cycle(parsing)]
fn parse_simple(alloc: Global, words: &[Word]) -> Result<(RawAtom, &[Word]), ReadFail>
    ensures reads { Reads (λ x. (x.0, x.1.now)) simple words.now result }
    ensures shorter { IfOk result (λ x. length x.1.now < length words.now) }
{
    if let Some(rest) = keyword(words, Keyword::Id) {
        return Ok((RawAtom::Id, rest));
    }
    if let Some(rest) = keyword(words, Keyword::Fail) {
        return Ok((RawAtom::Fail, rest));
    }
    if let Some(rest) = keyword(words, Keyword::Race) {
        return match parse_list(alloc, rest) {
            Ok((branches, rest)) => Ok((RawAtom::Race(branches), rest)),
            Err(fail) => Err(fail),
        };
    }
    match parse_step::<GivenTerm>(alloc, words) {
        Ok((step, rest)) => Ok((RawAtom::Step(step), rest)),
        Err(fail) => Err(fail),
    }
}

/// Reads an argument: a strategy between parentheses, or an atom that needs none.
#[cycle(parsing)]
fn parse_argument(alloc: Global, words: &[Word]) -> Result<(RawAtom, &[Word]), ReadFail>
    ensures reads { Reads (λ x. (x.0, x.1.now)) argument words.now result }
    ensures shorter { IfOk result (λ x. length x.1.now < length words.now) }
{
    match mark(words, Mark::OpenParenthesis) {
        Some(inner) => parse_group(alloc, inner),
        None => parse_simple(alloc, words),
    }
}

/// Reads an atom at the front of the words.
#[cycle(parsing)]
fn parse_atom(alloc: Global, words: &[Word]) -> Result<(RawAtom, &[Word]), ReadFail>
    ensures reads { Reads (λ x. (x.0, x.1.now)) atom words.now result }
    ensures shorter { IfOk result (λ x. length x.1.now < length words.now) }
{
    let (prefix, at) = match parse_prefix(words) {
        Ok(read) => read,
        Err(fail) => return Err(fail),
    };
    let (argument, rest) = match parse_argument(alloc, at) {
        Ok(read) => read,
        Err(fail) => return Err(fail),
    };
    match prefixed(alloc, prefix, argument) {
        Ok(atom) => Ok((atom, rest)),
        Err(_) => Err(ReadFail::NoMemory),
    }
}

/// Reads a link: `then` and an atom, or `thenl` and a list.
#[cycle(parsing)]
fn parse_link(alloc: Global, words: &[Word]) -> Result<(RawLink, &[Word]), ReadFail>
    ensures reads { Reads (λ x. (x.0, x.1.now)) link words.now result }
    ensures shorter { IfOk result (λ x. length x.1.now < length words.now) }
{
    if let Some(rest) = keyword(words, Keyword::Then) {
        return match parse_atom(alloc, rest) {
            Ok((atom, rest)) => Ok((RawLink::Then(atom), rest)),
            Err(fail) => Err(fail),
        };
    }
    let Some(rest) = keyword(words, Keyword::ThenL) else {
        return Err(stuck(words));
    };
    match parse_list(alloc, rest) {
        Ok((items, rest)) => Ok((RawLink::ThenL(items), rest)),
        Err(fail) => Err(fail),
    }
}

/// Reads a chain: an atom, and links as long as there are any.
#[cycle(parsing)]
fn parse_chain(alloc: Global, words: &[Word]) -> Result<(RawStrategy, &[Word]), ReadFail>
    ensures reads { Reads (λ x. (x.0, x.1.now)) chain words.now result }
    ensures shorter { IfOk result (λ x. length x.1.now < length words.now) }
{
    let place = front(words);
    let (first, mut at) = match parse_atom(alloc, words) {
        Ok(read) => read,
        Err(fail) => return Err(fail),
    };
    let mut links = List::new(alloc);
    while link_ahead(at) {
        let (link, rest) = match parse_link(alloc, at) {
            Ok(read) => read,
            Err(fail) => return Err(fail),
        };
        match links.push(link) {
            Ok(()) => {}
            Err(_) => return Err(ReadFail::NoMemory),
        }
        at = rest;
    }
    let chain = RawStrategy {
        at: place,
        first,
        links,
    };
    Ok((chain, at))
}

/// Reads a strategy at the front of the words: chains with `orelse` between each two. There is one at least.
#[cycle(parsing)]
pub(crate) fn parse_strategy(
    alloc: Global,
    words: &[Word],
) -> Result<(RawStrategy, &[Word]), ReadFail>
    ensures reads { Reads (λ x. (x.0, x.1.now)) strategy words.now result }
    ensures shorter { IfOk result (λ x. length x.1.now < length words.now) }
{
    let (mut strategy, mut at) = match parse_chain(alloc, words) {
        Ok(read) => read,
        Err(fail) => return Err(fail),
    };
    while let Some(rest) = keyword(at, Keyword::OrElse) {
        let (other, next) = match parse_chain(alloc, rest) {
            Ok(read) => read,
            Err(fail) => return Err(fail),
        };
        match strategy.links.push(RawLink::OrElse(other)) {
            Ok(()) => {}
            Err(_) => return Err(ReadFail::NoMemory),
        }
        at = next;
    }
    Ok((strategy, at))
}
