ghost use Rattle.std.specs.Prelude.{◌<◌, length, IfOk};
ghost use Rattle.mp_words.specs.Reading.{Reads};
ghost use Rattle.mp_schematext.specs.Grammar.{context, hypothesis, item, rule, schema};

use crate::{RawItem, RawRule, RawSchema};
use mp_logic::List;
use mp_patterntext::{Context, RawPattern, parse_arguments, parse_contexts, parse_pattern};
use mp_words::{
    Keyword, Mark, Named, RawName, ReadFail, Reader, Word, front, listed, mark, name_at,
    name_behind, stuck,
};
use std::alloc::Global;

/// Reads a hypothesis: a name, a colon and a pattern.
fn parse_hypothesis(alloc: Global, words: &[Word]) -> Result<(RawItem, &[Word]), ReadFail>
    ensures reads { Reads (λ x. (x.0, x.1.now)) hypothesis words.now result }
    ensures shorter { IfOk result (λ x. length x.1.now < length words.now) }
{
    let Some((RawName { name, at }, rest)) = name_at(words) else {
        return Err(stuck(words));
    };
    let Some(rest) = mark(rest, Mark::Colon) else {
        return Err(stuck(rest));
    };
    match parse_pattern(alloc, rest) {
        Ok((pattern, rest)) => Ok((RawItem::Hyp { name, pattern, at }, rest)),
        Err(fail) => Err(fail),
    }
}

/// Reads a context of an item, after its `<` and up to its `>`: its name, its list of contexts and its arguments.
fn parse_context(
    alloc: Global,
    words: &[Word],
) -> Result<(RawName, List<RawName>, List<RawPattern>, &[Word]), ReadFail>
    ensures reads { Reads (λ x. ((x.0, (x.1, x.2)), x.3.now)) context words.now result }
    ensures shorter { IfOk result (λ x. length x.3.now < length words.now) }
{
    let (name, at) = match Context::read(alloc, words) {
        Ok(read) => read,
        Err(fail) => return Err(fail),
    };
    let (ctxs, at) = match parse_contexts(alloc, at) {
        Ok(read) => read,
        Err(fail) => return Err(fail),
    };
    let (args, at) = match parse_arguments(alloc, at) {
        Ok(read) => read,
        Err(fail) => return Err(fail),
    };
    match mark(at, Mark::Greater) {
        Some(rest) => Ok((name, ctxs, args, rest)),
        None => Err(stuck(at)),
    }
}

impl Reader for RawItem {
    type Raw = RawItem;

    ghost grammar = { item };

    /// Reads a context between `<` and `>`, or a hypothesis.
    fn read(alloc: Global, words: &[Word]) -> Result<(RawItem, &[Word]), ReadFail> {
        let at = front(words);
        let Some(inner) = mark(words, Mark::Less) else {
            return parse_hypothesis(alloc, words);
        };
        match parse_context(alloc, inner) {
            Ok((name, ctxs, args, rest)) => Ok((
                RawItem::Ctx {
                    name,
                    ctxs,
                    args,
                    at,
                },
                rest,
            )),
            Err(fail) => Err(fail),
        }
    }
}

impl Reader for RawSchema {
    type Raw = RawSchema;

    ghost grammar = { schema };

    /// Reads items, `>-` and a conclusion.
    fn read(alloc: Global, words: &[Word]) -> Result<(RawSchema, &[Word]), ReadFail> {
        let at = front(words);
        let (items, rest) = match listed::<RawItem>(
            alloc,
            words,
            Mark::Semicolon,
            Mark::Turnstile,
        ) {
            Ok(read) => read,
            Err(fail) => return Err(fail),
        };
        match parse_pattern(alloc, rest) {
            Ok((concl, rest)) => Ok((RawSchema { items, concl, at }, rest)),
            Err(fail) => Err(fail),
        }
    }
}

impl Named for RawRule {
    ghost named = { λ r. r.name };

    fn named(&self) -> RawName {
        self.name
    }
}

impl Reader for RawRule {
    type Raw = RawRule;

    ghost grammar = { rule };

    /// Reads `rule`, a name, a colon, the premises, `==>` and the conclusion.
    fn read(alloc: Global, words: &[Word]) -> Result<(RawRule, &[Word]), ReadFail> {
        let (name, rest) = match name_behind(words, Keyword::Rule) {
            Ok(read) => read,
            Err(fail) => return Err(fail),
        };
        let Some(rest) = mark(rest, Mark::Colon) else {
            return Err(stuck(rest));
        };
        let (premises, rest) = match listed::<RawSchema>(alloc, rest, Mark::Comma, Mark::Yields) {
            Ok(read) => read,
            Err(fail) => return Err(fail),
        };
        match RawSchema::read(alloc, rest) {
            Ok((concl, rest)) => Ok((
                RawRule {
                    name,
                    premises,
                    concl,
                },
                rest,
            )),
            Err(fail) => Err(fail),
        }
    }
}
