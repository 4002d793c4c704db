ghost use Rattle.std.specs.Prelude.{◌≡◌, ◌+◌, ◌<◌, ◌≤◌, [], List, Bool, length, IfOk};
ghost use Rattle.mp_words.specs.Grammars.{Grammar, listed, many, repeated, row, whole};
ghost use Rattle.mp_words.specs.Fronts.{a_name, is_mark};
ghost use Rattle.mp_words.specs.Reading.{Reads};
ghost use Rattle.mp_words.specs.declared.word.Word.{Word};

use crate::parts::{ReadFail, mark, name_at, stuck};
use crate::{Mark, RawName, Word};
use mp_logic::List;
use std::alloc::Global;

/// A reader of one part of a grammar. The functions on lists below read such parts one after the other.
pub trait Reader {
    /// What the part is as it is written.
    type Raw: Drop;

    /// The grammar of the part.
    ghost grammar: { Grammar Word Self.Raw };

    /// Reads the part at the front of the words. It takes one word at least.
    fn read(alloc: Global, words: &[Word]) -> Result<(Self::Raw, &[Word]), ReadFail>
        ensures reads { Reads (λ x. (x.0, x.1.now)) grammar words.now result }
        ensures shorter { IfOk result (λ x. length x.1.now < length words.now) };
}

impl Reader for RawName {
    type Raw = RawName;

    ghost grammar = { a_name };

    /// Reads a name that begins with a small letter.
    fn read(_alloc: Global, words: &[Word]) -> Result<(RawName, &[Word]), ReadFail> {
        match name_at(words) {
            Some(read) => Ok(read),
            None => Err(stuck(words)),
        }
    }
}

/// Reads the part once or more with the separator between, and then the end.
pub fn separated<R: Reader>(
    alloc: Global,
    words: &[Word],
    separator: Mark,
    end: Mark,
) -> Result<(List<R::Raw>, &[Word]), ReadFail>
    ensures reads { Reads (λ x. (x.0, x.1.now)) (row R.grammar (is_mark separator) (is_mark end)) words.now result }
    ensures shorter { IfOk result (λ x. length x.1.now < length words.now) }
    ensures few { IfOk result (λ x. length x.0 + length x.1.now ≤ length words.now) }
{
    let mut items = List::new(alloc);
    let mut at = words;
    loop {
        let (item, rest) = match R::read(alloc, at) {
            Ok(read) => read,
            Err(fail) => return Err(fail),
        };
        match items.push(item) {
            Ok(()) => {}
            Err(_) => return Err(ReadFail::NoMemory),
        }
        if let Some(rest) = mark(rest, end) {
            return Ok((items, rest));
        }
        match mark(rest, separator) {
            Some(next) => at = next,
            None => return Err(stuck(rest)),
        }
    }
}

/// Reads the end at once, or the part once or more with the separator between, and then the end.
pub fn listed<R: Reader>(
    alloc: Global,
    words: &[Word],
    separator: Mark,
    end: Mark,
) -> Result<(List<R::Raw>, &[Word]), ReadFail>
    ensures reads { Reads (λ x. (x.0, x.1.now)) (listed R.grammar (is_mark separator) (is_mark end)) words.now result }
    ensures shorter { IfOk result (λ x. length x.1.now < length words.now) }
    ensures few { IfOk result (λ x. length x.0 + length x.1.now ≤ length words.now) }
{
    match mark(words, end) {
        Some(rest) => Ok((List::new(alloc), rest)),
        None => separated::<R>(alloc, words, separator, end),
    }
}

/// Reads the part again and again, up to the end of the words.
pub fn many<R: Reader>(alloc: Global, words: &[Word]) -> Result<List<R::Raw>, ReadFail>
    ensures reads { Reads (λ x. (x, [])) (whole (many R.grammar)) words.now result }
    ensures few { IfOk result (λ x. length x ≤ length words.now) }
{
    let mut items = List::new(alloc);
    let mut at = words;
    while !at.is_empty() {
        let (item, rest) = match R::read(alloc, at) {
            Ok(read) => read,
            Err(fail) => return Err(fail),
        };
        match items.push(item) {
            Ok(()) => {}
            Err(_) => return Err(ReadFail::NoMemory),
        }
        at = rest;
    }
    Ok(items)
}

/// A reader of a part that is known by the words that it begins with.
pub trait Beginning: Reader {
    /// The words begin the part.
    ghost begun: { List Word → Bool };

    /// Whether the words begin the part.
    fn begins(words: &[Word]) -> bool
        ensures { result ≡ begun words.now };
}

/// Reads the part again and again, as long as the words in front begin it.
pub fn repeated<R: Beginning>(
    alloc: Global,
    words: &[Word],
) -> Result<(List<R::Raw>, &[Word]), ReadFail>
    ensures reads { Reads (λ x. (x.0, x.1.now)) (repeated R.begun R.grammar) words.now result }
    ensures few { IfOk result (λ x. length x.0 + length x.1.now ≤ length words.now) }
{
    let mut items = List::new(alloc);
    let mut at = words;
    while R::begins(at) {
        let (item, rest) = match R::read(alloc, at) {
            Ok(read) => read,
            Err(fail) => return Err(fail),
        };
        match items.push(item) {
            Ok(()) => {}
            Err(_) => return Err(ReadFail::NoMemory),
        }
        at = rest;
    }
    Ok((items, at))
}

/// Reads the part that is all of the words.
pub fn whole<R: Reader>(alloc: Global, words: &[Word]) -> Result<R::Raw, ReadFail>
    ensures { Reads (λ x. (x, [])) (whole R.grammar) words.now result }
{
    let (raw, rest) = match R::read(alloc, words) {
        Ok(read) => read,
        Err(fail) => return Err(fail),
    };
    if !rest.is_empty() {
        return Err(stuck(rest));
    }
    Ok(raw)
}
