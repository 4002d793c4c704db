ghost use Rattle.std.specs.Prelude.{◌≡◌, ◌<◌, length, drop, true, false, IfOk, MatchOption, None, Some};
ghost use Rattle.mp_words.specs.Grammars.{fronted, taken};
ghost use Rattle.mp_words.specs.Fronts.{capital_at, capital_variable_at, first_at, front_at, is_mark, is_word, keyword_code, mark_code, name_at, name_behind, number_at};
ghost use Rattle.mp_words.specs.Reading.{Reads};
ghost use Rattle.mp_words.specs.declared.parts.ReadFail.TheVariants.{Stuck};

use crate::raw::{RawName, RawNumber};
use crate::{Keyword, Mark, What, Word};

/// Why a reader over words stopped.
#[derive(Clone, Copy, Debug, PartialEq, Eq)]
pub enum ReadFail {
    /// The grammar is stuck at the word that begins at this byte, or at the end of the words.
    Stuck(Option<u32>),
    NoMemory,
}

/// Stuck at the front of these words.
pub fn stuck(words: &[Word]) -> ReadFail
    ensures { result ≡ Stuck (first_at words.now) }
{
    match words.first() {
        Some(word) => ReadFail::Stuck(Some(word.at)),
        None => ReadFail::Stuck(None),
    }
}

/// The first byte of the first word; 0 where there is none.
pub fn front(words: &[Word]) -> u32
    ensures { result ≡ front_at words.now }
{
    match words.first() {
        Some(word) => word.at,
        None => 0,
    }
}

/// A number for each mark, to tell them apart.
fn code_of_mark(mark: Mark) -> u8
    ensures { result ≡ mark_code mark }
{
    match mark {
        Mark::OpenBrace => 0,
        Mark::CloseBrace => 1,
        Mark::OpenBracket => 2,
        Mark::CloseBracket => 3,
        Mark::OpenParenthesis => 4,
        Mark::CloseParenthesis => 5,
        Mark::Less => 6,
        Mark::Greater => 7,
        Mark::Turnstile => 8,
        Mark::Yields => 9,
        Mark::Provided => 10,
        Mark::Rewrites => 11,
        Mark::And => 12,
        Mark::Comma => 13,
        Mark::Semicolon => 14,
        Mark::Colon => 15,
        Mark::Becomes => 16,
        Mark::Dot => 17,
        Mark::At => 18,
        Mark::Bar => 19,
    }
}

/// A number for each word of a grammar, to tell them apart.
fn code_of_keyword(keyword: Keyword) -> u8
    ensures { result ≡ keyword_code keyword }
{
    keyword as u8
}

/// Whether this mark stands at the front.
pub fn marked(words: &[Word], which: Mark) -> bool
    ensures { result ≡ fronted (is_mark which) words.now }
{
    let Some(word) = words.first() else {
        return false;
    };
    match word.what {
        What::Mark(found) => code_of_mark(found) == code_of_mark(which),
        _ => false,
    }
}

/// Whether this word of the grammar stands at the front.
pub fn spelled(words: &[Word], which: Keyword) -> bool
    ensures { result ≡ fronted (is_word which) words.now }
{
    let Some(word) = words.first() else {
        return false;
    };
    match word.what {
        What::Small {
            keyword: Some(found),
            ..
        } => code_of_keyword(found) == code_of_keyword(which),
        _ => false,
    }
}

/// The words after the first one.
pub fn behind_front(words: &[Word]) -> &[Word]
    ensures { result.now ≡ drop 1 words.now }
{
    match words.split_first() {
        Some((_, rest)) => rest,
        None => words,
    }
}

/// What is after this mark; None where it doesn't stand at the front.
pub fn mark(words: &[Word], which: Mark) -> Option<&[Word]>
    ensures { MatchOption result (fronted (is_mark which) words.now ≡ false) (λ rest. (fronted (is_mark which) words.now ≡ true) × (rest.now ≡ drop 1 words.now)) }
{
    if marked(words, which) {
        Some(behind_front(words))
    } else {
        None
    }
}

/// What is after this word of the grammar; None where it doesn't stand at the front.
pub fn keyword(words: &[Word], which: Keyword) -> Option<&[Word]>
    ensures { MatchOption result (fronted (is_word which) words.now ≡ false) (λ rest. (fronted (is_word which) words.now ≡ true) × (rest.now ≡ drop 1 words.now)) }
{
    if spelled(words, which) {
        Some(behind_front(words))
    } else {
        None
    }
}

/// The name with a small letter at the front, and what is after it.
pub fn name_at(words: &[Word]) -> Option<(RawName, &[Word])>
    ensures { MatchOption result (taken name_at words.now ≡ None) (λ p. (taken name_at words.now ≡ Some p.0) × (p.1.now ≡ drop 1 words.now)) }
{
    let (word, rest) = words.split_first()?;
    match word.what {
        What::Small { name, .. } => Some((RawName { name, at: word.at }, rest)),
        _ => None,
    }
}

/// The name with a capital letter at the front, and what is after it.
pub fn capital_at(words: &[Word]) -> Option<(RawName, &[Word])>
    ensures { MatchOption result (taken capital_at words.now ≡ None) (λ p. (taken capital_at words.now ≡ Some p.0) × (p.1.now ≡ drop 1 words.now)) }
{
    let (word, rest) = words.split_first()?;
    match word.what {
        What::Cap(name) => Some((RawName { name, at: word.at }, rest)),
        _ => None,
    }
}

/// The second-order variable at the front, and what is after it.
pub fn capital_variable_at(words: &[Word]) -> Option<(RawName, &[Word])>
    ensures { MatchOption result (taken capital_variable_at words.now ≡ None) (λ p. (taken capital_variable_at words.now ≡ Some p.0) × (p.1.now ≡ drop 1 words.now)) }
{
    let (word, rest) = words.split_first()?;
    match word.what {
        What::CapVar(name) => Some((RawName { name, at: word.at }, rest)),
        _ => None,
    }
}

/// The number at the front, and what is after it.
pub fn number_at(words: &[Word]) -> Option<(RawNumber, &[Word])>
    ensures { MatchOption result (taken number_at words.now ≡ None) (λ p. (taken number_at words.now ≡ Some p.0) × (p.1.now ≡ drop 1 words.now)) }
{
    let (word, rest) = words.split_first()?;
    match word.what {
        What::Num(value) => Some((RawNumber { value, at: word.at }, rest)),
        _ => None,
    }
}

/// Reads this word of the grammar and a name.
pub fn name_behind(words: &[Word], which: Keyword) -> Result<(RawName, &[Word]), ReadFail>
    ensures reads { Reads (λ x. (x.0, x.1.now)) (name_behind which) words.now result }
    ensures shorter { IfOk result (λ x. length x.1.now < length words.now) }
{
    let Some(at) = keyword(words, which) else {
        return Err(stuck(words));
    };
    match name_at(at) {
        Some(read) => Ok(read),
        None => Err(stuck(at)),
    }
}
