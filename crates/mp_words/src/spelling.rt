ghost use Rattle.std.specs.Prelude.{◌≡◌, ◌++◌, ◌∷◌, ◌≤◌, ◌<◌, ◌^◌, OnOk, IfOk, min, length, true, false, drop, map};
ghost use Rattle.std.specs.List.{list_all};
ghost use Rattle.mp_lex.specs.Bytes.{is_digit};
ghost use Rattle.mp_lex.specs.Forms.{is_positive, is_number, number_of_digits};
ghost use Rattle.mp_words.specs.Words.{content_of, integer_of, keyword_of, mark_of, minus, numbered_of, row_of, spelled, unescaped};

use crate::{Keyword, Mark};
use mp_lex::{digit, digits_value};
use mp_logic::NoMemory;
use std::alloc::Global;

/// A name, and the word of the grammars that it spells.
struct Spelling(&'static [u8], Keyword);

static KEYWORDS: [Spelling; 30] = [
    Spelling(b"rule", Keyword::Rule),
    Spelling(b"rewrite", Keyword::Rewrite),
    Spelling(b"goal", Keyword::Goal),
    Spelling(b"fuel", Keyword::Fuel),
    Spelling(b"by", Keyword::By),
    Spelling(b"then", Keyword::Then),
    Spelling(b"thenl", Keyword::ThenL),
    Spelling(b"orelse", Keyword::OrElse),
    Spelling(b"try", Keyword::Try),
    Spelling(b"repeat", Keyword::Repeat),
    Spelling(b"progress", Keyword::Progress),
    Spelling(b"complete", Keyword::Complete),
    Spelling(b"race", Keyword::Race),
    Spelling(b"fail", Keyword::Fail),
    Spelling(b"id", Keyword::Id),
    Spelling(b"rw", Keyword::Rw),
    Spelling(b"concl", Keyword::Concl),
    Spelling(b"hyp", Keyword::Hyp),
    Spelling(b"at", Keyword::At),
    Spelling(b"with", Keyword::With),
    Spelling(b"closed", Keyword::Closed),
    Spelling(b"open", Keyword::Open),
    Spelling(b"failed", Keyword::Failed),
    Spelling(b"strategy", Keyword::Strategy),
    Spelling(b"claim", Keyword::Claim),
    Spelling(b"send", Keyword::Send),
    Spelling(b"again", Keyword::Again),
    Spelling(b"die", Keyword::Die),
    Spelling(b"lose", Keyword::Lose),
    Spelling(b"reissue", Keyword::Reissue),
];

/// The word of the grammars that the name spells.
pub(crate) fn keyword(text: &[u8]) -> Option<Keyword>
    ensures { result ≡ keyword_of text.now }
{
    spelled(&KEYWORDS, text)
}

/// The word that the name spells by this table. Of a spelling of another length only the length is looked at.
fn spelled(table: &[Spelling], text: &[u8]) -> Option<Keyword>
    ensures { result ≡ spelled (map row_of table.now) text.now }
{
    for spelling in table {
        if text == spelling.0 {
            return Some(spelling.1);
        }
    }
    None
}

/// The mark with this text.
pub(crate) fn mark(text: &[u8]) -> Mark
    ensures { result ≡ mark_of text.now }
{
    match text {
        [b'{'] => Mark::OpenBrace,
        [b'}'] => Mark::CloseBrace,
        [b'['] => Mark::OpenBracket,
        [b']'] => Mark::CloseBracket,
        [b'('] => Mark::OpenParenthesis,
        [b')'] => Mark::CloseParenthesis,
        [b'<'] => Mark::Less,
        [b'>'] => Mark::Greater,
        [b'&'] => Mark::And,
        [b','] => Mark::Comma,
        [b';'] => Mark::Semicolon,
        [b':'] => Mark::Colon,
        [b'.'] => Mark::Dot,
        [b'@'] => Mark::At,
        [b'>', b'-'] => Mark::Turnstile,
        [b':', b'='] => Mark::Becomes,
        [b'=', b'=', b'>'] => Mark::Yields,
        [b'-', b'-', b'>'] => Mark::Provided,
        [b'<', b'-', b'>'] => Mark::Rewrites,
        _ => Mark::Bar,
    }
}

fn all_digits(bytes: &[u8]) -> bool
    ensures { result ≡ list_all is_digit bytes.now }
{
    for byte in bytes {
        if !digit(*byte) {
            return false;
        }
    }
    true
}

/// Whether these are digits that don't begin with 0.
fn positive(bytes: &[u8]) -> bool
    ensures { result ≡ is_positive bytes.now }
{
    match bytes.first() {
        Some(first) => *first != b'0' && all_digits(bytes),
        None => false,
    }
}

/// The number after `x` in the name of a variable, where it is one.
pub(crate) fn numbered(name: &[u8]) -> Option<u32>
    ensures { result ≡ numbered_of name.now }
{
    let (first, digits) = name.split_first()?;
    if *first != b'x' || !positive(digits) {
        return None;
    }
    let number = digits_value(digits);
    if number < 1 << 32 {
        Some(number as u32)
    } else {
        None
    }
}

/// The number that a token for a number writes.
pub(crate) fn integer(text: &[u8]) -> i64
    requires { is_number text.now ≡ true }
    ensures { result ≡ integer_of text.now }
{
    let Some((first, digits)) = text.split_first() else {
        return 0;
    };
    if *first == b'-' {
        negated(digits_value(digits))
    } else {
        digits_value(text) as i64
    }
}

fn negated(number: u64) -> i64
    requires { number ≤ 2 ^ 63 }
    ensures { result ≡ minus number }
{
    if number == 0 {
        0
    } else {
        -1 - (number - 1) as i64
    }
}

/// The text from its second byte on.
pub(crate) fn behind_first(text: &[u8]) -> &[u8]
    ensures { result.now ≡ drop 1 text.now }
{
    match text.split_first() {
        Some((_, rest)) => rest,
        None => text,
    }
}

/// What a token for a string stands for.
pub(crate) fn content(alloc: Global, text: &[u8]) -> Result<Vec<u8>, NoMemory>
    ensures { IfOk result (λ content. content.items ≡ content_of text.now) }
{
    let mut content = Vec::new(alloc);
    push_unescaped(&mut content, behind_first(text))?;
    Ok(content)
}

fn push_unescaped(out: &mut Vec<u8>, bytes: &[u8]) -> Result<(), NoMemory>
    ensures { OnOk result (out.new.items ≡ out.old.items ++ unescaped false bytes.now) }
{
    let mut escaped = false;
    for byte in bytes {
        if !escaped && *byte == b'"' {
            return Ok(());
        }
        if !escaped && *byte == b'\\' {
            escaped = true;
        } else {
            escaped = false;
            if out.push(*byte).is_err() {
                return Err(NoMemory);
            }
        }
    }
    Ok(())
}
