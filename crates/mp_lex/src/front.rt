ghost use Rattle.std.specs.Prelude.{◌≡◌, ◌≤◌, ◌<◌, ◌+◌, ◌^◌, ◌∷◌, ◌-◌, length, min, nat_le, true, false, if◌then◌else◌};
ghost use Rattle.std.specs.List.{list_all, prefix_len};
ghost use Rattle.mp_lex.specs.declared.token.Kind.TheVariants.{Str, Num};
ghost use Rattle.mp_lex.specs.declared.token.LexWhy.TheVariants.{LongName, BadString, BadNumber};
ghost use Rattle.mp_lex.specs.Bytes.{is_small, is_cap, is_digit, is_word_byte, is_comment};
ghost use Rattle.mp_lex.specs.Forms.{is_number, number_of_digits};
ghost use Rattle.mp_lex.specs.Lex.{checked, string_len, mark_len, mark_front, comment_of, variable_of, front_of, begins_with, IsWithin};

use crate::byte::{blank, cap, comment, digit, printed, single_mark, small, word};
use crate::limits::{LONGEST_NAME, LONGEST_STRING};
use crate::{Kind, LexWhy};

/// What stands at a place of a text.
#[derive(Clone, Copy, Debug, PartialEq, Eq)]
pub(crate) enum Front {
    /// A separator, or a comment with the end of its line: so many bytes.
    Passed(usize),
    /// A token of this kind and so many bytes.
    Token { kind: Kind, len: usize },
    /// A fault, so many bytes further on.
    Bad { ahead: usize, why: LexWhy },
}

/// What stands at the front of the text; BadByte where it is empty.
pub(crate) fn look(bytes: &[u8]) -> Front
    ensures value { result ≡ front_of bytes.now }
    ensures within { IsWithin (length bytes.now) result }
{
    let Some((first, rest)) = bytes.split_first() else {
        return bad(LexWhy::BadByte);
    };
    let first = *first;
    if small(first) {
        name(Kind::Small, 0, 1 + word_len(rest))
    } else if cap(first) {
        name(Kind::Cap, 0, 1 + word_len(rest))
    } else if digit(first) {
        number(bytes)
    } else if blank(first) {
        Front::Passed(1)
    } else if first == b'#' {
        rest_of_line(rest)
    } else if first == b'\'' {
        variable(rest)
    } else if first == b'"' {
        string(rest)
    } else if first == b'-' && begins_with_digit(rest) {
        negative(rest)
    } else {
        mark(first, rest)
    }
}

fn bad(why: LexWhy) -> Front
    ensures { result ≡ Front.Bad 0 why }
{
    Front::Bad { ahead: 0, why }
}

/// A name of so many bytes after a quote or nothing.
fn name(kind: Kind, quote: usize, len: usize) -> Front
    requires { quote + len < 2 ^ 64 }
    ensures { result ≡ (if nat_le len LONGEST_NAME then Front.Token kind (quote + len) else Front.Bad 0 LongName) }
{
    if len <= LONGEST_NAME {
        Front::Token {
            kind,
            len: quote + len,
        }
    } else {
        bad(LexWhy::LongName)
    }
}

/// How many bytes at the front go on with a name.
fn word_len(bytes: &[u8]) -> usize
    ensures value { result ≡ prefix_len is_word_byte bytes.now }
    ensures within { result ≤ length bytes.now }
{
    for (i, b) in bytes.iter().enumerate() {
        if !word(*b) {
            return i;
        }
    }
    bytes.len()
}

/// How many digits are at the front.
fn digit_len(bytes: &[u8]) -> usize
    ensures value { result ≡ prefix_len is_digit bytes.now }
    ensures within { result ≤ length bytes.now }
{
    for (i, b) in bytes.iter().enumerate() {
        if !digit(*b) {
            return i;
        }
    }
    bytes.len()
}

/// How many bytes at the front a comment may have.
fn comment_len(bytes: &[u8]) -> usize
    ensures value { result ≡ prefix_len is_comment bytes.now }
    ensures within { result ≤ length bytes.now }
{
    for (i, b) in bytes.iter().enumerate() {
        if !comment(*b) {
            return i;
        }
    }
    bytes.len()
}

/// A comment, whose `#` is before these bytes.
fn rest_of_line(rest: &[u8]) -> Front
    ensures value { result ≡ comment_of rest.now }
    ensures within { IsWithin (1 + length rest.now) result }
{
    let len = comment_len(rest);
    if len == rest.len() {
        Front::Passed(1 + len)
    } else if rest[len] == b'\n' {
        Front::Passed(2 + len)
    } else {
        Front::Bad {
            ahead: 1 + len,
            why: LexWhy::BadByte,
        }
    }
}

/// A variable, whose `'` is before these bytes.
fn variable(rest: &[u8]) -> Front
    ensures value { result ≡ variable_of (39 ∷ rest.now) rest.now }
    ensures within { IsWithin (1 + length rest.now) result }
{
    let Some((first, more)) = rest.split_first() else {
        return bad(LexWhy::BadByte);
    };
    if small(*first) {
        name(Kind::SmallVar, 1, 1 + word_len(more))
    } else if cap(*first) {
        name(Kind::CapVar, 1, 1 + word_len(more))
    } else {
        bad(LexWhy::BadByte)
    }
}

fn begins_with_digit(bytes: &[u8]) -> bool
    ensures { result ≡ begins_with is_digit bytes.now }
{
    match bytes.first() {
        Some(b) => digit(*b),
        None => false,
    }
}

/// The number that the digits write; it stops at the greatest `u64`.
pub fn digits_value(digits: &[u8]) -> u64
    ensures { result ≡ min (number_of_digits digits.now) 18446744073709551615 }
{
    let mut total = 0u64;
    for b in digits {
        total = total
            .saturating_mul(10)
            .saturating_add(b.saturating_sub(b'0') as u64);
    }
    total
}

/// Whether the digits, after a `-` where it is negative, are a number of 64 bits as it has to be written.
fn fits(negative: bool, digits: &[u8]) -> bool
    requires some { 0 < length digits.now }
    requires digits { list_all is_digit digits.now ≡ true }
    ensures { result ≡ is_number (if negative then 45 ∷ digits.now else digits.now) }
{
    if digits[0] == b'0' {
        digits.len() == 1 && !negative
    } else if negative {
        digits_value(digits) <= 1 << 63
    } else {
        digits_value(digits) < 1 << 63
    }
}

/// A number without `-`, whose first digit is the first of these bytes.
fn number(bytes: &[u8]) -> Front
    requires { begins_with is_digit bytes.now ≡ true }
    ensures value { result ≡ checked Num BadNumber (prefix_len is_digit bytes.now) bytes.now }
    ensures within { IsWithin (length bytes.now) result }
{
    let len = digit_len(bytes);
    if fits(false, &bytes[..len]) {
        Front::Token {
            kind: Kind::Num,
            len,
        }
    } else {
        bad(LexWhy::BadNumber)
    }
}

/// A number whose `-` is before these bytes, and whose first digit is the first of them.
fn negative(bytes: &[u8]) -> Front
    requires { begins_with is_digit bytes.now ≡ true }
    ensures value { result ≡ checked Num BadNumber (1 + prefix_len is_digit bytes.now) (45 ∷ bytes.now) }
    ensures within { IsWithin (1 + length bytes.now) result }
{
    let len = digit_len(bytes);
    if fits(true, &bytes[..len]) {
        Front::Token {
            kind: Kind::Num,
            len: 1 + len,
        }
    } else {
        bad(LexWhy::BadNumber)
    }
}

/// A string, whose opening quote is before these bytes.
fn string(rest: &[u8]) -> Front
    ensures value { result ≡ checked Str BadString (1 + string_len false rest.now) (34 ∷ rest.now) }
    ensures within { IsWithin (1 + length rest.now) result }
{
    let mut escaped = false;
    for (i, b) in rest.iter().enumerate() {
        if escaped {
            if *b != b'"' && *b != b'\\' {
                return bad(LexWhy::BadString);
            }
            escaped = false;
        } else if *b == b'"' {
            return closed(i);
        } else if printed(*b) {
            escaped = *b == b'\\';
        } else {
            return bad(LexWhy::BadString);
        }
    }
    bad(LexWhy::BadString)
}

/// A string with so many bytes between its quotes.
fn closed(len: usize) -> Front
    requires { len + 2 < 2 ^ 64 }
    ensures { result ≡ (if nat_le len LONGEST_STRING then Front.Token Str (len + 2) else Front.Bad 0 BadString) }
{
    if len <= LONGEST_STRING {
        Front::Token {
            kind: Kind::Str,
            len: len + 2,
        }
    } else {
        bad(LexWhy::BadString)
    }
}

/// The length of the longest mark that begins with this byte before these, or 0.
fn mark_len(first: u8, rest: &[u8]) -> usize
    ensures value { result ≡ mark_len (first ∷ rest.now) }
    ensures within { result ≤ 1 + length rest.now }
{
    match first {
        b'>' => if rest.starts_with(b"-") { 2 } else { 1 },
        b':' => if rest.starts_with(b"=") { 2 } else { 1 },
        b'<' => if rest.starts_with(b"->") { 3 } else { 1 },
        b'=' => if rest.starts_with(b"=>") { 3 } else { 0 },
        b'-' => if rest.starts_with(b"->") { 3 } else { 0 },
        _ => if single_mark(first) { 1 } else { 0 },
    }
}

/// A mark that begins with this byte before these.
fn mark(first: u8, rest: &[u8]) -> Front
    ensures value { result ≡ mark_front (mark_len (first ∷ rest.now)) }
    ensures within { IsWithin (1 + length rest.now) result }
{
    let len = mark_len(first, rest);
    if len > 0 {
        Front::Token {
            kind: Kind::Mark,
            len,
        }
    } else {
        bad(LexWhy::BadByte)
    }
}
