//! Texts between quotes, with their escapes.

use crate::stop::Why;
use crate::text::push_joined;
use std::alloc::Global;

/// The number of a hexadecimal digit; letters are small.
fn hex_digit(byte: u8) -> Option<u8> {
    match byte {
        b'0'..=b'9' => Some(byte - b'0'),
        b'a'..=b'f' => Some(byte - b'a' + 10),
        _ => None,
    }
}

/// The byte of two hexadecimal digits.
fn hex_byte(high: Option<u8>, low: Option<u8>) -> Option<u8> {
    match (hex_digit(high?), hex_digit(low?)) {
        (Some(high), Some(low)) => Some(high.wrapping_mul(16).wrapping_add(low)),
        _ => None,
    }
}

/// The byte that stands for itself after a backslash, or for which the letter stands there.
fn escaped(byte: u8) -> Option<u8> {
    match byte {
        b'n' => Some(b'\n'),
        b'r' => Some(b'\r'),
        b't' => Some(b'\t'),
        b'\\' | b'%' => Some(byte),
        _ => None,
    }
}

/// What stands between the first byte and the last one, which are quotes.
fn inner(quoted: &str) -> Result<&str, Why> {
    match quoted.strip_prefix('"') {
        Some(rest) => match rest.strip_suffix('"') {
            Some(inner) => Ok(inner),
            None => Err(Why::Bad("the text has no quote at its end")),
        },
        None => Err(Why::Bad("a text between quotes is due")),
    }
}

/// The bytes between the quotes, cut at each `%` that has no backslash before it. `\n`, `\r`, `\t`, `\\` and `\%` are
/// one byte, and so is `\x` with two digits.
pub fn pieces(alloc: Global, quoted: &str) -> Result<Vec<Vec<u8>>, Why> {
    let mut pieces = Vec::new(alloc);
    let mut piece = Vec::new(alloc);
    let mut bytes = inner(quoted)?.bytes();
    while let Some(byte) = bytes.next() {
        if byte == b'%' {
            pieces.push(piece)?;
            piece = Vec::new(alloc);
            continue;
        }
        if byte != b'\\' {
            piece.push(byte)?;
            continue;
        }
        let due = match bytes.next() {
            Some(b'x') => hex_byte(bytes.next(), bytes.next()),
            Some(byte) => escaped(byte),
            None => None,
        };
        match due {
            Some(byte) => piece.push(byte)?,
            None => return Err(Why::Bad("no such escape")),
        }
    }
    pieces.push(piece)?;
    Ok(pieces)
}

/// The bytes between the quotes, in which a `%` is itself.
pub fn unquote(alloc: Global, quoted: &str) -> Result<Vec<u8>, Why> {
    let pieces = pieces(alloc, quoted)?;
    let mut made = Vec::new(alloc);
    push_joined(&mut made, pieces.as_slice(), b"%".as_slice())?;
    Ok(made)
}
