//! The lines that are parts of texts.

use crate::case::Suite;
use crate::quoted::{pieces, unquote};
use crate::stop::Why;
use crate::text::Part;
use std::alloc::Global;

/// A number in decimal digits.
pub fn number(text: &str) -> Result<u64, Why> {
    match text.parse::<u64>() {
        Ok(number) => Ok(number),
        Err(_) => Err(Why::Bad("a number is due")),
    }
}

/// The number of the text of this name.
fn text_named(suite: &Suite, name: &str) -> Result<usize, Why> {
    for (place, text) in suite.texts.iter().enumerate() {
        if text.0.as_str() == name {
            return Ok(place);
        }
    }
    Err(Why::Bad("no text of this name stands above"))
}

/// The line as it is, and its newline.
fn whole_line(alloc: Global, line: &str) -> Result<Part, Why> {
    let mut bytes = Vec::new(alloc);
    bytes.extend_from_slice(line.as_bytes())?;
    bytes.push(b'\n')?;
    Ok(Part::Bytes(bytes))
}

/// The text so many times, or once for each number of a range.
fn repeated(alloc: Global, times: &str, quoted: &str) -> Result<Part, Why> {
    match times.split_once("..") {
        Some((first, last)) => Ok(Part::Counted {
            first: number(first)?,
            last: number(last)?,
            pieces: pieces(alloc, quoted)?,
        }),
        None => Ok(Part::Times(number(times)?, unquote(alloc, quoted)?)),
    }
}

/// The part that stands on the line: `| LINE`, `"TEXT"`, `N * "TEXT"`, `N..N * "TEXT"` or `= NAME`. None where the
/// line begins as none of them.
pub fn read_part(alloc: Global, suite: &Suite, line: &str) -> Result<Option<Part>, Why> {
    if let Some(rest) = line.strip_prefix('|') {
        let rest = rest.strip_prefix(' ').unwrap_or(rest);
        return Ok(Some(whole_line(alloc, rest)?));
    }
    if line.starts_with('"') {
        return Ok(Some(Part::Bytes(unquote(alloc, line)?)));
    }
    if let Some(name) = line.strip_prefix("= ") {
        return Ok(Some(Part::Named(text_named(suite, name)?)));
    }
    if line.starts_with(|c: char| c.is_ascii_digit()) {
        return match line.split_once(" * ") {
            Some((times, quoted)) => Ok(Some(repeated(alloc, times, quoted)?)),
            None => Err(Why::Bad("a number stands before * and a text")),
        };
    }
    Ok(None)
}
