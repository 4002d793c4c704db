//! The format of a file of cases, line by line. docs/CASES.md describes it.

use crate::case::{Case, Fields, Suite};
use crate::fields::{Target, first_word, no_fields, push_part, read_field};
use crate::part::read_part;
use crate::stop::{Stop, Why};
use crate::text::{Part, push_text};
use std::alloc::Global;

/// The number of the last base.
fn last_base(suite: &Suite) -> usize {
    suite.bases.len().saturating_sub(1)
}

/// What the lines speak of: the last case after the last base, or else that base.
fn open_fields(suite: &mut Suite) -> Result<&mut Fields, Why> {
    let base = last_base(suite);
    match suite.cases.last_mut() {
        Some(case) if case.base == base => Ok(&mut case.fields),
        _ => match suite.bases.last_mut() {
            Some(fields) => Ok(fields),
            None => Err(Why::Bad("a base or a case is due")),
        },
    }
}

/// Begins a named text, whose parts follow.
fn open_text(alloc: Global, suite: &mut Suite, name: &str) -> Result<(), Why> {
    for text in &suite.texts {
        if text.0.as_str() == name {
            return Err(Why::Bad("a text of this name stands above"));
        }
    }
    let name = name.to_string(alloc)?;
    suite.texts.push((name, Vec::new(alloc)))?;
    Ok(())
}

/// Begins a case.
fn open_case(alloc: Global, suite: &mut Suite, name: &str, line: u64) -> Result<(), Why> {
    let name = name.to_string(alloc)?;
    let base = last_base(suite);
    suite.cases.push(Case {
        name,
        line,
        base,
        fields: no_fields(alloc),
    })?;
    Ok(())
}

/// Appends the part to the last named text.
fn push_to_text(alloc: Global, suite: &mut Suite, part: Part) -> Result<(), Why> {
    let mut made = Vec::new(alloc);
    push_text(&mut made, alloc, suite.texts.as_slice(), &[part])?;
    if let Some(text) = suite.texts.last_mut() {
        text.1.extend_from_slice(made.as_slice())?;
    }
    Ok(())
}

/// Appends the part to the text that is open.
fn push(alloc: Global, suite: &mut Suite, target: Target, part: Part) -> Result<(), Why> {
    if target == Target::Text {
        return push_to_text(alloc, suite, part);
    }
    push_part(open_fields(suite)?, target, part)
}

/// Reads a line that begins with a key, and answers which text is open then, with the part of it on this line.
fn read_key<'a>(
    alloc: Global,
    suite: &mut Suite,
    text: &'a str,
    line: u64,
) -> Result<(Target, &'a str), Why> {
    let (key, rest) = first_word(text);
    match key {
        "text" => {
            let (name, rest) = first_word(rest);
            open_text(alloc, suite, name)?;
            Ok((Target::Text, rest))
        }
        "base" => {
            suite.bases.push(no_fields(alloc))?;
            Ok((Target::None, ""))
        }
        "case" => {
            open_case(alloc, suite, rest, line)?;
            Ok((Target::None, ""))
        }
        _ => read_field(alloc, open_fields(suite)?, key, rest),
    }
}

/// Reads a line, and answers to which text the parts belong that follow.
fn read_line(
    alloc: Global,
    suite: &mut Suite,
    target: Target,
    text: &str,
    line: u64,
) -> Result<Target, Why> {
    if text.ends_with(' ') || text.bytes().any(|byte| byte < b' ' || byte == 127) {
        return Err(Why::Bad("a space at the end, or a control character"));
    }
    let text = text.trim_start();
    if text.is_empty() || text.starts_with('#') {
        return Ok(target);
    }
    if let Some(part) = read_part(alloc, suite, text)? {
        push(alloc, suite, target, part)?;
        return Ok(target);
    }
    let (target, rest) = read_key(alloc, suite, text, line)?;
    if rest.is_empty() {
        return Ok(target);
    }
    match read_part(alloc, suite, rest)? {
        Some(part) => push(alloc, suite, target, part)?,
        None => return Err(Why::Bad("a text is due")),
    }
    Ok(target)
}

/// The cases of the file, or the first line that isn't in the format.
pub fn read_suite(alloc: Global, source: &str) -> Result<Suite, Stop> {
    let mut suite = Suite {
        texts: Vec::new(alloc),
        bases: vec![in alloc; no_fields(alloc)]?,
        cases: Vec::new(alloc),
    };
    let mut target = Target::None;
    let mut line = 0u64;
    // `lines` would drop a carriage return at the end of a line.
    for text in source.split('\n') {
        line = line.saturating_add(1);
        target = match read_line(alloc, &mut suite, target, text, line) {
            Ok(target) => target,
            Err(Why::Bad(why)) => return Err(Stop::Fault { line, why }),
            Err(Why::NoMemory) => return Err(Stop::NoMemory),
        };
    }
    Ok(suite)
}
