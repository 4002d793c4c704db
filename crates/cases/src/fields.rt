//! The lines that say what a case or a base has.

use crate::case::{Answer, Fields};
use crate::part::number;
use crate::stop::Why;
use crate::text::Part;
use std::alloc::Global;

/// To which text the parts belong that stand on the next lines.
#[derive(Clone, Copy, PartialEq, Eq)]
pub enum Target {
    /// To none.
    None,
    /// To the last named text.
    Text,
    /// To the last word.
    Word,
    /// To the last file.
    File,
    /// To the bytes due, or the last put.
    Answer,
}

/// A key that a case or a base has at most once.
const TWICE: Why = Why::Bad("this stands here a second time");

/// No text is open to which a part could belong.
const NOWHERE: Why = Why::Bad("this text belongs to nothing");

/// What says nothing.
pub fn no_fields(alloc: Global) -> Fields {
    Fields {
        words: None,
        files: Vec::new(alloc),
        reads: None,
        writes: None,
        answer: None,
        status: None,
    }
}

/// The two parts of a line around its first space; the second is empty where there is none.
pub fn first_word(line: &str) -> (&str, &str) {
    match line.split_once(' ') {
        Some((word, rest)) => (word, rest.trim_start()),
        None => (line, ""),
    }
}

/// All words at once.
fn set_words(alloc: Global, fields: &mut Fields, rest: &str) -> Result<(), Why> {
    if fields.words.is_some() {
        return Err(TWICE);
    }
    let mut words = Vec::new(alloc);
    for word in rest.split_whitespace() {
        let bytes = word.as_bytes().to_vec(alloc)?;
        words.push(vec![in alloc; Part::Bytes(bytes)]?)?;
    }
    fields.words = Some(words);
    Ok(())
}

/// A word more, whose parts follow.
fn open_word(alloc: Global, fields: &mut Fields) -> Result<(), Why> {
    if let Some(words) = &mut fields.words {
        words.push(Vec::new(alloc))?;
        return Ok(());
    }
    fields.words = Some(vec![in alloc; Vec::new(alloc)]?);
    Ok(())
}

/// A file whose parts follow.
fn open_file(alloc: Global, fields: &mut Fields, name: &str) -> Result<(), Why> {
    for file in &fields.files {
        if file.0.as_str() == name {
            return Err(TWICE);
        }
    }
    let name = name.to_string(alloc)?;
    fields.files.push((name, Vec::new(alloc)))?;
    Ok(())
}

/// The bytes due, whose parts follow, or that any will do.
fn open_out(alloc: Global, fields: &mut Fields, rest: &str) -> Result<(), Why> {
    if fields.answer.is_some() {
        return Err(TWICE);
    }
    fields.answer = Some(if rest == "any" {
        Answer::Any
    } else {
        Answer::Out(Vec::new(alloc))
    });
    Ok(())
}

/// A put more, whose parts follow.
fn open_put(alloc: Global, fields: &mut Fields) -> Result<(), Why> {
    match &mut fields.answer {
        Some(Answer::Puts(puts)) => {
            puts.push(Vec::new(alloc))?;
            return Ok(());
        }
        Some(_) => return Err(TWICE),
        None => {}
    }
    fields.answer = Some(Answer::Puts(vec![in alloc; Vec::new(alloc)]?));
    Ok(())
}

/// The status due.
fn set_status(fields: &mut Fields, rest: &str) -> Result<(), Why> {
    if fields.status.is_some() {
        return Err(TWICE);
    }
    match rest.parse::<u8>() {
        Ok(status) => fields.status = Some(status),
        Err(_) => return Err(Why::Bad("a status is due")),
    }
    Ok(())
}

/// The numbers of the reads that fail.
fn set_reads(alloc: Global, fields: &mut Fields, rest: &str) -> Result<(), Why> {
    if fields.reads.is_some() {
        return Err(TWICE);
    }
    let mut reads = Vec::new(alloc);
    for call in rest.split_whitespace() {
        reads.push(number(call)?)?;
    }
    fields.reads = Some(reads);
    Ok(())
}

/// The writes that fail, each `CALL:BYTES`.
fn set_writes(alloc: Global, fields: &mut Fields, rest: &str) -> Result<(), Why> {
    if fields.writes.is_some() {
        return Err(TWICE);
    }
    let mut writes = Vec::new(alloc);
    for write in rest.split_whitespace() {
        match write.split_once(':') {
            Some((call, count)) => writes.push((number(call)?, number(count)?))?,
            None => return Err(Why::Bad("a call and a number of bytes are due, as 2:4")),
        }
    }
    fields.writes = Some(writes);
    Ok(())
}

/// Reads what stands after the key, and answers which text is open then, with the part of it on this line.
pub fn read_field<'a>(
    alloc: Global,
    fields: &mut Fields,
    key: &str,
    rest: &'a str,
) -> Result<(Target, &'a str), Why> {
    match key {
        "words" => set_words(alloc, fields, rest)?,
        "status" => set_status(fields, rest)?,
        "reads_fail" => set_reads(alloc, fields, rest)?,
        "writes_fail" => set_writes(alloc, fields, rest)?,
        "word" => {
            open_word(alloc, fields)?;
            return Ok((Target::Word, rest));
        }
        "file" => {
            let (name, rest) = first_word(rest);
            open_file(alloc, fields, name)?;
            return Ok((Target::File, rest));
        }
        "out" => {
            open_out(alloc, fields, rest)?;
            if rest != "any" {
                return Ok((Target::Answer, rest));
            }
        }
        "put" => {
            open_put(alloc, fields)?;
            return Ok((Target::Answer, rest));
        }
        _ => return Err(Why::Bad("no such key")),
    }
    Ok((Target::None, ""))
}

/// Appends the part to the last text, if there is one.
fn push_last(parts: Option<&mut Vec<Part>>, part: Part) -> Result<(), Why> {
    match parts {
        Some(parts) => {
            parts.push(part)?;
            Ok(())
        }
        None => Err(NOWHERE),
    }
}

/// Appends the part to the text that is open.
pub fn push_part(fields: &mut Fields, target: Target, part: Part) -> Result<(), Why> {
    match target {
        Target::Word => match &mut fields.words {
            Some(words) => push_last(words.last_mut(), part),
            None => Err(NOWHERE),
        },
        Target::File => match fields.files.last_mut() {
            Some(file) => push_last(Some(&mut file.1), part),
            None => Err(NOWHERE),
        },
        Target::Answer => match &mut fields.answer {
            Some(Answer::Out(parts)) => push_last(Some(parts), part),
            Some(Answer::Puts(puts)) => push_last(puts.last_mut(), part),
            _ => Err(NOWHERE),
        },
        Target::None | Target::Text => Err(NOWHERE),
    }
}
