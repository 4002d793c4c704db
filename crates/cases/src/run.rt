//! A case's run, and how it differs from what is due.

use crate::case::{Answer, Case, Fields, Suite};
use crate::difference::tell;
use crate::recorder::Recorder;
use crate::text::{Part, make, push_text};
use mp_logic::{List, Text};
use mp_ports::{MemShelf, MemSink};
use mp_run::run_here;
use std::alloc::{AllocError, Global};

/// How many bytes more than are due a run may write.
const SPARE: u64 = 65536;

/// What the case says, or else its base.
fn said<'a, T>(own: &'a Option<T>, base: &'a Option<T>) -> Option<&'a T> {
    match own {
        Some(value) => Some(value),
        None => base.as_ref(),
    }
}

/// The calls that the case lists, or else its base. None are listed where neither speaks of them.
fn listed<'a, T>(own: &'a Option<Vec<T>>, base: &'a Option<Vec<T>>) -> &'a [T] {
    match said(own, base) {
        Some(calls) => calls.as_slice(),
        None => &[],
    }
}

/// A text for each of the words.
fn make_words(alloc: Global, suite: &Suite, words: &[Vec<Part>]) -> Result<Vec<Text>, AllocError> {
    let mut made = Vec::new(alloc);
    for word in words {
        let text = make(alloc, suite.texts.as_slice(), word.as_slice())?;
        made.push(List::from_vec(text))?;
    }
    Ok(made)
}

/// Appends the files, each by its name.
fn push_files(
    made: &mut Vec<(Text, Text)>,
    alloc: Global,
    suite: &Suite,
    files: &[(String, Vec<Part>)],
) -> Result<(), AllocError> {
    for file in files {
        let name = file.0.as_bytes().to_vec(alloc)?;
        let text = make(alloc, suite.texts.as_slice(), file.1.as_slice())?;
        made.push((List::from_vec(name), List::from_vec(text)))?;
    }
    Ok(())
}

/// The shelf of the case's files, and after them those of its base. Of two of one name the first counts.
fn make_shelf(
    alloc: Global,
    suite: &Suite,
    own: &Fields,
    base: &Fields,
) -> Result<MemShelf, AllocError> {
    let mut files = Vec::new(alloc);
    push_files(&mut files, alloc, suite, own.files.as_slice())?;
    push_files(&mut files, alloc, suite, base.files.as_slice())?;
    let fails = listed(&own.reads, &base.reads).to_vec(alloc)?;
    Ok(MemShelf::new(List::from_vec(files), List::from_vec(fails)))
}

/// What is due of a run.
#[derive(Drop)]
struct Due {
    status: u8,
    /// Whether the bytes are told.
    told: bool,
    bytes: Vec<u8>,
    /// Whether it is told where each put ends.
    by_puts: bool,
    ends: Vec<usize>,
}

/// What the answer and the status say is due.
fn make_due(alloc: Global, suite: &Suite, answer: &Answer, status: u8) -> Result<Due, AllocError> {
    let mut due = Due {
        status,
        told: true,
        bytes: Vec::new(alloc),
        by_puts: false,
        ends: Vec::new(alloc),
    };
    match answer {
        Answer::Any => due.told = false,
        Answer::Out(parts) => push_text(
            &mut due.bytes,
            alloc,
            suite.texts.as_slice(),
            parts.as_slice(),
        )?,
        Answer::Puts(puts) => {
            due.by_puts = true;
            push_puts(&mut due, alloc, suite, puts.as_slice())?;
        }
    }
    Ok(due)
}

/// Appends the bytes of each put, and its end.
fn push_puts(
    due: &mut Due,
    alloc: Global,
    suite: &Suite,
    puts: &[Vec<Part>],
) -> Result<(), AllocError> {
    for parts in puts {
        push_text(
            &mut due.bytes,
            alloc,
            suite.texts.as_slice(),
            parts.as_slice(),
        )?;
        due.ends.push(due.bytes.len())?;
    }
    Ok(())
}

/// What a run gave.
#[derive(Drop)]
struct Ran {
    status: u8,
    sink: Recorder,
}

/// Runs the command over these files and into a sink with so much room, whose listed calls fail.
fn run_words(
    alloc: Global,
    words: &[Text],
    shelf: &mut MemShelf,
    room: u64,
    fails: &[(u64, u64)],
) -> Result<Ran, AllocError> {
    let fails = List::from_vec(fails.to_vec(alloc)?);
    let Ok(sink) = MemSink::new(alloc, room, fails) else {
        return Err(AllocError);
    };
    let mut sink = Recorder::new(sink, Vec::new(alloc));
    let status = run_here(alloc, words, shelf, &mut sink).number();
    Ok(Ran { status, sink })
}

/// Tells where the puts ended, and where they have to end.
fn told_ends(alloc: Global, due: &[usize], ends: &[usize]) -> Result<String, AllocError> {
    format!(in alloc; "  puts end at {ends:?} and not at {due:?}")
}

/// Tells with which status the run ended, and with which it has to end; then where the bytes differ, if they do.
fn told_status(alloc: Global, due: &Due, ran: &Ran) -> Result<String, AllocError> {
    let mut told = format!(in alloc; "  status {} and not {}", ran.status, due.status)?;
    let texts = tell(alloc, due.bytes.as_slice(), ran.sink.sink.taken())?;
    if !texts.is_empty() {
        told.push('\n')?;
        told.push_str(texts.as_str())?;
    }
    Ok(told)
}

/// How the run differs from what is due; None where it doesn't.
fn unlike(alloc: Global, due: &Due, ran: &Ran) -> Result<Option<String>, AllocError> {
    let taken = ran.sink.sink.taken();
    if ran.status != due.status {
        return Ok(Some(told_status(alloc, due, ran)?));
    }
    if due.told && due.bytes.as_slice() != taken {
        return Ok(Some(tell(alloc, due.bytes.as_slice(), taken)?));
    }
    if due.by_puts && due.ends.as_slice() != ran.sink.ends.as_slice() {
        return Ok(Some(told_ends(alloc, due.ends.as_slice(), ran.sink.ends.as_slice())?));
    }
    Ok(None)
}

/// Runs these words over the files of the case, and tells how the run differs from what is due.
fn try_words(
    alloc: Global,
    suite: &Suite,
    (own, base): (&Fields, &Fields),
    words: &[Vec<Part>],
    due: &Due,
) -> Result<Option<String>, AllocError> {
    let words = make_words(alloc, suite, words)?;
    let mut shelf = make_shelf(alloc, suite, own, base)?;
    let room = (due.bytes.len() as u64).saturating_add(SPARE);
    let fails = listed(&own.writes, &base.writes);
    let ran = run_words(alloc, words.as_slice(), &mut shelf, room, fails)?;
    unlike(alloc, due, &ran)
}

/// How the run of the case differs from what is due; None where it doesn't.
pub fn difference(alloc: Global, suite: &Suite, case: &Case) -> Result<Option<String>, AllocError> {
    let own = &case.fields;
    let Some(base) = suite.bases.get(case.base) else {
        return Ok(Some("  it has no base".to_string(alloc)?));
    };
    let Some(words) = said(&own.words, &base.words) else {
        return Ok(Some("  it has no words".to_string(alloc)?));
    };
    let (Some(answer), Some(status)) = (said(&own.answer, &base.answer), own.status.or(base.status))
    else {
        return Ok(Some("  it has no out, put or status".to_string(alloc)?));
    };
    let due = make_due(alloc, suite, answer, status)?;
    try_words(alloc, suite, (own, base), words.as_slice(), &due)
}
