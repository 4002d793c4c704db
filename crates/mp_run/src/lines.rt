ghost use Rattle.std.specs.Prelude.{◌≡◌, ◌++◌, [], OnOk, IfOk};
ghost use Rattle.mp_report.specs.Refusals.{file_text, refusal_text as refusal_text_of};
ghost use Rattle.mp_run.specs.Lines.{long_line as long_line_of, fault_line as fault_line_of};
ghost use Rattle.mp_run.specs.Lines.{limit_of as limit_of_kind};
ghost use Rattle.mp_run.specs.Loaded.{RefusesBy};

use crate::limits::{LONGEST_FILE, LONGEST_TREES};
use crate::stop::Stop;
use mp_logic::{List, NoMemory, Text};
use mp_report::{FileKind, push_file, refusal_text};
use mp_termtext::{push_bytes, push_decimal};
use mp_words::TextErr;
use std::alloc::Global;

/// The limit on the length of a file, in bytes, by what it is read as.
pub fn limit_of(kind: FileKind) -> u64
    ensures { result ≡ limit_of_kind kind }
{
    match kind {
        FileKind::Theory | FileKind::Script | FileKind::Schedule => LONGEST_FILE,
        FileKind::Trees | FileKind::Jobs | FileKind::Checkpoint => LONGEST_TREES,
    }
}

/// The line that tells that a file is over the limit.
fn long_line(alloc: Global, file: FileKind) -> Result<Text, NoMemory>
    ensures { IfOk result (λ t. t ≡ long_line_of file) }
{
    let mut line = Vec::new(alloc);
    push_bytes(&mut line, b"refused: ")?;
    push_file(&mut line, file)?;
    push_bytes(&mut line, b" is longer than ")?;
    push_decimal(&mut line, limit_of(file))?;
    push_bytes(&mut line, b" bytes\n")?;
    Ok(List::from_vec(line))
}

/// The line that tells that a file couldn't be read.
pub fn fault_line(alloc: Global, file: FileKind) -> Result<Text, NoMemory>
    ensures { IfOk result (λ t. t ≡ fault_line_of file) }
{
    let mut line = Vec::new(alloc);
    push_bytes(&mut line, b"fault: reading ")?;
    push_file(&mut line, file)?;
    push_bytes(&mut line, b"\n")?;
    Ok(List::from_vec(line))
}

/// The stop of a file that is over the limit.
pub fn too_long(alloc: Global, file: FileKind) -> Stop
    ensures { RefusesBy result (long_line_of file) }
{
    match long_line(alloc, file) {
        Ok(line) => Stop::Refused(line),
        Err(_) => Stop::NoMemory,
    }
}

/// The stop of a file whose text has this fault.
pub fn refused(alloc: Global, file: FileKind, error: &TextErr) -> Stop
    ensures { RefusesBy result (refusal_text_of file error.now) }
{
    match refusal_text(alloc, file, error) {
        Ok(line) => Stop::Refused(line),
        Err(_) => Stop::NoMemory,
    }
}
