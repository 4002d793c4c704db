ghost use Rattle.std.specs.Prelude.{◌≡◌, ◌++◌, OnOk, IfOk};
ghost use Rattle.mp_report.specs.Refusals.{file_text, why_text};
ghost use Rattle.mp_report.specs.Refusals.{refusal_text as refusal_text_of};

use mp_logic::{List, NoMemory, Text};
use mp_termtext::{push_bytes, push_decimal};
use mp_words::{TextErr, TextWhy};
use std::alloc::Global;

/// What a file is read as.
#[derive(Clone, Copy, Debug, PartialEq, Eq)]
pub enum FileKind {
    Theory,
    Script,
    Schedule,
    Trees,
    Jobs,
    Checkpoint,
}

/// The line of a file that is refused: what it is read as, and the byte and the name of its fault.
pub fn refusal_text(alloc: Global, file: FileKind, error: &TextErr) -> Result<Text, NoMemory>
    ensures { IfOk result (λ text. text ≡ refusal_text_of file error.now) }
{
    let mut out = Vec::new(alloc);
    push_refusal(&mut out, file, error)?;
    Ok(List::from_vec(out))
}

/// Appends the line of a file that is refused. Where there is no memory, some of it may have been
/// appended.
pub fn push_refusal(out: &mut Vec<u8>, file: FileKind, error: &TextErr) -> Result<(), NoMemory>
    ensures { OnOk result (out.new.items ≡ out.old.items ++ refusal_text_of file error.now) }
{
    push_bytes(out, b"refused: ")?;
    push_file(out, file)?;
    push_bytes(out, b" byte ")?;
    push_decimal(out, error.at)?;
    push_bytes(out, b": ")?;
    push_why(out, error.why)?;
    push_bytes(out, b"\n")
}

/// Appends the word for what a file is read as. Where there is no memory, some of it may have been
/// appended.
pub fn push_file(out: &mut Vec<u8>, file: FileKind) -> Result<(), NoMemory>
    ensures { OnOk result (out.new.items ≡ out.old.items ++ file_text file) }
{
    match file {
        FileKind::Theory => push_bytes(out, b"theory"),
        FileKind::Script => push_bytes(out, b"script"),
        FileKind::Schedule => push_bytes(out, b"schedule"),
        FileKind::Trees => push_bytes(out, b"trees"),
        FileKind::Jobs => push_bytes(out, b"jobs"),
        FileKind::Checkpoint => push_bytes(out, b"checkpoint"),
    }
}

/// Appends the name of the fault.
fn push_why(out: &mut Vec<u8>, why: TextWhy) -> Result<(), NoMemory>
    ensures { OnOk result (out.new.items ≡ out.old.items ++ why_text why) }
{
    match why {
        TextWhy::BadByte => push_bytes(out, b"BadByte"),
        TextWhy::LongName => push_bytes(out, b"LongName"),
        TextWhy::BadNumber => push_bytes(out, b"BadNumber"),
        TextWhy::BadString => push_bytes(out, b"BadString"),
        TextWhy::TooNested => push_bytes(out, b"TooNested"),
        TextWhy::Syntax => push_bytes(out, b"Syntax"),
        TextWhy::Taken => push_bytes(out, b"Taken"),
        TextWhy::UnknownName => push_bytes(out, b"UnknownName"),
        TextWhy::TooMany => push_bytes(out, b"TooMany"),
        TextWhy::TooDeep => push_bytes(out, b"TooDeep"),
        TextWhy::TooBig => push_bytes(out, b"TooBig"),
        TextWhy::UnboundVar => push_bytes(out, b"UnboundVar"),
        TextWhy::DanglingContext => push_bytes(out, b"DanglingContext"),
        TextWhy::TwiceContext => push_bytes(out, b"TwiceContext"),
        TextWhy::TooManyContexts => push_bytes(out, b"TooManyContexts"),
        TextWhy::MisplacedHyp => push_bytes(out, b"MisplacedHyp"),
        TextWhy::NotAPattern => push_bytes(out, b"NotAPattern"),
        TextWhy::BadUse => push_bytes(out, b"BadUse"),
        TextWhy::UnboundParam => push_bytes(out, b"UnboundParam"),
        TextWhy::UnboundMeta => push_bytes(out, b"UnboundMeta"),
        TextWhy::AtNeeded => push_bytes(out, b"AtNeeded"),
        TextWhy::AtRefused => push_bytes(out, b"AtRefused"),
        TextWhy::MissingWith => push_bytes(out, b"MissingWith"),
        TextWhy::ExtraWith => push_bytes(out, b"ExtraWith"),
        TextWhy::TwiceWith => push_bytes(out, b"TwiceWith"),
        TextWhy::BadArity => push_bytes(out, b"BadArity"),
        TextWhy::WrongGoal => push_bytes(out, b"WrongGoal"),
        TextWhy::BadIndent => push_bytes(out, b"BadIndent"),
        TextWhy::CountDiffers => push_bytes(out, b"CountDiffers"),
        TextWhy::WrongLabel => push_bytes(out, b"WrongLabel"),
        TextWhy::NotCanonical => push_bytes(out, b"NotCanonical"),
        TextWhy::Cycle => push_bytes(out, b"Cycle"),
        TextWhy::Conditional => push_bytes(out, b"Conditional"),
        TextWhy::NestedSweep => push_bytes(out, b"NestedSweep"),
        TextWhy::BadDerivation => push_bytes(out, b"BadDerivation"),
        TextWhy::BadCheckpoint => push_bytes(out, b"BadCheckpoint"),
    }
}
