use mp_logic::Text;
use mp_report::FileKind;

/// What ends a run before its goals.
#[derive(Drop)]
pub enum Stop {
    /// A file was refused, and this is the line that tells it.
    Refused(Text),
    /// This file couldn't be read.
    Fault(FileKind),
    NoMemory,
}
