ghost use Rattle.std.specs.Prelude.{◌≡◌};
ghost use Rattle.mp_run.specs.Runs.{number_of};

/// How a run ended.
#[derive(Clone, Copy, Debug, PartialEq, Eq)]
pub enum Status {
    /// Every goal's outcome is a tree without open leaves.
    AllClosed,
    /// Some goal's outcome is a failure or has an open leaf.
    NotAll,
    /// The words are no command.
    Usage,
    /// A file is over its limit, or is no text of its kind.
    Refused,
    /// A file couldn't be read. The shelf counted a fault.
    ReadFault,
    /// Something couldn't be written. The sink counted a fault.
    WriteFault,
    /// Want of memory.
    NoMemory,
    /// The tree that a file has for a goal isn't valid for it.
    BadTree,
}

impl Status {
    /// The exit status of the program, 0 to 7.
    pub fn number(self) -> u8
        ensures { result ≡ number_of self }
    {
        match self {
            Status::AllClosed => 0,
            Status::NotAll => 1,
            Status::Usage => 2,
            Status::Refused => 3,
            Status::ReadFault => 4,
            Status::WriteFault => 5,
            Status::NoMemory => 6,
            Status::BadTree => 7,
        }
    }
}
