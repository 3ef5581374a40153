//! How a run ends.
ghost use Rattle.std.specs.Prelude.{◌≡◌};
ghost use Rattle.rig_play.specs.Status.{code_of};

/// How a run ended.
#[derive(Clone, Copy, Debug, PartialEq, Eq)]
pub enum Status {
    /// The input was read to its end, and all text was written.
    Ok,
    /// Memory was refused before the first byte was written.
    NoMemory,
    /// The words aren't a command line of the program. The usage line was written.
    Usage,
    /// A read failed. Nothing was written.
    ReadFault,
    /// A write failed. A prefix of the text was written.
    WriteFault,
    /// The input has more bytes than it may have. The fault line was written.
    TooLong,
    /// The input isn't JSON. The fault line was written.
    NotJson,
    /// The scene of the input has a fault. The line of its first fault was written.
    BadScene,
    /// The script of the input has a fault, and its scene has none. The line of its first fault was written.
    BadScript,
    /// The input has no fault, and isn't one that this program can play yet. The fault line was written.
    Unbuilt,
}

impl Status {
    /// The exit status of the process: 0 to 8 in the order of the variants, and 20 for [`Status::Unbuilt`].
    pub fn code(self) -> u8
        ensures { result ≡ code_of self }
    {
        match self {
            Status::Ok => 0,
            Status::NoMemory => 1,
            Status::Usage => 2,
            Status::ReadFault => 3,
            Status::WriteFault => 4,
            Status::TooLong => 5,
            Status::NotJson => 6,
            Status::BadScene => 7,
            Status::BadScript => 8,
            Status::Unbuilt => 20,
        }
    }
}
