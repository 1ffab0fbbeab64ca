//! How a run ends.

ghost use Rattle.std.specs.Prelude.{◌≡◌};
ghost use Rattle.sre_commands.specs.Ending.{status_of};

/// How a run ends.
#[derive(Clone, Copy, Debug, PartialEq, Eq)]
pub enum Ending {
    /// The answer was written.
    Answered,
    /// The code words spell no tree, and the line that says so was written.
    InvalidCode,
    /// The words are no command.
    NoCommand,
    /// The bytes are no request.
    NoRequest,
    /// The source failed.
    SourceFailed,
    /// The sink failed.
    SinkFailed,
    /// Memory ran out.
    NoMemory,
    /// There are too many bytes.
    TooLong,
}

/// The status that the program ends with.
pub fn status_of(ending: Ending) -> u8
    ensures { result ≡ status_of ending }
{
    match ending {
        Ending::Answered => 0,
        Ending::InvalidCode => 1,
        Ending::NoCommand => 2,
        Ending::NoRequest => 3,
        Ending::SourceFailed => 4,
        Ending::SinkFailed => 5,
        Ending::NoMemory => 6,
        Ending::TooLong => 7,
    }
}
