//! The exit status of the program.
ghost use Rattle.std.specs.Prelude.{◌≡◌};

/// The exit status of the program.
#[derive(Clone, Copy, Debug, PartialEq, Eq)]
pub enum Status {
    Ok,
    /// The words break their rules.
    Usage,
    /// The program is refused.
    Program,
    /// An input is not in its grammar or above its limit, the time of a replay is below that of its snapshot, the address is none,
    /// an inspection would keep too many worlds, or two sessions of a host have one id.
    Input,
    /// A file was not read.
    ReadFault,
    /// A file or the text was not written.
    WriteFault,
    /// The net failed.
    NetFault,
    /// The reflector refused.
    Refused,
    WantOfMemory,
    /// The reflector ended the connection.
    Ended,
    /// The reflector broke the rules.
    Peer,
}

impl Status {
    ghost use Rattle.croquet.specs.Status.{number_of};

    /// The number with which the process exits.
    pub fn number(self) -> u8
        ensures { result ≡ number_of self }
    {
        match self {
            Status::Ok => 0,
            Status::Usage => 1,
            Status::Program => 2,
            Status::Input => 3,
            Status::ReadFault => 4,
            Status::WriteFault => 5,
            Status::NetFault => 6,
            Status::Refused => 7,
            Status::WantOfMemory => 8,
            Status::Ended => 9,
            Status::Peer => 10,
        }
    }
}
