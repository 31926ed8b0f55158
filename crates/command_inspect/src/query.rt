//! Queries.
ghost use Rattle.std.specs.Prelude.{◌≡◌};
ghost use Rattle.command_inspect.specs.Queries.{time_of};

/// What is asked about a recorded session. Times are in microseconds of TeaTime.
#[derive(Clone, Copy, Debug, PartialEq, Eq)]
pub enum Query {
    /// `at TIME`: the line of the world of a time.
    At { time: u64 },
    /// `full TIME`: that line, and the lines of what is in the world.
    Full { time: u64 },
}

impl Query {
    /// The time that is asked about.
    pub fn time(self) -> u64
        ensures { result ≡ time_of self }
    {
        match self {
            Query::At { time } => time,
            Query::Full { time } => time,
        }
    }
}
