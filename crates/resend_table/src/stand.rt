//! How a view stands.
ghost use Rattle.std.specs.Prelude.{◌≡◌, ◌<◌, ◌≤◌};
ghost use Rattle.tea_base.specs.Limits.{most_entries};
ghost use Rattle.resend_table.specs.Stands.{absent_stand, stand_after, with_presence, here_count_after, here_count_before};

/// What an entry records of its view.
#[derive(Clone, Copy, Debug, PartialEq, Eq)]
pub enum Kind {
    /// The view is here from now on, on a new connection.
    Join,
    /// The view is no longer here.
    Exit,
    /// The view sent an event.
    Event,
}

/// How a view stands.
#[derive(Clone, Copy, Debug)]
pub struct Stand {
    /// The seq of its last Join or Exit, 0 if there is none.
    pub current: u32,
    /// Whether that one is a Join.
    pub here: bool,
    /// How many Events it sent.
    pub last: u32,
}

impl Stand {
    /// That of a view which no entry names.
    pub fn absent() -> Stand
        ensures { result ≡ absent_stand }
    {
        Stand {
            current: 0,
            here: false,
            last: 0,
        }
    }

    /// That after one more entry of the view.
    pub fn after(self, seq: u32, kind: Kind) -> Stand
        ensures { self.last < most_entries → result ≡ stand_after self seq kind }
    {
        match kind {
            Kind::Join => self.with_presence(seq, true),
            Kind::Exit => self.with_presence(seq, false),
            Kind::Event => Stand {
                last: self.last.saturating_add(1),
                ..self
            },
        }
    }

    /// That after a Join, where `here` is true, or an Exit.
    fn with_presence(self, seq: u32, here: bool) -> Stand
        ensures { result ≡ with_presence self seq here }
    {
        Stand {
            current: seq,
            here,
            last: self.last,
        }
    }
}

/// How many views are here after one more entry of a view.
pub fn here_count_after(count: u32, here: bool, kind: Kind) -> u32
    ensures { count < most_entries → result ≡ here_count_after count here kind }
{
    match kind {
        Kind::Join if here => count,
        Kind::Join => count.saturating_add(1),
        Kind::Exit if here => count.saturating_sub(1),
        Kind::Exit | Kind::Event => count,
    }
}

/// How many views were here before an entry of a view, where `here` says whether it was here then.
pub fn here_count_before(count: u32, here: bool, kind: Kind) -> u32
    ensures { count ≤ most_entries → result ≡ here_count_before count here kind }
{
    match kind {
        Kind::Join if here => count,
        Kind::Join => count.saturating_sub(1),
        Kind::Exit if here => count.saturating_add(1),
        Kind::Exit | Kind::Event => count,
    }
}
