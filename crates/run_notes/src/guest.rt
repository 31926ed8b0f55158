//! What a reflector tells of the client of a link.
use std::alloc::Global;
use tea_base::WantOfMemory;
use tea_io::{Heard, LinkFault, MOST_QUIETS};
use wire_frames::{
    ClientFrame, JOIN_TAG, LEAVE_TAG, REFUSED_TAG, RefusalCode, SYNC_TAG, ServerFrame, read_client,
    read_server,
};

/// How far a client is.
#[derive(Clone, Copy, Debug, PartialEq, Eq)]
enum Stage {
    /// It has not joined.
    Comes,
    /// Its view has joined.
    Joined,
    /// Its view has left.
    Left,
    /// Nothing more is told of it.
    Over,
}

/// What is told of a client.
#[derive(Clone, Copy, Debug, PartialEq, Eq)]
enum Note {
    Joined,
    Left,
    /// Its link is over, in one of these ways.
    Over(Way),
    /// Its first frame is refused, with this code.
    Refused(u8),
}

/// How a link is over.
#[derive(Clone, Copy, Debug, PartialEq, Eq)]
enum Way {
    End,
    Fault,
    Idle,
    Stale,
    Memory,
}

/// The client of a link of a reflector, as far as the frames of its link tell of it.
#[derive(Drop)]
pub struct Guest {
    alloc: Global,
    /// The number of its link, from 0, in the order in which they were accepted.
    link: u32,
    /// The view as which it has asked to join, 0 before that.
    view: u32,
    stage: Stage,
    /// How many receives in a row brought no frame.
    quiets: u32,
}

impl Guest {
    /// The client of the link of this number, of which nothing is known.
    pub fn new(alloc: Global, link: u32) -> Guest {
        Guest {
            alloc,
            link,
            view: 0,
            stage: Stage::Comes,
            quiets: 0,
        }
    }

    /// The line that is to be told once a receive has told this, with its line end; nothing where nothing is to be told.
    pub fn hear(&mut self, heard: &Heard) -> Result<String, WantOfMemory> {
        let note = match heard {
            Heard::Frame(bytes) => self.hear_frame(bytes.bytes()),
            Heard::Quiet => self.hear_nothing(),
            Heard::End => self.end(Way::End),
            Heard::Failed => self.end(Way::Fault),
            Heard::WantOfMemory => self.end(Way::Memory),
        };
        self.line(note)
    }

    /// The line that is to be told once this frame was sent, or was not.
    pub fn send(
        &mut self,
        frame: &[u8],
        sent: Result<(), LinkFault>,
    ) -> Result<String, WantOfMemory> {
        let note = match sent {
            Ok(()) => self.send_frame(frame),
            Err(LinkFault::Failed) => self.end(Way::Fault),
            Err(LinkFault::WantOfMemory) => self.end(Way::Memory),
        };
        self.line(note)
    }

    fn hear_frame(&mut self, frame: &[u8]) -> Option<Note> {
        self.quiets = 0;
        let tag = frame.first().copied().unwrap_or_default();
        if tag == JOIN_TAG && self.stage == Stage::Comes {
            self.note_view(frame);
        }
        if tag == LEAVE_TAG && frame.len() == 1 && self.stage == Stage::Joined {
            self.stage = Stage::Left;
            return Some(Note::Left);
        }
        None
    }

    /// Notes the view that asks to join.
    fn note_view(&mut self, frame: &[u8]) {
        if let Ok(ClientFrame::Join { view, .. }) = read_client(self.alloc, frame) {
            self.view = view;
        }
    }

    fn hear_nothing(&mut self) -> Option<Note> {
        self.quiets = self.quiets.saturating_add(1);
        if self.quiets < MOST_QUIETS {
            return None;
        }
        self.end(Way::Idle)
    }

    fn send_frame(&mut self, frame: &[u8]) -> Option<Note> {
        match frame.first().copied().unwrap_or_default() {
            SYNC_TAG if self.stage == Stage::Comes => {
                self.stage = Stage::Joined;
                Some(Note::Joined)
            }
            REFUSED_TAG => self.refuse(code_of(self.alloc, frame)),
            _ => None,
        }
    }

    /// A frame of the client is refused. That ends the link of one that has not joined, and of one whose view has joined by another link.
    fn refuse(&mut self, code: u8) -> Option<Note> {
        match self.stage {
            Stage::Comes => {
                self.stage = Stage::Over;
                Some(Note::Refused(code))
            }
            Stage::Joined | Stage::Left if code == RefusalCode::Stale.number() => {
                self.stage = Stage::Over;
                Some(Note::Over(Way::Stale))
            }
            _ => None,
        }
    }

    /// The link is over, unless it was so already.
    fn end(&mut self, way: Way) -> Option<Note> {
        if self.stage == Stage::Left || self.stage == Stage::Over {
            return None;
        }
        self.stage = Stage::Over;
        Some(Note::Over(way))
    }

    fn line(&self, note: Option<Note>) -> Result<String, WantOfMemory> {
        let Some(note) = note else {
            return Ok(String::new(self.alloc));
        };
        let mut line = String::from_str(self.alloc, "link ")?;
        write!(line, "{}", self.link)?;
        if self.view == 0 {
            line.push_str(": ")?;
        } else {
            write!(line, ": view {} ", self.view)?;
        }
        self.push_note(&mut line, note)?;
        line.push_str("\n")?;
        Ok(line)
    }

    fn push_note(&self, line: &mut String, note: Note) -> Result<(), WantOfMemory> {
        match note {
            Note::Joined => line.push_str("joined")?,
            Note::Left => line.push_str("left")?,
            Note::Over(way) => line.push_str(way_text(way, self.view == 0))?,
            Note::Refused(code) => {
                let meaning = code_text(code);
                write!(line, "refused {code}: {meaning}")?;
            }
        }
        Ok(())
    }
}

/// The code of a frame that refuses one, 0 of another frame.
fn code_of(alloc: Global, frame: &[u8]) -> u8 {
    match read_server(alloc, frame) {
        Ok(ServerFrame::Refused { code, .. }) => code,
        _ => 0,
    }
}

/// How a link is over, by the word that the reflector prints of it at its end.
fn way_text(way: Way, is_unknown: bool) -> &'static str {
    match way {
        Way::End if is_unknown => "link-end before a JOIN: it counts as one of the N links",
        Way::End => "link-end: the client closed its link without a LEAVE",
        Way::Fault if is_unknown => "link-fault before a JOIN: it counts as one of the N links",
        Way::Fault =>
            "link-fault: the link was reset or broke the rules of WebSockets, or its client took not a byte for 5 seconds",
        Way::Idle => "idle: no frame of the client came for too long",
        Way::Stale => "stale: the view has joined by another link since",
        Way::Memory => "memory: the reflector is out of memory for this link",
    }
}

/// Why a first frame is refused.
fn code_text(code: u8) -> &'static str {
    match RefusalCode::of(code) {
        Some(RefusalCode::LogFull) => "the log has no room left",
        Some(RefusalCode::TimeEnd) => "the time of the session has ended",
        Some(RefusalCode::ViewsFull) => "1,024 views are here",
        Some(RefusalCode::BadView) => "the number of a view is from 1 on",
        Some(RefusalCode::Ahead) =>
            "the view comes from another session, or from a run whose reflector was killed",
        Some(RefusalCode::OtherSession) =>
            "another session: its PROGRAM, its NAME or its persisted value is another one",
        Some(RefusalCode::BadFrame) => "its first frame is none",
        Some(RefusalCode::NotJoined) => "its first frame is no JOIN",
        _ => "its JOIN may not come now",
    }
}
