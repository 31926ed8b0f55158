//! A hub.
ghost use Rattle.std.specs.Prelude.{◌≡◌, ◌≤◌, ℕ, option_map, length, map, position, IfOk, OnErr, Option, Some, None};
ghost use Rattle.std.specs.Borrow.{Bor};
ghost use Rattle.reflector_core.specs.SessionState.{SessionState};
ghost use Rattle.session_hub.specs.Held.{has_id};
ghost use Rattle.session_hub.specs.PlainHub.{HubMayWantMemory, hub_answer, session_in, with_hub_reply};

use crate::reply::HubReply;
use reflector_core::{Request, Session};
use std::alloc::Global;
use std::marker::Model;
use tea_base::{SessionId, WantOfMemory};

/// How many sessions a hub may have.
pub const MOST_SESSIONS: u32 = 256;

/// A session under its id.
#[derive(Drop)]
struct Held {
    id: SessionId,
    session: Session,
}

/// Many sessions, each under its id. A session is made by the first request to it. Contracts see them as a list in the order in which
/// they were made.
#[derive(Drop)]
pub struct Hub {
    alloc: Global,
    held: Vec<Held>,
}

impl Model for Hub {
    ghost use Rattle.std.specs.Prelude.{◌≤◌, length};
    ghost use Rattle.session_hub.specs.PlainHub.{PlainHub, most_sessions};
    ghost use Rattle.session_hub.specs.Held.{plain_hub};

    ghost Value = { PlainHub };

    ghost view = { λ hub. plain_hub hub.held.items };

    ghost invariant = { λ hub. length hub.held.items ≤ most_sessions };
}

/// Where the session of an id stands.
fn place_of(held: &[Held], id: &SessionId) -> Option<usize>
    ensures { result ≡ position (has_id id.now.0) held.now }
{
    held.iter().position(|held| held.id == *id)
}

impl Hub {
    ghost use Rattle.std.specs.Prelude.{[], slice_get};

    /// A hub without sessions. Takes no memory.
    pub fn new(alloc: Global) -> Hub
        ensures { result ≡ [] }
    {
        Hub {
            alloc,
            held: Vec::new(alloc),
        }
    }

    /// Asks the session of an id. Where none was made, the first session answers, and is made also where it refuses; but 256 are made
    /// at most. Room for one more is made before it is asked: `HubFull` and want of memory leave all sessions as they were.
    /// Want of memory comes where a session is to be made, and where the session that is asked may want it.
    pub fn call(&mut self, id: &SessionId, request: &Request) -> Result<HubReply, WantOfMemory>
        ensures ok { IfOk result (λ reply. with_hub_reply self.new reply ≡ hub_answer self.old id.now.0 request.now) }
        ensures err { OnErr result (self.new ≡ self.old) }
        ensures memory { OnErr result (HubMayWantMemory self.old id.now.0 request.now) }
    {
        match place_of(&self.held, id) {
            Some(place) => {
                let reply = self.held[place].session.call(request)?;
                Ok(HubReply::Reply(reply))
            }
            None => self.found(id, request),
        }
    }

    /// Makes the session of an id, by the first request to it.
    fn found(&mut self, id: &SessionId, request: &Request) -> Result<HubReply, WantOfMemory>
        requires { session_in self.old id.now.0 ≡ None }
        ensures ok { IfOk result (λ reply. with_hub_reply self.new reply ≡ hub_answer self.old id.now.0 request.now) }
        ensures err { OnErr result (self.new ≡ self.old) }
        ensures memory { OnErr result (HubMayWantMemory self.old id.now.0 request.now) }
    {
        if self.sessions() == MOST_SESSIONS {
            return Ok(HubReply::HubFull {
                sessions: MOST_SESSIONS,
            });
        }
        self.held.reserve(1)?;
        let mut session = Session::new(self.alloc);
        let reply = session.call(request)?;
        self.held.push_reserved(Held { id: *id, session });
        Ok(HubReply::Reply(reply))
    }

    /// How many sessions were made. Takes no memory.
    pub fn sessions(&self) -> u32
        ensures count { result ≡ length self.now }
        ensures few { result ≤ 256 }
    {
        self.held.len() as u32
    }

    /// The session of an id, if it was made. Takes no memory.
    pub fn session(&self, id: &SessionId) -> Option<&Session>
        ensures { option_map (λ (s : Bor SessionState). s.now.plain) result ≡ session_in self.now id.now.0 }
    {
        let place = place_of(&self.held, id)?;
        Some(&self.held[place].session)
    }

    /// The session before which so many were made, if it was made. Takes no memory.
    pub fn made(&self, place: u32) -> Option<&Session>
        ensures { option_map (λ (s : Bor SessionState). s.now.plain) result
            ≡ option_map (λ held. held.session) (slice_get self.now place) }
    {
        match self.held.get(place as usize) {
            Some(held) => Some(&held.session),
            None => None,
        }
    }
}
