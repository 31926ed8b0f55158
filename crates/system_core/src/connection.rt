//! Connections of a system.
ghost use Rattle.std.specs.Prelude.{◌≡◌, take, None, Some, OnOk, IfOk};
ghost use Rattle.std.specs.List.{AllByRecursion};
ghost use Rattle.replica_plain.specs.Taking.{IsTimely};
ghost use Rattle.reflector_core.specs.PlainSession.{IsSoundSession};
ghost use Rattle.join_sync.specs.declared.act.Act.TheVariants.{Call};
ghost use Rattle.join_sync.specs.Requests.{IsJoin, IsOfFrame, act_on};
ghost use Rattle.system_plain.specs.System.{close, closing, connecting, is_open, over_if, put_down, put_up, with_down, with_up};
ghost use Rattle.system_plain.specs.Turn.{act_turn, answer_frames, ends_connection, hear_turn, joined_view, pull_turn};
ghost use Rattle.system_plain.specs.Steps.{after_leave, after_pull, after_take, behind_turn, both};
ghost use Rattle.system_core.specs.InFlight.{IsNextDown, IsNextUp};

use join_sync::{Act, Cursor, MOST_PULLED, open, replies_fit};
use reflector_core::{Refusal, Reply, Request, Session};
use std::alloc::Global;
use std::marker::Model;
use tea_base::{SessionId, WantOfMemory, push};
use wire_frames::{ClientFrame, ServerFrame};

/// A connection, with the frames in flight on it, the next one first. A closed one lets no further frame into flight. One that
/// is over acts on nothing any more.
#[derive(Drop)]
pub(crate) struct Connection {
    view: u32,
    up: Vec<ClientFrame>,
    down: Vec<ServerFrame>,
    cursor: Option<Cursor>,
    closed: bool,
    over: bool,
}

impl Model for Connection {
    ghost use Rattle.std.specs.List.{AllByRecursion};
    ghost use Rattle.replica_plain.specs.Taking.{IsTimely};
    ghost use Rattle.system_plain.specs.System.{Connection as PlainConnection};

    ghost Value = { PlainConnection };

    ghost view = { λ c. record {
      view = c.view;
      up = c.up.items;
      down = c.down.items;
      cursor = c.cursor;
      closed = c.closed;
      over = c.over;
    } };

    ghost invariant = { λ c. AllByRecursion IsTimely c.down.items };
}

/// The view that a Join names.
fn joined_view(request: &Request) -> u32
    ensures { result ≡ joined_view request.now }
{
    match request {
        Request::Join { view, .. } => *view,
        Request::Send { .. }
        | Request::Tick { .. }
        | Request::Leave { .. }
        | Request::Offer { .. }
        | Request::Pull { .. } => 0,
    }
}

/// Whether a connection is not heard any more once it got this reply.
fn ends_connection(reply: &Reply) -> bool
    ensures { result ≡ ends_connection reply.now }
{
    match reply {
        Reply::Left { .. } | Reply::Refused(Refusal::Stale { .. }) => true,
        _ => false,
    }
}

/// The connection of a number, if there is one, is closed.
pub(crate) fn close(connections: &mut Vec<Connection>, number: usize)
    ensures { connections.new.items ≡ close connections.old.items number }
{
    if number >= connections.len() {
        return;
    }
    connections[number].close();
}

impl Connection {
    /// A connection that was just made, with this frame in flight.
    pub(crate) fn connecting(
        alloc: Global,
        view: u32,
        frame: ClientFrame,
    ) -> Result<Connection, WantOfMemory>
        ensures { IfOk result (λ c. c ≡ connecting view frame) }
    {
        let mut up = Vec::new(alloc);
        push(&mut up, frame)?;
        Ok(Connection {
            view,
            up,
            down: Vec::new(alloc),
            cursor: None,
            closed: false,
            over: false,
        })
    }

    /// Whether frames of its view still come into flight.
    pub(crate) fn is_open(&self) -> bool
        ensures { result ≡ is_open self.now }
    {
        !self.closed && !self.over
    }

    /// Lets frames of its view into flight.
    pub(crate) fn put_up(&mut self, frames: Vec<ClientFrame>) -> Result<(), WantOfMemory>
        ensures { OnOk result (self.new ≡ put_up self.old frames.items) }
    {
        if self.closed {
            return Ok(());
        }
        let mut frames = frames;
        self.up.append(&mut frames)?;
        Ok(())
    }

    /// Lets frames to its view into flight.
    fn put_down(&mut self, frames: Vec<ServerFrame>) -> Result<(), WantOfMemory>
        requires { AllByRecursion IsTimely frames.items }
        ensures { OnOk result (self.new ≡ put_down self.old frames.items) }
    {
        if self.closed {
            return Ok(());
        }
        let mut frames = frames;
        self.down.append(&mut frames)?;
        Ok(())
    }

    /// Lets an answer, if there is one, into flight.
    fn answer(&mut self, answer: Option<ServerFrame>) -> Result<(), WantOfMemory>
        requires { AllByRecursion IsTimely (answer_frames answer) }
        ensures { OnOk result (self.new ≡ put_down self.old (answer_frames answer)) }
    {
        let Some(frame) = answer else {
            return Ok(());
        };
        if self.closed {
            return Ok(());
        }
        push(&mut self.down, frame)
    }

    /// It is over from now on, if it is to be.
    fn over_if(&mut self, over: bool)
        ensures { self.new ≡ over_if over self.old }
    {
        self.over = self.over || over;
    }

    /// No further frame comes into flight.
    pub(crate) fn close(&mut self)
        ensures { self.new ≡ closing self.old }
    {
        self.closed = true;
    }

    /// It is closed, and of the frames in flight the first so many are left.
    pub(crate) fn cut(&mut self, up: u32, down: u32)
        ensures { self.new ≡ closing (with_down (with_up self.old (take up self.old.up)) (take down self.old.down)) }
    {
        self.up.truncate(up as usize);
        self.down.truncate(down as usize);
        self.close();
    }

    /// The next frame of its view, which is in flight no more.
    fn next_up(&mut self) -> Option<ClientFrame>
        ensures { IsNextUp result self.old self.new }
    {
        if self.up.is_empty() {
            return None;
        }
        Some(self.up.remove(0))
    }

    /// The next frame to its view, which is in flight no more.
    pub(crate) fn next_down(&mut self) -> Option<ServerFrame>
        ensures { IsNextDown result self.old self.new }
    {
        if self.down.is_empty() {
            return None;
        }
        Some(self.down.remove(0))
    }

    // ---- the reflector's turns

    /// The reflector acts on the next frame.
    pub(crate) fn take(
        &mut self,
        session: &mut Session,
        id: &SessionId,
        now: u64,
    ) -> Result<(), WantOfMemory>
        ensures { OnOk result (both session.new.plain self.new ≡ after_take id.now session.old.plain self.old now) }
    {
        if self.over {
            return Ok(());
        }
        let Some(frame) = self.next_up() else {
            return self.leave(session, now);
        };
        match self.cursor {
            None => self.open(session, id, frame, now),
            Some(cursor) => self.act(session, &cursor, frame, now),
        }
    }

    /// The first frame joins, or is refused.
    fn open(
        &mut self,
        session: &mut Session,
        id: &SessionId,
        frame: ClientFrame,
        now: u64,
    ) -> Result<(), WantOfMemory>
        requires { self.old.cursor ≡ None }
        ensures { OnOk result (both session.new.plain self.new
            ≡ behind_turn self.old (hear_turn id.now session.old.plain None (Some frame) now)) }
    {
        match open(&frame, id, now) {
            Ok(request) => self.join(session, &request),
            Err(early) => {
                self.answer(Some(early.frame(&frame)))?;
                self.over_if(true);
                Ok(())
            }
        }
    }

    /// It asks for its first request.
    fn join(&mut self, session: &mut Session, request: &Request) -> Result<(), WantOfMemory>
        requires { IsJoin request.now }
        ensures { OnOk result (both session.new.plain self.new
            ≡ behind_turn self.old (act_turn session.old.plain None (Call request.now))) }
    {
        replies_fit(); // for the prover
        let reply = session.call(request)?;
        let (cursor, frame) = Cursor::opened(joined_view(request), reply);
        self.cursor = cursor;
        self.answer(Some(frame))?;
        self.over_if(cursor.is_none());
        Ok(())
    }

    /// A later frame asks for a request, or is answered without one.
    fn act(
        &mut self,
        session: &mut Session,
        cursor: &Cursor,
        frame: ClientFrame,
        now: u64,
    ) -> Result<(), WantOfMemory>
        requires { self.old.cursor ≡ Some cursor.now }
        ensures { OnOk result (both session.new.plain self.new
            ≡ behind_turn self.old (act_turn session.old.plain (Some cursor.now) (act_on cursor.now frame now))) }
    {
        replies_fit(); // for the prover
        match cursor.act(frame, now) {
            Act::Call(request) => self.ask(session, cursor, &request),
            Act::Answer(frame) => self.answer(Some(frame)),
        }
    }

    /// It asks for a request.
    fn ask(
        &mut self,
        session: &mut Session,
        cursor: &Cursor,
        request: &Request,
    ) -> Result<(), WantOfMemory>
        requires frame { IsOfFrame request.now }
        requires cursor { self.old.cursor ≡ Some cursor.now }
        ensures { OnOk result (both session.new.plain self.new
            ≡ behind_turn self.old (act_turn session.old.plain (Some cursor.now) (Call request.now))) }
    {
        replies_fit(); // for the prover
        let reply = session.call(request)?;
        self.answer(cursor.answer(request, &reply))?;
        self.over_if(ends_connection(&reply));
        Ok(())
    }

    /// No frame will come any more on a closed connection: its view leaves.
    fn leave(&mut self, session: &mut Session, now: u64) -> Result<(), WantOfMemory>
        ensures { OnOk result (both session.new.plain self.new
            ≡ after_leave session.old.plain self.old self.old.cursor now) }
    {
        let Some(cursor) = self.cursor else {
            return Ok(());
        };
        if !self.closed {
            return Ok(());
        }
        let _reply = session.call(&Request::Leave {
            view: cursor.view,
            joined: cursor.joined,
            now,
        })?;
        self.over_if(true);
        Ok(())
    }

    /// The reflector sends what is new.
    pub(crate) fn pull(&mut self, alloc: Global, session: &mut Session) -> Result<(), WantOfMemory>
        ensures { OnOk result (both session.new.plain self.new ≡ after_pull session.old.plain self.old) }
    {
        if self.over {
            return Ok(());
        }
        let Some(cursor) = self.cursor else {
            return Ok(());
        };
        // What is so of every session is told by this call.
        let _horizon = session.horizon(); // for the prover
        self.send(alloc, session, cursor)
    }

    /// It is sent what is new.
    fn send(
        &mut self,
        alloc: Global,
        session: &mut Session,
        cursor: Cursor,
    ) -> Result<(), WantOfMemory>
        requires sound { IsSoundSession session.old.plain }
        requires cursor { self.old.cursor ≡ Some cursor }
        ensures { OnOk result (both session.new.plain self.new
            ≡ behind_turn self.old (pull_turn session.old.plain cursor)) }
    {
        replies_fit(); // for the prover
        let reply = session.call(&Request::Pull {
            after: cursor.after(),
            limit: MOST_PULLED,
        })?;
        if let Reply::Refused(_) = reply {
            return Ok(());
        }
        let mut cursor = cursor;
        let frames = cursor.next(alloc, reply)?;
        self.cursor = Some(cursor);
        self.put_down(frames.into_vec())
    }
}
