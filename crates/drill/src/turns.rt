//! The turns of a worker.
ghost use Rattle.std.specs.Prelude.{◌≡◌, ◌-◌, ◌%◌, ◌≤◌, ℕ, List, IfOk, OnOk};
ghost use Rattle.wire_frames.specs.declared.frame.ServerFrame.TheVariants.{Done};
ghost use Rattle.reflector_core.specs.declared.request.Reply.{Reply};
ghost use Rattle.reflector_core.specs.declared.request.Request.TheVariants.{Leave};
ghost use Rattle.drill.specs.Drilled.{drop_interval};
ghost use Rattle.drill.specs.Sizes.{IsOfSize};
ghost use Rattle.drill.specs.Turns.{HasEnded, HasMade, HasResent, IsLost, IsOwed, IsWorkerReady};
ghost use Rattle.drill.specs.Workers.{ChangesPass, HasAsked, IsFirst, IsWorker};

use crate::finished::{Course, Finished};
use crate::taking::take_fine;
use crate::worker::{Service, Worker};
use join_sync::Cursor;
use reflector_core::Request;
use replica_plain::How;
use std::sync::Wait;
use tea_base::WantOfMemory;
use tea_io::{Clock, Gate};
use wire_frames::ServerFrame;

/// A worker drops its connection, joins and sends again at each event whose number is a multiple of this.
const DROP_INTERVAL: u32 = 64;

/// A worker offers a snapshot and loses its world at each event whose number is a multiple of this.
const LOSS_INTERVAL: u32 = 256;

impl Worker {
    /// Joins, makes all its turns, and leaves.
    pub fn work<C: Clock, G: Gate, R: Wait>(
        mut self,
        service: &Service<'_, C, G, R>,
    ) -> Result<Finished, WantOfMemory>
        requires size { IsOfSize service.now.size }
        requires first { IsFirst (C.gives service.now.clock.now) service.now.size service.now.shared.now self }
        ensures ended { IfOk result (λ one.
            HasEnded (C.gives service.now.clock.now) service.now.size service.now.shared.now one) }
        ensures view { IfOk result (λ one. one.worker.view ≡ self.view) }
    {
        let Some(mut cursor) = self.join(service, How::Fresh)? else {
            return Ok(Finished {
                worker: self,
                is_synced: false,
            });
        };
        let course = self.make_turns(service, &mut cursor)?;
        self.leave(service, &cursor)?;
        Ok(Finished {
            worker: self,
            is_synced: course != Course::JoinRefused,
        })
    }

    /// Makes all turns, up to one in which it is refused.
    fn make_turns<C: Clock, G: Gate, R: Wait>(
        &mut self,
        service: &Service<'_, C, G, R>,
        cursor: &mut Cursor,
    ) -> Result<Course, WantOfMemory>
        requires size { IsOfSize service.now.size }
        requires ready { IsWorkerReady (C.gives service.now.clock.now) service.now.size service.now.shared.now self.old
            cursor.old 0 }
        ensures view { self.new.view ≡ self.old.view }
        ensures made { IfOk result (λ course.
            HasMade (C.gives service.now.clock.now) service.now.size service.now.shared.now self.new cursor.new
            service.now.size.events course) }
    {
        for turn in 1..=service.size.events {
            service.gate.pass(self.view - 1, turn);
            match self.make_turn(service, cursor, turn)? {
                Course::Whole => {}
                refused => return Ok(refused),
            }
        }
        Ok(Course::Whole)
    }

    /// Publishes and sends one event, and comes to the end of the log.
    fn make_turn<C: Clock, G, R: Wait>(
        &mut self,
        service: &Service<'_, C, G, R>,
        cursor: &mut Cursor,
        turn: u32,
    ) -> Result<Course, WantOfMemory>
        requires size { IsOfSize service.now.size }
        requires turn { (1 ≤ turn) × (turn ≤ service.now.size.events) }
        requires ready { IsWorkerReady (C.gives service.now.clock.now) service.now.size service.now.shared.now self.old
            cursor.old (turn - 1) }
        ensures view { self.new.view ≡ self.old.view }
        ensures made { IfOk result (λ course.
            HasMade (C.gives service.now.clock.now) service.now.size service.now.shared.now self.new cursor.new turn
            course) }
    {
        self.publish(service)?;
        let Some(done) = self.send(service, cursor)? else {
            return Ok(Course::SendRefused);
        };
        match self.settle(service, cursor, turn, &done)? {
            Course::Whole => {}
            refused => return Ok(refused),
        }
        self.catch_up(service, cursor)?;
        Ok(Course::Whole)
    }

    /// Takes the Done of its event. At a multiple of `DROP_INTERVAL` it drops its connection instead.
    fn settle<C: Clock, G, R: Wait>(
        &mut self,
        service: &Service<'_, C, G, R>,
        cursor: &mut Cursor,
        turn: u32,
        done: &ServerFrame,
    ) -> Result<Course, WantOfMemory>
        requires size { IsOfSize service.now.size }
        requires owed { (payload : List ℕ)
            × IsOwed (C.gives service.now.clock.now) service.now.size service.now.shared.now self.old cursor.old turn
            payload }
        requires done { (seq : ℕ) × (time : ℕ) × (done.now ≡ Done turn seq time) }
        ensures view { self.new.view ≡ self.old.view }
        ensures settled { IfOk result (λ course.
            HasResent (C.gives service.now.clock.now) service.now.size service.now.shared.now self.new cursor.new turn
            course) }
    {
        if turn % DROP_INTERVAL == 0 {
            return self.drop_connection(service, cursor, turn);
        }
        take_fine(&mut self.replica, done)?;
        Ok(Course::Whole)
    }

    /// Loses its connection without the Done, and joins and sends again.
    fn drop_connection<C: Clock, G, R: Wait>(
        &mut self,
        service: &Service<'_, C, G, R>,
        cursor: &mut Cursor,
        turn: u32,
    ) -> Result<Course, WantOfMemory>
        requires size { IsOfSize service.now.size }
        requires owed { (payload : List ℕ)
            × IsOwed (C.gives service.now.clock.now) service.now.size service.now.shared.now self.old cursor.old turn
            payload }
        requires multiple { turn % drop_interval ≡ 0 }
        ensures view { self.new.view ≡ self.old.view }
        ensures resent { IfOk result (λ course.
            HasResent (C.gives service.now.clock.now) service.now.size service.now.shared.now self.new cursor.new turn
            course) }
    {
        let how = self.lose_connection(service, cursor, turn)?;
        let Some(next) = self.join(service, how)? else {
            return Ok(Course::JoinRefused);
        };
        *cursor = next;
        let Some(again) = self.send(service, cursor)? else {
            return Ok(Course::SendRefused);
        };
        take_fine(&mut self.replica, &again)?;
        Ok(Course::Whole)
    }

    /// Loses its connection without the Done. At a multiple of `LOSS_INTERVAL` it offers a snapshot and loses its world too. Answers how to
    /// join again.
    fn lose_connection<C: Clock, G, R: Wait>(
        &mut self,
        service: &Service<'_, C, G, R>,
        cursor: &Cursor,
        turn: u32,
    ) -> Result<How, WantOfMemory>
        requires owed { (payload : List ℕ)
            × IsOwed (C.gives service.now.clock.now) service.now.size service.now.shared.now self.old cursor.now turn
            payload }
        requires multiple { turn % drop_interval ≡ 0 }
        ensures view { self.new.view ≡ self.old.view }
        ensures lost { IfOk result (λ how. (payload : List ℕ)
            × IsLost (C.gives service.now.clock.now) service.now.size service.now.shared.now self.new cursor.now turn
            payload how) }
    {
        if turn % LOSS_INTERVAL != 0 {
            return Ok(How::Resume);
        }
        self.offer(service, cursor)?;
        self.replica.lose()?;
        Ok(How::Fresh)
    }

    /// Leaves, by its newest connection.
    fn leave<C: Clock, G, R: Wait>(
        &mut self,
        service: &Service<'_, C, G, R>,
        cursor: &Cursor,
    ) -> Result<(), WantOfMemory>
        requires worker { IsWorker (C.gives service.now.clock.now) service.now.size service.now.shared.now self.old }
        ensures pass { ChangesPass self.old self.new }
        ensures worker { OnOk result
            (IsWorker (C.gives service.now.clock.now) service.now.size service.now.shared.now self.new) }
        ensures asked { OnOk result ((now : ℕ) × (reply : Reply)
            × HasAsked (C.gives service.now.clock.now) service.now.size.views service.now.shared.now self.old.view
            self.old.pass self.new.pass
            (Leave self.old.view cursor.now.joined now) reply) }
    {
        let leave = Request::Leave {
            view: self.view,
            joined: cursor.joined,
            now: service.clock.now(),
        };
        let _left = self.ask(service, &leave)?;
        Ok(())
    }
}
