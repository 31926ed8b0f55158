//! A worker: a view's replica, the source of what it publishes, and its pass.
ghost use Rattle.std.specs.Prelude.{◌≡◌, false, IfOk, OnOk};
ghost use Rattle.reflector_core.specs.Growth.{is_offer};
ghost use Rattle.drill.specs.Asking.{IsAskedBy};
ghost use Rattle.drill.specs.Workers.{ChangesPass, HasAsked, IsWorker};

use crate::size::Size;
use crate::trust::TrustReplay;
use reflector_core::{Reply, Request};
use replica::Replica;
use seeded_random::Source64;
use session_lock::{Pass, SharedSession};
use std::alloc::Global;
use std::sync::Wait;
use tea_base::WantOfMemory;
use tea_io::Clock;

/// What all workers share.
#[derive(Drop)]
pub struct Service<'a, C: Clock, G, R: Wait> {
    pub rt: &'a R,
    pub alloc: Global,
    pub shared: &'a SharedSession<TrustReplay>,
    pub size: Size,
    pub clock: &'a C,
    pub gate: &'a G,
}

/// A worker. It calls by its view's number.
#[derive(Drop)]
pub struct Worker {
    pub view: u32,
    pub replica: Replica,
    pub source: Source64,
    pub pass: Pass,
}

impl Worker {
    /// Asks the session. Only an offer may not be asked so.
    pub fn ask<C: Clock, G, R: Wait>(
        &mut self,
        service: &Service<'_, C, G, R>,
        request: &Request,
    ) -> Result<Reply, WantOfMemory>
        requires worker { IsWorker (C.gives service.now.clock.now) service.now.size service.now.shared.now self.old }
        requires kind { is_offer request.now ≡ false }
        requires asked { IsAskedBy (C.gives service.now.clock.now) self.old.view request.now }
        ensures pass { ChangesPass self.old self.new }
        ensures worker { OnOk result
            (IsWorker (C.gives service.now.clock.now) service.now.size service.now.shared.now self.new) }
        ensures asked { IfOk result (λ reply.
            HasAsked (C.gives service.now.clock.now) service.now.size.views service.now.shared.now self.old.view
            self.old.pass self.new.pass request.now reply) }
    {
        service.shared.call(service.rt, &mut self.pass, request)
    }
}
