//! How a session that goes on is opened: each view that is here in it is made to leave.
ghost use Rattle.std.specs.Prelude.{◌≡◌, ◌≤◌, IfOk, IfErr, OnOk, OnErr};
ghost use Rattle.run_steps.specs.Limits.{most_connections};
ghost use Rattle.reflector_core.specs.Keeping.{IsCovered};
ghost use Rattle.reflector_core.specs.declared.keeper.CallFault.TheVariants as faults;
ghost use Rattle.session_lock.specs.Keeping.{KeepsPlay};
ghost use Rattle.session_lock.specs.Numbers.{count_of};
ghost use Rattle.session_lock.specs.Passes.{numbers_held, own_calls};
ghost use Rattle.session_lock.specs.Rules.{all_numbers};
ghost use Rattle.reflect_server.specs.Keeping.{IsUnopened, keeper_tells};
ghost use Rattle.reflect_server.specs.Opening.{AreHere, HasMadeLeave, HasMadeLeaves, HasMadeUnkept, HasOpened, HasStopped, gives_later};

use crate::reflection::Opening;
use reflector_core::{CallFault, Keeper, Request, Session, Unkept};
use session_lock::{Pass, SharedSession, TrustAll, Unmade};
use std::alloc::Global;
use std::sync::Wait;
use tea_base::{SessionId, WantOfMemory, push};
use tea_io::Clock;

/// Tells the time of `clock` plus `since`, both in microseconds, and at most 2^64 - 1.
#[derive(Drop)]
pub struct LaterClock<'a, C: Clock> {
    pub clock: &'a C,
    pub since: u64,
}

impl<C: Clock> Clock for LaterClock<'_, C> {
    ghost gives = { λ clock. gives_later (C.gives clock.clock.now) clock.since };

    fn now(&self) -> u64 {
        self.clock.now().saturating_add(self.since)
    }
}

/// The views that are here, in rising order, each with the seq of its Join.
fn views_here(alloc: Global, session: &Session) -> Result<Vec<(u32, u32)>, WantOfMemory>
    ensures { IfOk result (λ views. AreHere session.now.plain.log views.items) }
{
    let mut views = Vec::new(alloc);
    let mut above = 0;
    while let Some(next) = session.next_here(above) {
        above = next.0;
        push(&mut views, next)?;
    }
    Ok(views)
}

/// Makes one view leave. Without memory for its Exit it stays here.
fn leave_one<C: Clock, R: Wait, K: Keeper>(
    rt: &R,
    shared: &SharedSession<TrustAll, K>,
    pass: &mut Pass<K>,
    clock: &C,
    one: (u32, u32),
) -> Result<(), Unkept>
    requires { pass.old.session ≡ shared.now.session }
    ensures kept { pass.new ≡ record pass.old { seen = pass.new.seen } }
    ensures left { OnOk result (HasMadeLeave (C.gives clock.now) one pass.old pass.new) }
    ensures unkept { OnErr result (HasMadeUnkept pass.old pass.new) }
{
    let request = Request::Leave {
        view: one.0,
        joined: one.1,
        now: clock.now(),
    };
    match shared.call_kept(rt, pass, &request) {
        Ok(_) => Ok(()),
        Err(CallFault::WantOfMemory) => Ok(()),
        Err(CallFault::Unkept) => Err(Unkept),
    }
}

/// Makes each of the views leave, in order, up to one whose Leave is not kept.
fn leave_all<C: Clock, R: Wait, K: Keeper>(
    rt: &R,
    shared: &SharedSession<TrustAll, K>,
    pass: &mut Pass<K>,
    clock: &C,
    views: &[(u32, u32)],
) -> Result<(), Unkept>
    requires { pass.old.session ≡ shared.now.session }
    ensures kept { pass.new ≡ record pass.old { seen = pass.new.seen } }
    ensures left { OnOk result (HasMadeLeaves (C.gives clock.now) views.now pass.old pass.new) }
    ensures stopped { OnErr result (HasStopped (C.gives clock.now) views.now pass.old pass.new) }
{
    for one in views {
        leave_one(rt, shared, pass, clock, *one)?;
    }
    Ok(())
}

/// Why a session was not opened, and its keeper.
#[derive(Drop)]
pub struct Unopened<K: Keeper> {
    pub keeper: K,
    pub fault: CallFault,
}

impl<K: Keeper> Unopened<K> {
    /// There was no memory.
    pub fn wants(keeper: K) -> Unopened<K>
        ensures { (result.keeper ≡ keeper) × (result.fault ≡ faults.WantOfMemory) }
    {
        Unopened {
            keeper,
            fault: CallFault::WantOfMemory,
        }
    }

    /// There was none for the lock.
    fn unmade(unmade: Unmade<TrustAll, K>) -> Unopened<K>
        ensures { (result.keeper ≡ unmade.keeper) × (result.fault ≡ faults.WantOfMemory) }
    {
        let Unmade {
            session,
            keeper,
            ..
        } = unmade;
        drop(session);
        Unopened::wants(keeper)
    }
}

/// The keeper of a session that was opened, and no more.
pub fn close_opened<K: Keeper>(shared: SharedSession<TrustAll, K>, pass: Pass<K>) -> K
    requires session { pass.session ≡ shared.session }
    requires whole { numbers_held pass ≡ all_numbers }
    ensures keeper { KeepsPlay K.holds K.shut K.faults shared.faults pass.opening pass.seen result }
    ensures calls { own_calls pass ≡ pass.seen }
{
    let (session, keeper) = shared.close_kept(pass);
    drop(session);
    keeper
}

/// Shares a session, and makes each view leave that is here in it. The pass holds all numbers. Where a Leave is not kept, the session is closed.
pub fn open_session<C: Clock, R: Wait, K: Keeper>(
    rt: &R,
    alloc: Global,
    id: SessionId,
    opening: Opening<K>,
    clock: &C,
) -> Result<(SharedSession<TrustAll, K>, Pass<K>), Unopened<K>>
    requires covered { IsCovered (K.holds opening.keeper) opening.session.plain.kept opening.session.plain }
    requires written { IsCovered (K.writes opening.keeper) opening.session.plain.kept opening.session.plain }
    requires unshut { K.shut opening.keeper → ⊥ }
    ensures session { IfOk result (λ opened. opened.1.session ≡ opened.0.session) }
    ensures begins { IfOk result (λ opened. opened.1.opening ≡ opening.session.plain) }
    ensures faults { IfOk result (λ opened. opened.0.faults ≡ K.faults opening.keeper) }
    ensures leaves { IfOk result (λ opened. HasOpened (C.gives clock.now) opening.session.plain opened.1) }
    ensures numbers { IfOk result (λ opened. numbers_held opened.1 ≡ all_numbers) }
    ensures spare { IfOk result (λ opened. most_connections ≤ count_of opened.1.spare) }
    ensures unopened { IfErr result (λ unopened. IsUnopened (C.gives clock.now) opening.session.plain
        (keeper_tells K.holds K.shut K.faults (K.faults opening.keeper) opening.session.plain unopened.keeper)
        unopened.fault) }
{
    let Opening { session, keeper } = opening;
    let Ok(views) = views_here(alloc, &session) else {
        return Err(Unopened::wants(keeper));
    };
    let (shared, mut pass) = match SharedSession::with_keeper(
        alloc, id, session, keeper, TrustAll,
    ) {
        Ok(made) => made,
        Err(unmade) => return Err(Unopened::unmade(unmade)),
    };
    match leave_all(rt, &shared, &mut pass, clock, views.as_slice()) {
        Ok(()) => Ok((shared, pass)),
        Err(Unkept) => Err(Unopened {
            keeper: close_opened(shared, pass),
            fault: CallFault::Unkept,
        }),
    }
}
