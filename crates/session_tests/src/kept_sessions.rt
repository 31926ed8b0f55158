//! Threads that share a session with a keeper: it settles once for calls that wait at once, and nobody is told what it
//! did not keep.
ghost use Rattle.std.specs.Prelude.{◌≡◌, ◌≤◌, All, IfOk, false};
ghost use Rattle.session_lock.specs.Numbers.{count_of};
ghost use Rattle.session_lock.specs.Passes.{numbers_held};

use crate::shared_sessions::events_of;
use entry_fields::LentWhat;
use reflector_core::{CallFault, Keeper, Reply, Request, Session, Unkept, Want};
use session_lock::{Pass, SharedSession, TrustAll};
use std::alloc::Global;
use std::process::Abort;
use std::sync::Wait;
use std::test::Fail;
use std::thread;
use std::thread::{Threads, join};
use tea_base::{Blob, SessionId, WantOfMemory};

const ID: SessionId = SessionId([7; 32]);

/// How many events each view sends.
const SENDS: u32 = 20;

/// How many calls two views make, with their Joins.
const CALLS: u32 = 2 * (SENDS + 1);

/// How many threads call at once in the largest test, and how many events each of them sends: 10^5 in all.
const CROWD: u32 = 64;

const CROWD_SENDS: u32 = 1563;

/// In one of so many rounds two views surely share a settling.
const ROUNDS: u32 = 100;

/// A keeper that counts how often it settles, and fails once it has settled so often.
#[derive(Drop)]
struct CountingKeeper {
    most: u32,
    settles: u32,
    unsettled: bool,
    failed: bool,
}

impl CountingKeeper {
    fn new(most: u32) -> CountingKeeper
        ensures { result.failed ≡ false }
    {
        CountingKeeper {
            most,
            settles: 0,
            unsettled: false,
            failed: false,
        }
    }
}

impl Keeper for CountingKeeper {
    ghost use Rattle.std.specs.Prelude.{◌≡◌, true, not, ◌&&◌, if◌then◌else◌};

    ghost holds = { λ _ _. Unit {0} };

    ghost writes = { λ _ _. Unit {0} };

    ghost settled = { λ keeper. not keeper.unsettled && not keeper.failed };

    ghost shut = { λ keeper. keeper.failed ≡ true };

    ghost faults = { λ keeper. if keeper.failed then 1 else 0 };

    fn keep_entry(&mut self, _time: u64, _view: u32, _what: LentWhat<'_>) -> Result<(), Unkept> {
        if self.failed {
            return Err(Unkept);
        }
        self.unsettled = true;
        Ok(())
    }

    fn keep_tick(&mut self, _time: u64) -> Result<(), Unkept> {
        if self.failed {
            return Err(Unkept);
        }
        self.unsettled = true;
        Ok(())
    }

    fn keep_snapshot(&mut self, _time: u64, _bytes: &[u8]) -> Result<(), Unkept> {
        self.settle()
    }

    fn settle(&mut self) -> Result<(), Unkept> {
        if self.failed || self.settles >= self.most {
            self.failed = true;
            return Err(Unkept);
        }
        // it takes long, as that of a file does
        thread::yield_now();
        self.settles += 1;
        self.unsettled = false;
        Ok(())
    }

    fn is_settled(&self) -> bool {
        !self.unsettled && !self.failed
    }
}

/// How often a view was answered, and how often its call was not kept.
#[derive(Clone, Copy, Debug, PartialEq, Eq)]
struct Told {
    answered: u32,
    unkept: u32,
}

impl Told {
    /// Notes how one call ended.
    fn note(&mut self, end: &Result<Reply, CallFault>) {
        match end {
            Ok(Reply::Joined { .. }) | Ok(Reply::Stamped { .. }) => {
                self.answered = self.answered.saturating_add(1)
            }
            Err(CallFault::Unkept) => self.unkept = self.unkept.saturating_add(1),
            _ => {}
        }
    }
}

type Shared = SharedSession<TrustAll, CountingKeeper>;

type KeptPass = Pass<CountingKeeper>;

/// The view joins and sends so many events, numbered from 1.
fn join_and_send<R: Wait>(
    rt: &R,
    alloc: Global,
    shared: &Shared,
    mut pass: KeptPass,
    view: u32,
    sends: u32,
) -> (KeptPass, Told)
    requires { pass.session ≡ shared.now.session }
    ensures session { result.0.session ≡ shared.now.session }
    ensures numbers { numbers_held result.0 ≡ numbers_held pass }
{
    let mut told = Told {
        answered: 0,
        unkept: 0,
    };
    let request = Request::Join {
        view,
        now: 0,
        want: Want::Fresh,
    };
    let result = shared.call_kept(rt, &mut pass, &request);
    told.note(&result);
    let joined = match result {
        Ok(Reply::Joined { seq, .. }) => seq,
        _ => 0,
    };
    for number in 1..=sends {
        let request = Request::Send {
            view,
            joined,
            number,
            payload: Blob::new(alloc),
            now: 0,
        };
        told.note(&shared.call_kept(rt, &mut pass, &request));
    }
    (pass, told)
}

/// The views 1 and 2, each in a thread of its own, by their passes.
fn two_join_and_send<R: Threads + Wait + Sync>(
    rt: &R,
    alloc: Global,
    shared: &Shared,
    first: KeptPass,
    second: KeptPass,
) -> ((KeptPass, Told), (KeptPass, Told))
    requires first_session { first.session ≡ shared.now.session }
    requires second_session { second.session ≡ shared.now.session }
    ensures first_session { result.0.0.session ≡ shared.now.session }
    ensures second_session { result.1.0.session ≡ shared.now.session }
    ensures first_numbers { numbers_held result.0.0 ≡ numbers_held first }
    ensures second_numbers { numbers_held result.1.0 ≡ numbers_held second }
{
    join(
        rt,
        || -> (KeptPass, Told)
            requires { first.session ≡ shared.now.session }
            ensures session { result.0.session ≡ shared.entry.now.session }
            ensures numbers { numbers_held result.0 ≡ numbers_held first }
        { join_and_send(rt, alloc, shared, first, 1, SENDS) },
        || -> (KeptPass, Told)
            requires { second.session ≡ shared.now.session }
            ensures session { result.0.session ≡ shared.entry.now.session }
            ensures numbers { numbers_held result.0 ≡ numbers_held second }
        { join_and_send(rt, alloc, shared, second, 2, SENDS) },
    )
}

/// Whether a Pull is answered.
fn pulls<R: Wait>(rt: &R, shared: &Shared, pass: &mut KeptPass) -> bool
    requires { pass.old.session ≡ shared.now.session }
    ensures session { pass.new.session ≡ shared.now.session }
    ensures numbers { numbers_held pass.new ≡ numbers_held pass.old }
{
    let request = Request::Pull { after: 0, limit: 1 };
    matches!(
        shared.call_kept(rt, pass, &request),
        Ok(Reply::Batch { .. })
    )
}

/// What two views leave that were served at once.
#[derive(Drop)]
struct Left {
    session: Session,
    keeper: CountingKeeper,
    first: Told,
    second: Told,
    /// A Pull was answered after all other calls.
    pulled: bool,
}

/// Two views are served, by a keeper that settles so often.
fn serve_two<R: Threads + Wait + Sync>(rt: &R, alloc: Global, most: u32) -> Result<Left, Fail> {
    let session = Session::new(alloc);
    // tells that the session is sound, so that it covers itself
    let _horizon = session.horizon(); // for the prover
    let keeper = CountingKeeper::new(most);
    let (shared, mut first) = SharedSession::with_keeper(alloc, ID, session, keeper, TrustAll)
        .ok()
        .ok_or("memory")?;
    let second = shared.split(&mut first, 0)?;
    let ((mut first, told_first), (second, told_second)) = two_join_and_send(
        rt, alloc, &shared, first, second,
    );
    shared.merge(&mut first, second);
    let pulled = pulls(rt, &shared, &mut first);
    let (session, keeper) = shared.close_kept(first);
    Ok(Left {
        session,
        keeper,
        first: told_first,
        second: told_second,
        pulled,
    })
}

/// All was answered, in as many settlings as the calls of one view at least.
fn look_at_all<R: Abort>(rt: &R, left: &Left) -> Result<(), Fail> {
    let all = Told {
        answered: SENDS + 1,
        unkept: 0,
    };
    assert_eq!(rt; left.first, all);
    assert_eq!(rt; left.second, all);
    assert_eq!(rt; left.session.log().len(), CALLS);
    assert!(rt; left.keeper.settles > SENDS && left.pulled);
    Ok(())
}

#[test]
fn calls_that_wait_at_once_are_settled_at_once(rt: HostRuntime) -> Result<(), Fail> {
    for _ in 0..ROUNDS {
        let left = serve_two(&rt, rt.alloc(), u32::MAX)?;
        look_at_all(&rt, &left)?;
        if left.keeper.settles < CALLS {
            return Ok(());
        }
    }
    Err("each call was settled by itself")?
}

/// The log has what was answered and nothing else. Each view met the keeper's failure, and could read all the same.
fn look_at_failed<R: Abort>(rt: &R, left: &Left) -> Result<(), Fail> {
    let log = left.session.log();
    assert_eq!(rt;
        log.len(),
        left.first.answered.saturating_add(left.second.answered)
    );
    assert_eq!(rt; events_of(log, 1)?, left.first.answered.saturating_sub(1));
    assert_eq!(rt; events_of(log, 2)?, left.second.answered.saturating_sub(1));
    assert!(rt; left.first.unkept > 0 && left.second.unkept > 0);
    assert!(rt; left.keeper.failed && left.pulled);
    Ok(())
}

#[test]
fn what_was_not_settled_is_told_to_nobody(rt: HostRuntime) -> Result<(), Fail> {
    for most in 0..SENDS {
        let left = serve_two(&rt, rt.alloc(), most)?;
        look_at_failed(&rt, &left)?;
    }
    Ok(())
}

/// So many passes of a session, each for a view of its own.
fn passes_of(
    alloc: Global,
    shared: &Shared,
    lead: &mut KeptPass,
    count: u32,
) -> Result<Vec<KeptPass>, WantOfMemory>
    requires session { lead.old.session ≡ shared.now.session }
    requires enough { count ≤ count_of lead.old.spare }
    ensures lead { lead.new.session ≡ shared.now.session }
    ensures passes { IfOk result (λ passes. All (λ pass. pass.session ≡ shared.now.session) passes.items) }
{
    let mut passes = Vec::new(alloc);
    for _made in 0..count {
        passes.push(shared.split(lead, 0)?)?;
    }
    Ok(passes)
}

/// A view for each pass joins and sends, in a thread beside the others. They are numbered down from this one. Tells how many calls were answered.
fn crowd_sends<R: Threads + Wait + Sync>(
    rt: &R,
    alloc: Global,
    shared: &Shared,
    mut passes: Vec<KeptPass>,
    view: u32,
) -> u32
    requires { All (λ pass. pass.session ≡ shared.now.session) passes.items }
{
    let Some(pass) = passes.pop() else {
        return 0;
    };
    let (told, others) = join(
        rt,
        || -> Told
            requires { pass.session ≡ shared.now.session }
        { join_and_send(rt, alloc, shared, pass, view, CROWD_SENDS).1 },
        || -> u32
            requires { All (λ pass. pass.session ≡ shared.now.session) passes.items }
        { crowd_sends(rt, alloc, shared, passes, view.saturating_sub(1)) },
    );
    others.saturating_add(told.answered)
}

#[test]
fn nobody_in_a_crowd_is_left_asleep(rt: HostRuntime) -> Result<(), Fail> {
    let alloc = rt.alloc();
    let session = Session::new(alloc);
    // tells that the session is sound, so that it covers itself
    let _horizon = session.horizon(); // for the prover
    let keeper = CountingKeeper::new(u32::MAX);
    let (shared, mut lead) = SharedSession::with_keeper(alloc, ID, session, keeper, TrustAll)
        .ok()
        .ok_or("memory")?;
    let passes = passes_of(alloc, &shared, &mut lead, CROWD)?;
    assert_eq!(rt;
        crowd_sends(&rt, alloc, &shared, passes, CROWD),
        CROWD * (CROWD_SENDS + 1)
    );
    assert_eq!(rt;
        shared.calls_done(&mut lead),
        (CROWD * (CROWD_SENDS + 1)) as u64
    );
    Ok(())
}
