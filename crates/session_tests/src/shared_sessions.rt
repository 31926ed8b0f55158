//! Threads that share a session, and each call of the lock that can want memory, once.
ghost use Rattle.std.specs.Prelude.{◌≡◌};
ghost use Rattle.session_lock.specs.Passes.{numbers_held};

use reflector_core::{Refusal, Reply, Request, Session, Want};
use session_lock::{Pass, SharedSession, Trust, TrustAll};
use session_log::Log;
use std::alloc::Global;
use std::process::Abort;
use std::sync::Wait;
use std::test::Fail;
use std::thread::{Threads, join};
use tea_base::{Blob, SessionId, WantOfMemory, What};

const ID: SessionId = SessionId([7; 32]);

/// How many events each view sends.
const SENDS: u32 = 1000;

/// The view joins and sends its events, numbered from 1.
fn join_and_send<T: Trust, R: Wait>(
    rt: &R,
    alloc: Global,
    shared: &SharedSession<T>,
    mut pass: Pass,
    view: u32,
) -> Pass
    requires { pass.session ≡ shared.now.session }
    ensures session { result.session ≡ shared.now.session }
    ensures numbers { numbers_held result ≡ numbers_held pass }
{
    let request = Request::Join {
        view,
        now: 0,
        want: Want::Fresh,
    };
    let joined = match shared.call(rt, &mut pass, &request) {
        Ok(Reply::Joined { seq, .. }) => seq,
        _ => 0,
    };
    for number in 1..=SENDS {
        let request = Request::Send {
            view,
            joined,
            number,
            payload: Blob::new(alloc),
            now: 0,
        };
        let _ = shared.call(rt, &mut pass, &request);
    }
    pass
}

/// The views 1 and 2, each in a thread of its own, by their passes.
fn two_join_and_send<T: Trust + Sync, R: Threads + Wait + Sync>(
    rt: &R,
    alloc: Global,
    shared: &SharedSession<T>,
    first: Pass,
    second: Pass,
) -> (Pass, Pass)
    requires first_session { first.session ≡ shared.now.session }
    requires second_session { second.session ≡ shared.now.session }
    ensures first_session { result.0.session ≡ shared.now.session }
    ensures second_session { result.1.session ≡ shared.now.session }
    ensures first_numbers { numbers_held result.0 ≡ numbers_held first }
    ensures second_numbers { numbers_held result.1 ≡ numbers_held second }
{
    join(
        rt,
        || -> Pass
            requires { first.session ≡ shared.now.session }
            ensures session { result.session ≡ shared.entry.now.session }
            ensures numbers { numbers_held result ≡ numbers_held first }
        { join_and_send(rt, alloc, shared, first, 1) },
        || -> Pass
            requires { second.session ≡ shared.now.session }
            ensures session { result.session ≡ shared.entry.now.session }
            ensures numbers { numbers_held result ≡ numbers_held second }
        { join_and_send(rt, alloc, shared, second, 2) },
    )
}

/// How many events of the view the log has, if they are numbered 1, 2, 3 and so on; else 0.
pub fn events_of(log: &Log, view: u32) -> Result<u32, Fail> {
    let mut last = 0u32;
    for seq in 1..=log.len() {
        let entry = log.get(seq)?;
        if let What::Event { number, .. } = entry.what {
            if entry.view == view {
                if number != last.wrapping_add(1) {
                    return Ok(0);
                }
                last = number;
            }
        }
    }
    Ok(last)
}

/// The views 1 and 2 have joined and sent their events, and nobody else has.
fn look_at_log<R: Abort>(rt: &R, log: &Log) -> Result<(), Fail> {
    assert_eq!(rt; log.len(), 2 * (SENDS + 1));
    assert_eq!(rt; events_of(log, 1)?, SENDS);
    assert_eq!(rt; events_of(log, 2)?, SENDS);
    Ok(())
}

#[test]
fn two_threads_make_one_history(rt: HostRuntime) -> Result<(), Fail> {
    let session = session_of_two(&rt, rt.alloc())?;
    look_at_log(&rt, session.log())
}

/// The session of two views, while a third pass only looks on.
fn session_of_two<R: Threads + Wait + Abort + Sync>(
    rt: &R,
    alloc: Global,
) -> Result<Session, Fail> {
    let Ok((shared, mut first)) = SharedSession::new(alloc, ID, Session::new(alloc), TrustAll)
    else {
        return Err("memory")?;
    };
    let second = shared.split(&mut first, 0)?;
    let mut third = shared.split(&mut first, 0)?;
    let (mut first, second) = two_join_and_send(rt, alloc, &shared, first, second);
    assert_eq!(rt; shared.calls_done(&mut third), 2002);
    shared.merge(&mut first, second);
    shared.merge(&mut first, third);
    assert_eq!(rt; shared.calls_done(&mut first), 2002);
    Ok(shared.close(first))
}

/// It allows a snapshot of the founding, by whatever bytes.
#[derive(Drop)]
struct TrustFounding;

impl Trust for TrustFounding {
    ghost use Rattle.std.specs.Prelude.{◌≡◌};

    ghost allows = { λ _ _ _ _ time _. time ≡ 0 };

    ghost stays = { λ _ _ _ _ _ _ _ _ ok. ok };
}

/// The view 7 joins.
fn join_fresh<R: Wait>(
    rt: &R,
    shared: &SharedSession<TrustFounding>,
    pass: &mut Pass,
) -> Result<Reply, WantOfMemory>
    requires { pass.old.session ≡ shared.now.session }
    ensures session { pass.new.session ≡ shared.now.session }
    ensures numbers { numbers_held pass.new ≡ numbers_held pass.old }
{
    let request = Request::Join {
        view: 7,
        now: 5,
        want: Want::Fresh,
    };
    shared.call(rt, pass, &request)
}

/// The view 7 offers a snapshot of the founding.
fn offer_world<R: Wait>(
    rt: &R,
    alloc: Global,
    shared: &SharedSession<TrustFounding>,
    pass: &mut Pass,
) -> Result<Reply, WantOfMemory>
    requires { pass.old.session ≡ shared.now.session }
    ensures session { pass.new.session ≡ shared.now.session }
    ensures numbers { numbers_held pass.new ≡ numbers_held pass.old }
{
    let bytes = Blob::copy(alloc, b"world")?;
    let request = Request::Offer {
        view: 7,
        joined: 1,
        time: 0,
        bytes,
    };
    shared.offer(rt, pass, &request)
}

#[test]
fn a_snapshot_is_kept_for_those_who_join(rt: HostRuntime) -> Result<(), Fail> {
    let session = session_with_snapshot(&rt, rt.alloc())?;
    assert_eq!(rt; session.kept_time(), Some(0));
    assert_eq!(rt; session.horizon(), 6);
    Ok(())
}

/// The session of view 7, by two passes.
fn session_with_snapshot<R: Wait + Abort>(rt: &R, alloc: Global) -> Result<Session, Fail> {
    let Ok((shared, mut first)) = SharedSession::new(alloc, ID, Session::new(alloc), TrustFounding)
    else {
        return Err("memory")?;
    };
    let mut second = shared.split(&mut first, 0)?;
    offer_and_join(rt, alloc, &shared, &mut first, &mut second)?;
    shared.merge(&mut first, second);
    Ok(shared.close(first))
}

/// Each pass offers the snapshot once, and the second one joins from it.
fn offer_and_join<R: Wait + Abort>(
    rt: &R,
    alloc: Global,
    shared: &SharedSession<TrustFounding>,
    first: &mut Pass,
    second: &mut Pass,
) -> Result<(), Fail>
    requires first { first.old.session ≡ shared.now.session }
    requires second { second.old.session ≡ shared.now.session }
    ensures first_session { first.new.session ≡ shared.now.session }
    ensures second_session { second.new.session ≡ shared.now.session }
    ensures first_numbers { numbers_held first.new ≡ numbers_held first.old }
    ensures second_numbers { numbers_held second.new ≡ numbers_held second.old }
{
    assert!(rt;
        matches!(
            join_fresh(rt, shared, first)?,
            Reply::Joined {
                seq: 1,
                time: 5,
                last: 0,
                from: 0,
                base: None
            }
        )
    );
    let kept = offer_world(rt, alloc, shared, second)?;
    assert!(rt; matches!(kept, Reply::Kept));
    let older = offer_world(rt, alloc, shared, first)?;
    assert!(rt; matches!(older, Reply::Refused(Refusal::Older { kept: 0 })));
    let Reply::Joined {
        base: Some(base),
        ..
    } = join_fresh(rt, shared, second)?
    else {
        return Err("no base")?;
    };
    assert!(rt; base.bytes.is_bytes(b"world"));
    assert_eq!(rt; shared.calls_done(first), 4);
    Ok(())
}
