//! What posts make of links in memory, in threads, and what comes back.

use crate::keeper::CountingKeeper;
use crate::links::{link_of, plan_of, plans_of, silent_link};
use held_gate::HeldGate;
use host_posts::{EndCounts, PostEnd};
use net_shares::{Answers, ListStop, MemSharedNet, SharePlans};
use reflect_posts::{PostServer, ReflectedOn, reflect_on};
use reflect_server::{KeptFault, Opening};
use reflector_core::Session;
use std::alloc::Global;
use std::sync::Wait;
use std::test::Fail;
use std::thread::Threads;
use tea_base::{Numbers, SessionId, Text, WantOfMemory};
use tea_io::{FixedClock, Gate, MemLinks, OpenGate};

/// What was reflected, or why nothing was.
type Outcome = Result<ReflectedOn, KeptFault>;

/// What comes back of a run.
#[derive(Drop)]
struct Back {
    net: MemSharedNet,
    keeper: CountingKeeper,
    outcome: Outcome,
}

/// A stop that never asks.
fn no_stop(alloc: Global) -> Result<ListStop, WantOfMemory> {
    let mut answers = Answers::new(alloc);
    answers.push(false)?;
    Ok(ListStop::new(answers))
}

/// A net that gives shares by these plans, and that fails to listen if it is to.
fn net_of(alloc: Global, plans: SharePlans, fails: bool) -> Result<MemSharedNet, WantOfMemory> {
    let mut failing = Numbers::new(alloc);
    if fails {
        failing.push(1)?;
    }
    Ok(MemSharedNet::new(alloc, MemLinks::new(alloc), plans, failing))
}

/// Reflects a new session by so many posts at time 0.
fn reflect_at_0<G: Gate + Sync, R: Threads + Wait + Sync>(
    rt: &R,
    alloc: Global,
    net: MemSharedNet,
    posts: u32,
    gate: &G,
) -> Result<Back, WantOfMemory> {
    let address = Text::copy(alloc, "here")?;
    let stop = no_stop(alloc)?;
    let server = PostServer {
        id: SessionId([7; 32]),
        address: &address,
        posts: posts.clamp(1, 64),
        clock: &FixedClock { at: 0 },
        gate,
        stop: &stop,
    };
    let session = Session::new(alloc);
    // tells that the session is sound, so that it covers itself
    let _horizon = session.horizon(); // for the prover
    let keeper = CountingKeeper::new(false);
    let opening = Opening { session, keeper };
    let (net, keeper, outcome) = reflect_on(rt, alloc, &server, opening, net);
    Ok(Back {
        net,
        keeper,
        outcome,
    })
}

/// Whether each of two posts has served its two links, all of which left, and the keeper has all their entries.
fn has_served_two(back: &Back) -> bool {
    let Ok(reflected) = &back.outcome else {
        return false;
    };
    reflected.posts.len() == 2
        && matches!(reflected.posts.get(0), Some(post) if post.end == PostEnd::Failed
            && post.counts == EndCounts { left: 2, ..EndCounts::new() })
        && matches!(reflected.posts.get(1), Some(post) if post.end == PostEnd::Failed
            && post.counts == EndCounts { left: 2, ..EndCounts::new() })
        && reflected.session.log().len() == 8
        && back.keeper.entries == 8
        && back.keeper.has_kept()
}

/// Whether each of two posts serves its link, of which the first is held until the other post has one.
fn two_are_served_at_once<R: Threads + Wait + Sync>(
    rt: &R,
    alloc: Global,
    held: u32,
) -> Result<bool, WantOfMemory> {
    let gate = HeldGate::new(held, 1);
    let net = net_of(alloc, plans_of(alloc, 2, 2)?, false)?;
    let back = reflect_at_0(rt, alloc, net, 2, &gate)?;
    Ok(gate.held() && gate.passes() == 4 && has_served_two(&back) && back.net.returned().len() == 2)
}

/// Whether a JOIN of another session is refused, and a link without a frame is counted as silent; neither leaves an entry.
fn others_are_refused<R: Threads + Wait + Sync>(
    rt: &R,
    alloc: Global,
) -> Result<bool, WantOfMemory> {
    let mut links = MemLinks::new(alloc);
    links.push(link_of(alloc, 8, 1)?)?;
    links.push(silent_link(alloc))?;
    let mut plans = SharePlans::new(alloc);
    plans.push(plan_of(alloc, links, 3)?)?;
    let net = net_of(alloc, plans, false)?;
    let back = reflect_at_0(rt, alloc, net, 1, &OpenGate)?;
    let Ok(reflected) = &back.outcome else {
        return Ok(false);
    };
    let told = matches!(reflected.posts.get(0), Some(post) if post.counts.refused == 1
        && post.counts.silent == 1 && post.counts.link_end == 1);
    Ok(told && reflected.session.log().len() == 0 && back.keeper.entries == 0)
}

/// Whether the keeper comes back of a net that does not listen.
fn the_keeper_is_back<R: Threads + Wait + Sync>(
    rt: &R,
    alloc: Global,
) -> Result<bool, WantOfMemory> {
    let net = net_of(alloc, plans_of(alloc, 2, 2)?, true)?;
    let back = reflect_at_0(rt, alloc, net, 2, &OpenGate)?;
    Ok(
        matches!(back.outcome, Err(KeptFault::ListenFault))
            && back.net.returned().is_empty()
            && back.keeper.entries == 0
            && back.keeper.has_kept(),
    )
}

/// Whether a net that gives fewer shares than there are posts has them back, and so does the keeper come back.
fn fewer_shares_are_back<R: Threads + Wait + Sync>(
    rt: &R,
    alloc: Global,
) -> Result<bool, WantOfMemory> {
    let net = net_of(alloc, plans_of(alloc, 2, 2)?, false)?;
    let back = reflect_at_0(rt, alloc, net, 3, &OpenGate)?;
    Ok(
        matches!(back.outcome, Err(KeptFault::ListenFault))
            && back.net.returned().len() == 2
            && back.keeper.entries == 0
            && back.keeper.has_kept(),
    )
}

#[test]
fn posts_reflect_at_once(rt: HostRuntime) -> Result<(), Fail> {
    assert!(rt; two_are_served_at_once(&rt, rt.alloc(), 0)?);
    assert!(rt; two_are_served_at_once(&rt, rt.alloc(), 1)?);
    Ok(())
}

#[test]
fn another_session_is_refused(rt: HostRuntime) -> Result<(), Fail> {
    assert!(rt; others_are_refused(&rt, rt.alloc())?);
    Ok(())
}

#[test]
fn the_keeper_comes_back_where_the_net_does_not_listen(rt: HostRuntime) -> Result<(), Fail> {
    assert!(rt; the_keeper_is_back(&rt, rt.alloc())?);
    Ok(())
}

#[test]
fn shares_and_keeper_come_back_where_there_are_too_few(rt: HostRuntime) -> Result<(), Fail> {
    assert!(rt; fewer_shares_are_back(&rt, rt.alloc())?);
    Ok(())
}
