//! What posts make of links in memory, in threads.
ghost use Rattle.std.specs.Prelude.{◌≡◌, ◌<◌, IfOk, length};
ghost use Rattle.tea_io.specs.MemNet.{HasNoCounts};

use crate::links::{link_of, silent_link};
use crate::plans::{plan_of, plans_of};
use held_gate::HeldGate;
use host_posts::{EndCounts, HostedOn, PostEnd, PostOutcome, Posts, counts_of_posts, host_on};
use net_shares::{Answers, ListStop, MemSharedNet, SharePlans};
use reflect_server::ServeFault;
use std::alloc::Global;
use std::sync::Wait;
use std::test::Fail;
use std::thread::Threads;
use tea_base::{Numbers, SessionId, Text, WantOfMemory};
use tea_io::{FixedClock, Gate, MemLinks, OpenGate};

/// What was hosted, or why nothing was.
type Outcome = Result<HostedOn, ServeFault>;

/// A stop that asks only after so many other answers.
fn stop_after(alloc: Global, others: u32) -> Result<ListStop, WantOfMemory> {
    let mut answers = Answers::new(alloc);
    for _other in 0..others {
        answers.push(false)?;
    }
    answers.push(true)?;
    Ok(ListStop::new(answers))
}

/// Hosts two new sessions by so many posts, over these shares, at time 0.
fn host_at_0<G: Gate + Sync, R: Threads + Wait + Sync>(
    rt: &R,
    alloc: Global,
    plans: SharePlans,
    posts: u32,
    stop: &ListStop,
    gate: &G,
) -> Result<(MemSharedNet, Outcome), WantOfMemory> {
    let address = Text::copy(alloc, "here")?;
    let ids = [SessionId([7; 32]), SessionId([9; 32])];
    let wanted = Posts {
        ids: &ids,
        on_demand: true,
        address: &address,
        posts: posts.clamp(1, 64),
        clock: &FixedClock { at: 0 },
        gate,
        stop,
    };
    let net = MemSharedNet::new(alloc, MemLinks::new(alloc), plans, Numbers::new(alloc));
    Ok(host_on(rt, alloc, &wanted, net))
}

/// Whether a post has ended so, after so many links, all of which left.
fn has_left(post: Option<&PostOutcome>, end: PostEnd, links: u64) -> bool {
    matches!(post, Some(outcome) if outcome.end == end
        && outcome.counts == EndCounts { left: links, ..EndCounts::new() })
}

/// Whether the log of the session at this place has so many entries.
fn has_entries(hosted: &HostedOn, place: usize, entries: u32) -> bool {
    matches!(hosted.sessions.get(place), Some(session) if session.log().len() == entries)
}

/// Whether four posts have served 50 links each, and each session half of them, with a Join and an Exit.
fn serves_two_hundred(outcome: &Outcome) -> bool {
    let Ok(hosted) = outcome else {
        return false;
    };
    hosted.posts.len() == 4
        && has_left(hosted.posts.get(0), PostEnd::Failed, 50)
        && has_left(hosted.posts.get(1), PostEnd::Failed, 50)
        && has_left(hosted.posts.get(2), PostEnd::Failed, 50)
        && has_left(hosted.posts.get(3), PostEnd::Failed, 50)
        && counts_of_posts(hosted.posts.as_slice()).left == 200
        && hosted.ids.len() == 2
        && hosted.sessions.len() == 2
        && has_entries(hosted, 0, 200)
        && has_entries(hosted, 1, 200)
}

/// Whether the first post was stopped behind a link of a third session, and one that gave no frame.
fn makes_a_session(outcome: &Outcome) -> bool {
    let Ok(hosted) = outcome else {
        return false;
    };
    hosted.posts.len() == 1
        && matches!(hosted.posts.get(0), Some(outcome) if outcome.end == PostEnd::Stopped
            && outcome.counts.silent == 1 && outcome.counts.link_end == 1 && outcome.counts.left == 1)
        && hosted.ids.len() == 3
        && hosted.sessions.len() == 3
        && has_entries(hosted, 0, 0)
        && has_entries(hosted, 1, 0)
        && has_entries(hosted, 2, 2)
}

/// Two hundred links of two sessions, in four shares.
fn two_hundred_are_served<R: Threads + Wait + Sync>(
    rt: &R,
    alloc: Global,
) -> Result<bool, WantOfMemory> {
    let stop = stop_after(alloc, 1000)?;
    let (net, outcome) = host_at_0(rt, alloc, plans_of(alloc, 4, 50)?, 4, &stop, &OpenGate)?;
    Ok(serves_two_hundred(&outcome) && net.returned().len() == 4 && net.faults() == 4)
}

/// A link of a session that is not listed, and one without a frame; then the post is to stop.
fn a_session_is_made<R: Threads + Wait + Sync>(
    rt: &R,
    alloc: Global,
) -> Result<bool, WantOfMemory> {
    let mut links = MemLinks::new(alloc);
    links.push(link_of(alloc, 8, 1)?)?;
    links.push(silent_link(alloc))?;
    let mut plans = SharePlans::new(alloc);
    plans.push(plan_of(alloc, links, 9, 2)?)?;
    let stop = stop_after(alloc, 3)?;
    let (net, outcome) = host_at_0(rt, alloc, plans, 1, &stop, &OpenGate)?;
    Ok(makes_a_session(&outcome) && net.returned().len() == 1)
}

/// Whether each of two posts serves its link, of which the first is held until the other post has one.
fn two_are_served_at_once<R: Threads + Wait + Sync>(
    rt: &R,
    alloc: Global,
    held: u32,
) -> Result<bool, WantOfMemory> {
    let gate = HeldGate::new(held, 1);
    let stop = stop_after(alloc, 1000)?;
    let (net, outcome) = host_at_0(rt, alloc, plans_of(alloc, 2, 2)?, 2, &stop, &gate)?;
    let all = matches!(&outcome, Ok(hosted) if counts_of_posts(hosted.posts.as_slice()).left == 4);
    Ok(gate.held() && gate.passes() == 4 && all && net.returned().len() == 2)
}

/// Whether a net that gives fewer shares than there are posts has them back, and nothing is hosted.
fn fewer_shares_are_back<R: Threads + Wait + Sync>(
    rt: &R,
    alloc: Global,
) -> Result<bool, WantOfMemory> {
    let stop = stop_after(alloc, 1000)?;
    let (net, outcome) = host_at_0(rt, alloc, plans_of(alloc, 2, 2)?, 3, &stop, &OpenGate)?;
    Ok(matches!(outcome, Err(ServeFault::ListenFault)) && net.returned().len() == 2)
}

#[test]
fn posts_serve_two_hundred_links(rt: HostRuntime) -> Result<(), Fail> {
    assert!(rt; two_hundred_are_served(&rt, rt.alloc())?);
    Ok(())
}

#[test]
fn posts_make_a_session_on_demand(rt: HostRuntime) -> Result<(), Fail> {
    assert!(rt; a_session_is_made(&rt, rt.alloc())?);
    Ok(())
}

#[test]
fn posts_run_at_once(rt: HostRuntime) -> Result<(), Fail> {
    assert!(rt; two_are_served_at_once(&rt, rt.alloc(), 0)?);
    assert!(rt; two_are_served_at_once(&rt, rt.alloc(), 1)?);
    Ok(())
}

#[test]
fn shares_come_back_where_there_are_too_few(rt: HostRuntime) -> Result<(), Fail> {
    assert!(rt; fewer_shares_are_back(&rt, rt.alloc())?);
    Ok(())
}
