//! What a host makes of links in memory, in threads.
ghost use Rattle.std.specs.Prelude.{◌≤◌, ◌<◌, All, IfOk, length};
ghost use Rattle.tea_io.specs.MemNet.{HasNoCounts};

use crate::links::{link_of, silent_link};
use connection::Ended;
use held_gate::HeldGate;
use host_server::{Host, HostEnd, Hosted, host};
use reflect_server::ServeFault;
use std::alloc::Global;
use std::sync::Wait;
use std::test::Fail;
use std::thread::Threads;
use tea_base::{Numbers, SessionId, Text, WantOfMemory};
use tea_io::{FixedClock, Gate, MemLinks, MemNet};

/// What was hosted, or why nothing was.
type Outcome = Result<Hosted, ServeFault>;

/// The ids of two sessions.
const TWO: [SessionId; 2] = [SessionId([7; 32]), SessionId([9; 32])];

/// Which sessions are hosted, and whether others are made on demand.
#[derive(Clone, Copy)]
struct Listed<'a> {
    ids: &'a [SessionId],
    on_demand: bool,
}

/// Hosts new sessions, to two links of a net, at time 0.
fn host_two<G: Gate + Sync, R: Threads + Wait + Sync>(
    rt: &R,
    alloc: Global,
    net: MemNet,
    listed: Listed<'_>,
    gate: &G,
) -> Result<(MemNet, Outcome), WantOfMemory>
    requires { (0 < length listed.ids.now) × (length listed.ids.now ≤ 256) }
{
    let address = Text::copy(alloc, "here")?;
    let wanted = Host {
        ids: listed.ids,
        on_demand: listed.on_demand,
        address: &address,
        connections: 2,
        clock: &FixedClock { at: 0 },
        gate,
    };
    Ok(host(rt, alloc, &wanted, net))
}

/// 255 ids, of which the first bytes tell which is which.
fn many_ids() -> [SessionId; 255] {
    let mut ids = [SessionId([1; 32]); 255];
    for place in 0..255_u8 {
        let mut bytes = [1; 32];
        bytes[0] = place;
        ids[usize::from(place)] = SessionId(bytes);
    }
    ids
}

/// A link of the second session, and one of the first.
fn two_links(alloc: Global) -> Result<MemLinks, WantOfMemory>
    ensures { IfOk result (All HasNoCounts) }
{
    let second = link_of(alloc, 9, false)?;
    let first = link_of(alloc, 7, true)?;
    let mut links = MemLinks::new(alloc);
    links.push(second)?;
    links.push(first)?;
    Ok(links)
}

/// A link that ends without a frame, and one of a session that is not listed.
fn odd_links(alloc: Global) -> Result<MemLinks, WantOfMemory>
    ensures { IfOk result (All HasNoCounts) }
{
    let strange = link_of(alloc, 8, false)?;
    let mut links = MemLinks::new(alloc);
    links.push(silent_link(alloc))?;
    links.push(strange)?;
    Ok(links)
}

/// A link of a session that is not listed, and one of another.
fn new_links(alloc: Global, second: u8) -> Result<MemLinks, WantOfMemory>
    ensures { IfOk result (All HasNoCounts) }
{
    let one = link_of(alloc, 8, false)?;
    let other = link_of(alloc, second, true)?;
    let mut links = MemLinks::new(alloc);
    links.push(one)?;
    links.push(other)?;
    Ok(links)
}

/// Whether the session of an end is the one at this place, and the view of the link left it.
fn has_left(hosted: &Hosted, connection: usize, place: u32) -> bool {
    matches!(
        hosted.ends.get(connection),
        Some(HostEnd {
            session: Some(session),
            ended: Ended::Left
        }) if *session == place
    )
}

/// Whether the 256th session was made, and the link of one more was refused by the first session, which stays empty.
fn is_full(outcome: &Outcome) -> bool {
    let Ok(hosted) = outcome else {
        return false;
    };
    hosted.ids.len() == 256
        && hosted.sessions.len() == 256
        && has_left(hosted, 0, 255)
        && matches!(
            hosted.ends.get(1),
            Some(HostEnd {
                session: Some(0),
                ended: Ended::Refused { code: 12 }
            })
        )
        && matches!(hosted.sessions.get(0), Some(session) if session.log().len() == 0)
        && matches!(hosted.sessions.get(255), Some(session) if session.log().len() == 2)
}

/// Whether each of the two sessions has a Join and an Exit, and its own link.
fn serves_each(outcome: &Outcome) -> bool {
    let Ok(hosted) = outcome else {
        return false;
    };
    hosted.stopped.is_none()
        && hosted.ends.len() == 2
        && matches!(
            hosted.ends.get(0),
            Some(HostEnd {
                session: Some(1),
                ended: Ended::Left
            })
        )
        && matches!(
            hosted.ends.get(1),
            Some(HostEnd {
                session: Some(0),
                ended: Ended::Left
            })
        )
        && hosted.sessions.len() == 2
        && matches!(hosted.sessions.get(0), Some(session) if session.log().len() == 2)
        && matches!(hosted.sessions.get(1), Some(session) if session.log().len() == 2)
}

/// Whether one link had no session, and the other was refused by the first, which stays empty.
fn serves_neither(outcome: &Outcome) -> bool {
    let Ok(hosted) = outcome else {
        return false;
    };
    hosted.ends.len() == 2
        && matches!(
            hosted.ends.get(0),
            Some(HostEnd {
                session: None,
                ended: Ended::LinkEnd
            })
        )
        && matches!(
            hosted.ends.get(1),
            Some(HostEnd {
                session: Some(0),
                ended: Ended::Refused { code: 12 }
            })
        )
        && matches!(hosted.sessions.get(0), Some(session) if session.log().len() == 0)
}

/// Whether a worker was held, and each of two came to its first turn alone.
fn has_held_one_of_two(gate: &HeldGate) -> bool {
    gate.held() && gate.passes() == 2
}

/// Whether both links are served by their sessions, of which that of one worker is held until the other is through.
fn are_served_at_once<R: Threads + Wait + Sync>(
    rt: &R,
    alloc: Global,
    held: u32,
) -> Result<bool, WantOfMemory> {
    let net = MemNet::new(alloc, two_links(alloc)?, Numbers::new(alloc));
    let gate = HeldGate::new(held, 1);
    let listed = Listed {
        ids: &TWO,
        on_demand: false,
    };
    let (net, outcome) = host_two(rt, alloc, net, listed, &gate)?;
    Ok(has_held_one_of_two(&gate) && serves_each(&outcome) && net.over().len() == 2)
}

/// Whether a link without a frame has no session, and one of no session that is listed is refused by the first.
fn odd_links_are_told_apart<R: Threads + Wait + Sync>(
    rt: &R,
    alloc: Global,
) -> Result<bool, WantOfMemory> {
    let net = MemNet::new(alloc, odd_links(alloc)?, Numbers::new(alloc));
    let gate = HeldGate::new(0, 1);
    let listed = Listed {
        ids: &TWO,
        on_demand: false,
    };
    let (net, outcome) = host_two(rt, alloc, net, listed, &gate)?;
    Ok(serves_neither(&outcome) && net.over().len() == 2)
}

/// Whether the 256th session is made and no other, where the second link is held until the first is through.
fn no_more_are_made<R: Threads + Wait + Sync>(rt: &R, alloc: Global) -> Result<bool, WantOfMemory> {
    let net = MemNet::new(alloc, new_links(alloc, 6)?, Numbers::new(alloc));
    let gate = HeldGate::new(1, 1);
    let listed = Listed {
        ids: &many_ids(),
        on_demand: true,
    };
    let (net, outcome) = host_two(rt, alloc, net, listed, &gate)?;
    Ok(is_full(&outcome) && net.over().len() == 2)
}

#[test]
fn two_sessions_are_served_at_once(rt: HostRuntime) -> Result<(), Fail> {
    assert!(rt; are_served_at_once(&rt, rt.alloc(), 0)?);
    assert!(rt; are_served_at_once(&rt, rt.alloc(), 1)?);
    Ok(())
}

#[test]
fn a_link_of_no_session_is_refused(rt: HostRuntime) -> Result<(), Fail> {
    assert!(rt; odd_links_are_told_apart(&rt, rt.alloc())?);
    Ok(())
}

#[test]
fn a_257th_session_is_not_made(rt: HostRuntime) -> Result<(), Fail> {
    assert!(rt; no_more_are_made(&rt, rt.alloc())?);
    Ok(())
}
