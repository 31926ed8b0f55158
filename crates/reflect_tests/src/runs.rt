//! What a reflector makes of links in memory, in threads.
ghost use Rattle.std.specs.Prelude.{All, IfOk};
ghost use Rattle.tea_io.specs.MemNet.{HasNoCounts};

use crate::links::{FIRST_SEND, LEAVE, link_of};
use connection::Ended;
use held_gate::HeldGate;
use reflect_server::{Reflected, ServeFault, Server, reflect};
use reflector_core::Session;
use std::alloc::Global;
use std::sync::Wait;
use std::test::Fail;
use std::thread::Threads;
use tea_base::{Numbers, SessionId, Text, WantOfMemory};
use tea_io::{FixedClock, Gate, MemLinks, MemNet};

/// What was served, or why nothing was.
type Outcome = Result<Reflected, ServeFault>;

/// Reflects a new session to two links of a net, at time 0.
fn reflect_at_0<G: Gate + Sync, R: Threads + Wait + Sync>(
    rt: &R,
    alloc: Global,
    net: MemNet,
    gate: &G,
) -> Result<(MemNet, Outcome), WantOfMemory> {
    let address = Text::copy(alloc, "here")?;
    let server = Server {
        id: SessionId([7; 32]),
        address: &address,
        connections: 2,
        clock: &FixedClock { at: 0 },
        gate,
    };
    Ok(reflect(rt, alloc, &server, Session::new(alloc), net))
}

/// A link of the view 7, which sends, and one of the view 8, which leaves.
fn two_links(alloc: Global) -> Result<MemLinks, WantOfMemory>
    ensures { IfOk result (All HasNoCounts) }
{
    let first = link_of(alloc, 7, FIRST_SEND)?;
    let second = link_of(alloc, 8, LEAVE)?;
    let mut links = MemLinks::new(alloc);
    links.push(first)?;
    links.push(second)?;
    Ok(links)
}

fn serves_two_views(outcome: &Outcome) -> bool {
    let Ok(reflected) = outcome else {
        return false;
    };
    matches!(reflected.stopped, None)
        && reflected.ends.len() == 2
        && matches!(reflected.ends.get(0), Some(Ended::LinkEnd))
        && matches!(reflected.ends.get(1), Some(Ended::Left))
        && reflected.session.log().len() == 5
}

/// Whether the first of two links heard SEND and the end, and the second only LEAVE.
fn gave_two_links(net: &MemNet) -> bool {
    net.over().len() == 2
        && matches!(net.over().get(0), Some(link) if link.heard().len() == 3)
        && matches!(net.over().get(1), Some(link) if link.heard().len() == 2)
}

/// Whether a worker was held, and each of two came to its first turn alone.
fn has_held_one_of_two(gate: &HeldGate) -> bool {
    gate.held() && gate.passes() == 2
}

/// Whether two views are served, of which that of one worker is held until the other is through.
fn are_served_at_once<R: Threads + Wait + Sync>(
    rt: &R,
    alloc: Global,
    held: u32,
) -> Result<bool, WantOfMemory> {
    let net = MemNet::new(alloc, two_links(alloc)?, Numbers::new(alloc));
    let gate = HeldGate::new(held, 1);
    let (net, outcome) = reflect_at_0(rt, alloc, net, &gate)?;
    Ok(has_held_one_of_two(&gate) && serves_two_views(&outcome) && gave_two_links(&net))
}

#[test]
fn two_views_are_served_at_once(rt: HostRuntime) -> Result<(), Fail> {
    assert!(rt; are_served_at_once(&rt, rt.alloc(), 0)?);
    assert!(rt; are_served_at_once(&rt, rt.alloc(), 1)?);
    Ok(())
}
