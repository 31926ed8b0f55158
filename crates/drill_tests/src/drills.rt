//! A drill of two views, of which one is held.
use drill::{Size, drill};
use held_gate::HeldGate;
use std::alloc::Global;
use std::sync::Wait;
use std::test::Fail;
use std::thread::Threads;
use tea_base::WantOfMemory;
use tea_io::FixedClock;

/// Two views with two events each.
const TWO_VIEWS: Size = Size {
    seed: 0,
    views: 2,
    events: 2,
};

/// Whether two views agree at time 0, of which one is held until the other has come to its second turn.
fn agree_when_one_is_held<R: Threads + Wait + Sync>(
    rt: &R,
    alloc: Global,
    held: u32,
) -> Result<bool, WantOfMemory> {
    let gate = HeldGate::new(held, 2);
    let report = drill(rt, alloc, TWO_VIEWS, &FixedClock { at: 0 }, &gate)?;
    Ok(gate.held() && report.agree == 2)
}

/// Two views work at one time, whichever is called first.
#[test]
fn two_threads(rt: HostRuntime) -> Result<(), Fail> {
    assert!(rt; agree_when_one_is_held(&rt, rt.alloc(), 0)?);
    assert!(rt; agree_when_one_is_held(&rt, rt.alloc(), 1)?);
    Ok(())
}
