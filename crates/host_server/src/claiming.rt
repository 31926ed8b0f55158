//! Which session a link goes to, where ids may be claimed.
ghost use Rattle.std.specs.Prelude.{◌≡◌, ◌<◌, Some, false, length, slice_get, true};
ghost use Rattle.host_server.specs.Claiming.{ClaimsFor, InTheEnd, IsTarget};
ghost use Rattle.host_server.specs.Rows.{most_sessions, rooms_for};

use crate::routing::{named_in, place_for};
use crate::serving::HostService;
use id_claims::{ClaimPass, Claims};
use reflector_core::Keeper;
use std::sync::Wait;
use tea_base::SessionId;
use tea_io::{Clock, Gate};

/// The session that a link goes to: its place, and its id.
#[derive(Clone, Copy, Debug, PartialEq, Eq)]
pub struct Target {
    pub place: usize,
    pub id: SessionId,
}

/// The session at the first place.
fn first_target(listed: &[SessionId]) -> Target
    requires { 0 < length listed.now }
    ensures { (result.place ≡ 0) × (slice_get listed.now 0 ≡ Some result.id) }
{
    Target {
        place: 0,
        id: listed[0],
    }
}

/// The session that a first frame goes to, where none is made on demand.
fn listed_target(listed: &[SessionId], first: &[u8]) -> Target
    requires { 0 < length listed.now }
    ensures within { result.place < length listed.now }
    ensures target { IsTarget false listed.now first.now result.place result.id }
{
    let place = place_for(listed, first);
    Target {
        place,
        id: listed[place],
    }
}

/// The session that a first frame goes to: that of the id which it claims, and else the first.
fn claimed_target<R: Wait>(
    rt: &R,
    claims: &Claims,
    claim: &mut ClaimPass,
    listed: &[SessionId],
    first: &[u8],
) -> Target
    requires some { 0 < length listed.now }
    requires claims { claim.old.claims ≡ claims.now.claims }
    ensures within { result.place < most_sessions }
    ensures claim { ClaimsFor true first.now claim.old claim.new }
    ensures target { InTheEnd true listed.now claim.new.seen
        (λ ids. IsTarget true ids first.now result.place result.id) }
{
    let Some(id) = named_in(first) else {
        return first_target(listed);
    };
    match claims.claim(rt, claim, &id) {
        Some(place) => Target { place, id },
        None => first_target(listed),
    }
}

/// The session that a first frame goes to. Where sessions are made on demand, this makes it.
pub fn target_of<C: Clock, G: Gate, R: Wait, K: Keeper>(
    service: &HostService<'_, C, G, R, K>,
    claim: &mut ClaimPass,
    first: &[u8],
) -> Target
    requires some { 0 < length service.now.host.now.ids.now }
    requires claims { claim.old.claims ≡ service.now.claims.now.claims }
    ensures within { result.place < rooms_for service.now.host.now.on_demand service.now.host.now.ids.now }
    ensures claim { ClaimsFor service.now.host.now.on_demand first.now claim.old claim.new }
    ensures target { InTheEnd service.now.host.now.on_demand service.now.host.now.ids.now claim.new.seen
        (λ ids. IsTarget service.now.host.now.on_demand ids first.now result.place result.id) }
{
    let host = service.host;
    if host.on_demand {
        claimed_target(service.rt, service.claims, claim, host.ids, first)
    } else {
        listed_target(host.ids, first)
    }
}
