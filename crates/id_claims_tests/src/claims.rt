//! Threads that claim ids at once.
ghost use Rattle.std.specs.Prelude.{◌≡◌, ◌+◌, ◌<◌, All, IfOk};

use id_claims::{ClaimPass, Claims, MOST_IDS};
use std::alloc::Global;
use std::process::Abort;
use std::sync::Wait;
use std::test::Fail;
use std::thread::{Threads, join};
use tea_base::{SessionId, WantOfMemory};

/// How many threads claim at once in the largest test, how many ids there are, and how many of them each thread claims.
const CROWD: u32 = 64;

const IDS: usize = 300;

const CLAIMS: usize = 75;

/// The place that a thread was told for the id of a number.
#[derive(Clone, Copy)]
struct Told {
    number: usize,
    place: Option<usize>,
}

/// An id for each number.
fn id_of(number: usize) -> SessionId {
    let mut bytes = [7; 32];
    bytes[0] = (number % 256) as u8;
    bytes[31] = (number / 256 % 256) as u8;
    SessionId(bytes)
}

/// Claims ids, from this number on and round.
fn claim_some<R: Wait>(
    rt: &R,
    alloc: Global,
    claims: &Claims,
    mut pass: ClaimPass,
    first: usize,
) -> Result<Vec<Told>, WantOfMemory>
    requires { pass.claims ≡ claims.now.claims }
{
    let mut told = Vec::new(alloc);
    for step in 0..CLAIMS {
        let number = first.wrapping_add(step) % IDS;
        let place = claims.claim(rt, &mut pass, &id_of(number));
        told.push(Told { number, place })?;
    }
    Ok(told)
}

/// So many passes.
fn passes_of(
    alloc: Global,
    claims: &Claims,
    lead: &mut ClaimPass,
    count: u32,
) -> Result<Vec<ClaimPass>, WantOfMemory>
    requires claims { lead.old.claims ≡ claims.now.claims }
    requires enough { count < lead.old.parts }
    ensures { IfOk result (λ passes. All (λ pass. pass.claims ≡ claims.now.claims) passes.items) }
{
    let mut passes = Vec::new(alloc);
    for _made in 0..count {
        passes.push(claims.split(lead))?;
    }
    Ok(passes)
}

/// A thread for each pass claims ids, each from another number on. Tells what all were told.
fn crowd_claims<R: Threads + Wait + Sync>(
    rt: &R,
    alloc: Global,
    claims: &Claims,
    mut passes: Vec<ClaimPass>,
) -> Result<Vec<Told>, WantOfMemory>
    requires { All (λ pass. pass.claims ≡ claims.now.claims) passes.items }
{
    let first = passes.len().wrapping_mul(5);
    let Some(pass) = passes.pop() else {
        return Ok(Vec::new(alloc));
    };
    let (own, others) = join(
        rt,
        || -> Result<Vec<Told>, WantOfMemory>
            requires { pass.claims ≡ claims.now.claims }
        { claim_some(rt, alloc, claims, pass, first) },
        || -> Result<Vec<Told>, WantOfMemory>
            requires { All (λ pass. pass.claims ≡ claims.now.claims) passes.items }
        { crowd_claims(rt, alloc, claims, passes) },
    );
    let mut told = others?;
    for one in &own? {
        told.push(*one)?;
    }
    Ok(told)
}

/// All who claimed an id were told the same place, which no other id has; and 44 of 300 ids have none.
fn look_at_places<R: Abort>(rt: &R, told: &[Told]) -> Result<(), Fail> {
    let mut places = [None; IDS];
    for one in told {
        let at = one.number % IDS;
        if let Some(place) = places[at] {
            assert_eq!(rt; place, one.place);
        }
        places[at] = Some(one.place);
    }
    let mut taken = [false; MOST_IDS];
    let mut none = 0_usize;
    for claimed in &places {
        match claimed.ok_or("an id was not claimed")? {
            Some(place) => {
                assert!(rt; place < MOST_IDS && !taken[place]);
                taken[place] = true;
            }
            None => none = none.saturating_add(1),
        }
    }
    assert_eq!(rt; none, IDS - MOST_IDS);
    Ok(())
}

#[test]
fn each_id_has_one_place_and_no_place_two_ids(rt: HostRuntime) -> Result<(), Fail> {
    let alloc = rt.alloc();
    let (claims, mut lead) = Claims::new(alloc, &[])?;
    let passes = passes_of(alloc, &claims, &mut lead, CROWD)?;
    let told = crowd_claims(&rt, alloc, &claims, passes)?;
    look_at_places(&rt, &told)
}

/// Claims two ids, one after the other.
fn claim_two<R: Wait>(
    rt: &R,
    claims: &Claims,
    mut pass: ClaimPass,
    first: usize,
    second: usize,
) -> (ClaimPass, Option<usize>, Option<usize>)
    requires { pass.claims ≡ claims.now.claims }
    ensures claims { result.0.claims ≡ claims.now.claims }
    ensures parts { result.0.parts ≡ pass.parts }
{
    let one = claims.claim(rt, &mut pass, &id_of(first));
    let two = claims.claim(rt, &mut pass, &id_of(second));
    (pass, one, two)
}

/// What two threads were told, and the list in the end.
#[derive(Drop)]
struct Left {
    ids: Vec<SessionId>,
    listed: Option<usize>,
    own: Option<usize>,
    other: Option<usize>,
    shared: Option<usize>,
}

/// Two ids are listed, and two threads claim two each at once. One is listed, and one they both claim.
fn claim_at_once<R: Threads + Wait + Sync>(rt: &R, alloc: Global) -> Result<Left, Fail> {
    let (claims, mut lead) = Claims::new(alloc, &[id_of(0), id_of(1)])?;
    let pass = claims.split(&mut lead);
    let ((mut lead, listed, own), (pass, other, shared)) = join(
        rt,
        || -> (ClaimPass, Option<usize>, Option<usize>)
            requires { lead.claims ≡ claims.claims }
            ensures claims { result.0.claims ≡ claims.claims }
            ensures parts { result.0.parts ≡ lead.parts }
        { claim_two(rt, &claims, lead, 1, 2) },
        || -> (ClaimPass, Option<usize>, Option<usize>)
            requires { pass.claims ≡ claims.claims }
            ensures claims { result.0.claims ≡ claims.claims }
            ensures parts { result.0.parts ≡ pass.parts }
        { claim_two(rt, &claims, pass, 3, 2) },
    );
    claims.merge(&mut lead, pass);
    let ids = claims.close(lead);
    Ok(Left {
        ids,
        listed,
        own,
        other,
        shared,
    })
}

#[test]
fn the_list_has_what_was_listed_and_then_what_was_claimed(rt: HostRuntime) -> Result<(), Fail> {
    let left = claim_at_once(&rt, rt.alloc())?;
    let first = [id_of(0), id_of(1)];
    let ids = &left.ids;
    assert_eq!(rt; ids.len(), 4);
    assert!(rt; ids[0] == first[0] && ids[1] == first[1]);
    assert_eq!(rt; left.listed, Some(1));
    assert_eq!(rt; left.own, left.shared);
    let own = left.own.ok_or("no place")?;
    let other = left.other.ok_or("no place")?;
    assert!(rt; own.saturating_add(other) == 5 && own < 4 && other < 4);
    assert!(rt; ids[own] == id_of(2) && ids[other] == id_of(3));
    Ok(())
}
