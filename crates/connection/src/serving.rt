//! A connection from its first frame to its end.
ghost use Rattle.std.specs.Prelude.{◌≡◌, true, List, [], ◌∷◌, ◌++◌};
ghost use Rattle.session_lock.specs.declared.knowledge.Item.{Item};
ghost use Rattle.session_lock.specs.History.{calls_of};
ghost use Rattle.session_lock.specs.Passes.{caller};
ghost use Rattle.connection.specs.Causes.{EndsExactly, IsCauseCounted};
ghost use Rattle.session_lock.specs.Keeping.{SomeShut};
ghost use Rattle.connection.specs.declared.ending.Ended.TheVariants as ended;
ghost use Rattle.connection.specs.Exchanges.{IsMadeSo, exchanges_in};
ghost use Rattle.connection.specs.Phases.{Opening, Over, halt_phase};
ghost use Rattle.connection.specs.Talk.{HasTalked, TalksOn, account, link_account};

use crate::asking::Service;
use crate::ending::{Ended, Halt};
use crate::opening::{begin, first_frame};
use crate::turns::{converse, leave};
use reflector_core::Keeper;
use session_lock::{Pass, SharedSession, TrustAll};
use std::alloc::Global;
use std::sync::Wait;
use tea_base::SessionId;
use tea_io::{Clock, Link};

/// Talks until nothing is left but to leave.
fn talk<C: Clock, R: Wait, K: Keeper, L: Link>(
    service: &Service<'_, C, R, K>,
    pass: &mut Pass<K>,
    link: &mut L,
) -> Halt
    requires session { pass.old.session ≡ service.now.shared.now.session }
    ensures kept { pass.new ≡ record pass.old { seen = pass.new.seen } }
    ensures talk { TalksOn (IsMadeSo (C.gives service.now.clock.now) (SomeShut K.shut)) service.now.id (Opening 0)
        (halt_phase result) (account pass.old (link_account L.Link link.old))
        (account pass.new (link_account L.Link link.new)) }
{
    let bytes = match first_frame(service, link) {
        Ok(bytes) => bytes,
        Err(ended) => return Halt::Over(ended),
    };
    match begin(service, pass, link, &bytes) {
        Ok(cursor) => converse(service, pass, link, cursor),
        Err(halt) => halt,
    }
}

/// Talks, and leaves where that is left to do.
fn talk_to_end<C: Clock, R: Wait, K: Keeper, L: Link>(
    service: &Service<'_, C, R, K>,
    pass: &mut Pass<K>,
    link: &mut L,
) -> Ended
    requires session { pass.old.session ≡ service.now.shared.now.session }
    ensures kept { pass.new ≡ record pass.old { seen = pass.new.seen } }
    ensures talk { TalksOn (IsMadeSo (C.gives service.now.clock.now) (SomeShut K.shut)) service.now.id (Opening 0)
        (Over result) (account pass.old (link_account L.Link link.old))
        (account pass.new (link_account L.Link link.new)) }
{
    match talk(service, pass, link) {
        Halt::Over(ended) => ended,
        Halt::Leave { cursor, ended } => {
            leave(service, pass, &cursor);
            ended
        }
    }
}

/// Talks to the end, and then closes the link.
fn serve<C: Clock, R: Wait, K: Keeper, L: Link>(
    service: &Service<'_, C, R, K>,
    pass: &mut Pass<K>,
    link: &mut L,
) -> Ended
    requires session { pass.old.session ≡ service.now.shared.now.session }
    ensures kept { pass.new ≡ record pass.old { seen = pass.new.seen } }
    ensures talk { TalksOn (IsMadeSo (C.gives service.now.clock.now) (SomeShut K.shut)) service.now.id (Opening 0)
        (Over result) (account pass.old (link_account L.Link link.old))
        (account pass.new (link_account L.Link link.new)) }
    ensures closed { L.closed link.new ≡ true }
{
    let ended = talk_to_end(service, pass, link);
    link.close();
    ended
}

/// Serves a connection from its first frame to its end, and then closes its link. The pass's own caller has made no call yet. A call that
/// is not kept has no answer, and ends the connection as Unkept.
pub fn serve_connection<L: Link, C: Clock, R: Wait, K: Keeper>(
    rt: &R,
    alloc: Global,
    shared: &SharedSession<TrustAll, K>,
    pass: &mut Pass<K>,
    id: SessionId,
    link: &mut L,
    clock: &C,
) -> Ended
    requires session { pass.old.session ≡ shared.now.session }
    requires fresh { calls_of (caller pass.old ∷ []) pass.old.seen ≡ [] }
    ensures kept { pass.new ≡ record pass.old { seen = pass.new.seen } }
    ensures later { (rest : List Item) × (pass.old.seen ++ rest ≡ pass.new.seen) }
    ensures talk { HasTalked (C.gives clock.now) id pass.new (link_account L.Link link.old)
        (link_account L.Link link.new) result }
    ensures exactly { EndsExactly result (exchanges_in pass.new.opening pass.new.seen (caller pass.new)) }
    ensures unkept { result ≡ ended.Unkept → SomeShut K.shut }
    ensures cause { IsCauseCounted (L.counts link.old) (L.counts link.new) result }
    ensures closed { L.closed link.new ≡ true }
{
    let service = Service {
        rt,
        alloc,
        shared,
        id,
        clock,
    };
    serve(&service, pass, link)
}
