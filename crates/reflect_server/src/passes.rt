//! The passes of a session that connections are served by.
ghost use Rattle.std.specs.Prelude.{◌≡◌, ◌+◌, ◌≤◌, [], All, vec_len, vec_capacity};
ghost use Rattle.session_lock.specs.Numbers.{count_of};
ghost use Rattle.session_lock.specs.Passes.{numbers_held};
ghost use Rattle.reflect_server.specs.Passes.{IsFresh, Keeps};

use reflector_core::Keeper;
use session_lock::{Pass, SharedSession, TrustAll};

/// So many passes, split off the lead pass. There is room for them.
pub fn split_all<K: Keeper>(
    shared: &SharedSession<TrustAll, K>,
    lead: &mut Pass<K>,
    mut passes: Vec<Pass<K>>,
    count: u32,
) -> Vec<Pass<K>>
    requires session { lead.old.session ≡ shared.now.session }
    requires enough { count ≤ count_of lead.old.spare }
    requires room { (passes.items ≡ []) × (count ≤ vec_capacity passes) }
    ensures lead { lead.new ≡ record lead.old { spare = lead.new.spare } }
    ensures passes { All (IsFresh lead.old) result.items }
    ensures count { vec_len result ≡ count }
    ensures numbers { numbers_held lead.new + count ≡ numbers_held lead.old }
{
    for _made in 0..count {
        let Ok(pass) = shared.split(lead, 0) else {
            unreachable!()
        };
        passes.push_reserved(pass);
    }
    passes
}

/// Merges passes that have served no link into the lead pass.
pub fn merge_all<K: Keeper>(
    shared: &SharedSession<TrustAll, K>,
    mut lead: Pass<K>,
    mut passes: Vec<Pass<K>>,
) -> Pass<K>
    requires session { lead.session ≡ shared.now.session }
    requires lead { Keeps lead lead }
    requires passes { All (IsFresh lead) passes.items }
    ensures lead { Keeps lead result }
    ensures numbers { numbers_held result ≡ numbers_held lead + vec_len passes }
{
    while let Some(pass) = passes.pop() {
        shared.merge(&mut lead, pass);
    }
    lead
}
