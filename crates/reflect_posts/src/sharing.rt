//! Shares that a net gives, one for each post.
ghost use Rattle.std.specs.Prelude.{◌≡◌, ◌+◌, ◌≤◌, [], All, IfErr, OnErr, OnOk, replicate, vec_len, vec_capacity};
ghost use Rattle.run_steps.specs.Outside.{links_tell, net_tells};
ghost use Rattle.tea_io.specs.Told.{Rose};
ghost use Rattle.tea_io.specs.declared.net.NetFault.TheVariants.{Failed};
ghost use Rattle.host_posts.specs.Hosts.{HasGivenNone, HasIdleBack, idle_post};
ghost use Rattle.host_posts.specs.Shares.{HasShares, IsUnused, share_tells};

use net_shares::SharedNet;
use tea_io::NetFault;

/// The net takes back shares that have given no link.
fn give_back<N: SharedNet + Drop>(net: &mut N, shares: &mut Vec<N::Part>)
    requires shared { vec_len shares.old ≤ N.shared net.old }
    requires unused { All (IsUnused (net_tells N.Net) (share_tells N.Part.Share) net.old) shares.old.items }
    ensures shared { N.shared net.new + vec_len shares.old ≡ N.shared net.old }
    ensures back { HasShares (net_tells N.Net) (links_tell N.Conn.Link) net.old net.new
        (replicate (vec_len shares.old) idle_post) }
{
    while let Some(share) = shares.pop() {
        net.rejoin(share);
    }
}

/// Takes so many shares of the net. There is room for them. If the net gives fewer, it has them back.
pub(crate) fn take_shares<N: SharedNet + Drop>(
    net: &mut N,
    shares: &mut Vec<N::Part>,
    count: u32,
) -> Result<(), NetFault>
    requires { (shares.old.items ≡ []) × (count ≤ vec_capacity shares.old) }
    ensures unused { OnOk result (All (IsUnused (net_tells N.Net) (share_tells N.Part.Share) net.new) shares.new.items) }
    ensures number { OnOk result (vec_len shares.new ≡ count) }
    ensures shared { OnOk result (N.shared net.new ≡ N.shared net.old + count) }
    ensures none_shared { OnErr result (N.shared net.new ≡ N.shared net.old) }
    ensures none_given { OnOk result (HasGivenNone (net_tells N.Net) net.old net.new) }
    ensures back { OnErr result (HasIdleBack (net_tells N.Net) (links_tell N.Conn.Link) net.old net.new) }
    ensures asked { N.asked net.new ≡ N.asked net.old }
    ensures cause { IfErr result (λ fault. fault ≡ Failed → Rose (N.faults net.old) (N.faults net.new)) }
{
    for _taken in 0..count {
        match net.share() {
            Ok(share) => shares.push_reserved(share),
            Err(fault) => {
                give_back(net, shares);
                return Err(fault);
            }
        }
    }
    Ok(())
}
