//! The next link of a share.
ghost use Rattle.std.specs.Prelude.{◌≡◌, ℕ, IfErr, IfOk};
ghost use Rattle.run_steps.specs.Outside.{links_tell};
ghost use Rattle.host_posts.specs.Posts.{EndsBy};
ghost use Rattle.host_posts.specs.Shares.{HasGivenLink, HasWaited, end_of, share_tells};

use crate::posting::PostEnd;
use net_shares::{Share, Stop};
use std::sync::Wait;
use tea_io::NetFault;

/// Why no further link is taken of a share, by why it gave none.
fn end_of(fault: NetFault) -> PostEnd
    ensures { result ≡ end_of fault }
{
    match fault {
        NetFault::Failed => PostEnd::Failed,
        NetFault::WantOfMemory => PostEnd::WantOfMemory,
    }
}

/// Waits for the next link of a share, until it is to stop.
pub fn next_link<S: Share, T: Stop, R: Wait>(
    rt: &R,
    stop: &T,
    share: &mut S,
) -> Result<S::Conn, PostEnd>
    ensures link { IfOk result (λ link.
        HasGivenLink (share_tells S.Share) (links_tell S.Conn.Link) share.old share.new link) }
    ensures waited { IfErr result (λ _. HasWaited (share_tells S.Share) share.old share.new) }
    ensures ended { IfErr result (λ end. (links : ℕ)
        → EndsBy (T.may stop.now) links (S.faults share.old) (S.faults share.new) end) }
{
    for _ in rt.forever() {
        if stop.asks() {
            return Err(PostEnd::Stopped);
        }
        match share.accept() {
            Ok(Some(link)) => return Ok(link),
            Ok(None) => {}
            Err(fault) => return Err(end_of(fault)),
        }
    }
    unreachable!()
}
