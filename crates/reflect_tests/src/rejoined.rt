//! A connection whose view joins by another pass as well.
ghost use Rattle.std.specs.Prelude.{◌≡◌, None};

use crate::links::{FIRST_SEND, link_of};
use connection::{Ended, serve_connection};
use reflector_core::{Request, Session, Want};
use session_lock::{Pass, SharedSession, TrustAll};
use std::alloc::Global;
use std::sync::Wait;
use std::test::Fail;
use tea_base::SessionId;
use tea_io::{FixedClock, Heard, Link, LinkFault, MemLink};
use wire_frames::{RefusalCode, SEND_TAG, ServerFrame, write_server};

const ID: SessionId = SessionId([7; 32]);

const VIEW: u32 = 7;

/// The frame that refuses a SEND as that of an old connection, where the view's last join is the entry 2.
const STALE_SEND: ServerFrame = ServerFrame::Refused {
    about: SEND_TAG,
    code: RefusalCode::Stale as u8,
    kept: 2,
    more: 0,
};

/// A link of the view. Between its first two frames another pass joins as this view.
#[derive(Drop)]
struct RejoinedLink<'a, R: Wait> {
    rt: &'a R,
    shared: &'a SharedSession<TrustAll>,
    pass: Pass,
    receives: u32,
    link: MemLink,
    ghost within: { pass.session ≡ shared.now.session },
}

/// The view joins by this pass.
fn join<R: Wait>(rt: &R, shared: &SharedSession<TrustAll>, pass: &mut Pass)
    requires { pass.old.session ≡ shared.now.session }
    ensures { pass.new.session ≡ shared.now.session }
{
    let request = Request::Join {
        view: VIEW,
        now: 0,
        want: Want::Whole,
    };
    let _ = shared.call(rt, pass, &request);
}

impl<'a, R: Wait> Link for RejoinedLink<'a, R> {
    ghost coming = { λ link. None };

    ghost heard = { λ link. None };

    ghost sent = { λ link. None };

    ghost counts = { λ link. link.link.counts };

    ghost closed = { λ link. link.link.closed };

    fn recv(&mut self) -> Heard {
        self.receives = self.receives.saturating_add(1);
        if self.receives == 2 {
            join(self.rt, self.shared, &mut self.pass);
        }
        self.link.recv()
    }

    fn send(&mut self, frame: &[u8]) -> Result<(), LinkFault> {
        self.link.send(frame)
    }

    fn close(&mut self) {
        self.link.close();
    }
}

/// Whether the SEND of the link is refused as that of an old connection, which ends by that.
fn is_refused_as_stale<R: Wait>(rt: &R, alloc: Global) -> Result<bool, Fail> {
    let (shared, mut first) = SharedSession::new(alloc, ID, Session::new(alloc), TrustAll)
        .ok()
        .ok_or("memory")?;
    let pass = shared.split(&mut first, 0)?;
    let mut link = RejoinedLink {
        rt,
        shared: &shared,
        pass,
        receives: 0,
        link: link_of(alloc, 7, FIRST_SEND)?,
    };
    let clock = FixedClock { at: 0 };
    let ended = serve_connection(rt, alloc, &shared, &mut first, ID, &mut link, &clock);
    let refused = write_server(alloc, &STALE_SEND)?;
    let sent = link.link.sent().last();
    Ok(
        ended == Ended::Stale { current: 2 }
            && matches!(sent, Some(frame) if frame.is_bytes(refused.bytes())),
    )
}

#[test]
fn a_send_after_another_join_is_refused(rt: HostRuntime) -> Result<(), Fail> {
    assert!(rt; is_refused_as_stale(&rt, rt.alloc())?);
    Ok(())
}
