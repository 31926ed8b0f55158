//! The frames of events.
ghost use Rattle.std.specs.Prelude.{◌≡◌, ◌<◌, ◌+◌, ◌^◌, length, IfOk};
ghost use Rattle.replica_plain.specs.Calls.{sends_after};

use std::alloc::Global;
use tea_base::{Blob, List, WantOfMemory};
use wire_frames::{ClientFrame, ClientFrames};

/// The frames of payloads whose numbers begin behind this one.
pub(crate) fn sends(
    alloc: Global,
    given: u32,
    payloads: &[Blob],
) -> Result<ClientFrames, WantOfMemory>
    requires { given + length payloads.now < 2 ^ 32 }
    ensures { IfOk result (λ frames. frames ≡ sends_after given payloads.now) }
{
    let mut frames = List::new(alloc);
    let mut number = given;
    for payload in payloads {
        number += 1;
        frames.push(ClientFrame::Send {
            number,
            payload: Blob::copy(alloc, payload.bytes())?,
        })?;
    }
    Ok(frames)
}
