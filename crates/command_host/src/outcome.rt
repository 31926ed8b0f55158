//! What is printed of sessions after their host.
ghost use Rattle.std.specs.Prelude.{◌≡◌, [], ◌∷◌, IfOk};
ghost use Rattle.run_steps.specs.Steps.{Prints};
ghost use Rattle.command_outcome.specs.Outcome.{steps_of};
ghost use Rattle.command_host.specs.HostedSteps.{hosted_text, posts_text};

use crate::text::{hosted_text, posts_text};
use command_outcome::{Outcome, Puts};
use host_posts::HostedOn;
use host_server::HostEnd;
use reflector_core::Session;
use std::alloc::Global;
use tea_base::{Blob, SessionId, WantOfMemory};

/// What is printed of sessions after their host, so many of which were listed: how their connections ended, and what each has come to.
pub fn hosted_outcome(
    alloc: Global,
    listed: usize,
    ids: &[SessionId],
    ends: &[HostEnd],
    sessions: &[Session],
) -> Result<Outcome, WantOfMemory>
    ensures { IfOk result (λ outcome. steps_of outcome.files outcome.text ≡ Prints (hosted_text listed ids.now ends.now sessions.now)
        ∷ []) }
{
    let text = hosted_text(alloc, listed, ids, ends, sessions)?;
    Ok(Outcome {
        files: Puts::new(alloc),
        text: Blob::from_vec(text.into_bytes()),
    })
}

/// What is printed of sessions after their posts, so many of which were listed: in which ways links and posts have ended, and what each session has
/// come to.
pub fn posts_outcome(
    alloc: Global,
    listed: usize,
    hosted: &HostedOn,
) -> Result<Outcome, WantOfMemory>
    ensures { IfOk result (λ outcome. steps_of outcome.files outcome.text
        ≡ Prints (posts_text listed hosted.now.ids hosted.now.posts hosted.now.sessions) ∷ []) }
{
    let text = posts_text(alloc, listed, hosted)?;
    Ok(Outcome {
        files: Puts::new(alloc),
        text: Blob::from_vec(text.into_bytes()),
    })
}
