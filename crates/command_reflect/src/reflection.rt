//! The reflection of a session, and what is put after it.
ghost use Rattle.std.specs.Prelude.{◌≡◌, [], ◌∷◌, IfOk};
ghost use Rattle.run_steps.specs.Steps.{Prints};
ghost use Rattle.command_outcome.specs.Outcome.{steps_of};
ghost use Rattle.command_reflect.specs.ReflectedSteps.{log_name, reflected_on_text, reflected_put, reflected_text};

use crate::text::{reflected_on_text, reflected_text};
use command_outcome::{Outcome, Put, Puts};
use command_words::ServingSpan;
use connection::Ended;
use host_posts::PostOutcome;
use reflector_core::Session;
use session_log::Room;
use std::alloc::Global;
use tea_base::{Blob, SessionId, Text, WantOfMemory};

/// Where a session is put in the end, with the memory for its bytes.
#[derive(Drop)]
pub struct LogPlace {
    /// The name of the file.
    pub name: Text,
    /// Memory for the largest session. It is taken before the reflector listens, so what the session comes to can be put whatever memory there
    /// is then.
    pub room: Room,
}

/// The reflection of a session.
#[derive(Drop)]
pub struct Reflection {
    /// The id of the session.
    pub id: SessionId,
    /// The session that goes on.
    pub opening: Session,
    /// The address at which its reflector listens.
    pub address: Text,
    /// How long it serves.
    pub span: ServingSpan,
    /// Where the session is put in the end.
    pub log: Option<LogPlace>,
}

/// The place of a log of this name, if there is one. It takes the memory for the largest session.
pub fn log_place(alloc: Global, name: Option<Text>) -> Result<Option<LogPlace>, WantOfMemory>
    ensures { IfOk result (λ place. log_name place ≡ name) }
{
    match name {
        None => Ok(None),
        Some(name) => Ok(Some(LogPlace {
            name,
            room: Room::new(alloc)?,
        })),
    }
}

/// What is put of a session after its reflector: the session as it is stored. Its bytes are written in memory that was taken before, so
/// this never fails.
pub fn reflected_put(log: LogPlace, session: &Session) -> Put
    ensures { result ≡ reflected_put log.name session.now.plain }
{
    let LogPlace { name, room } = log;
    Put {
        name,
        bytes: session.store_in(room),
    }
}

/// What is printed of a session after its reflector: how its connections ended, and what it has come to.
pub fn reflected_outcome(
    alloc: Global,
    ends: &[Ended],
    session: &Session,
) -> Result<Outcome, WantOfMemory>
    ensures { IfOk result (λ outcome. steps_of outcome.files outcome.text
        ≡ Prints (reflected_text ends.now session.now.plain) ∷ []) }
{
    let text = reflected_text(alloc, ends, session)?;
    Ok(Outcome {
        files: Puts::new(alloc),
        text: Blob::from_vec(text.into_bytes()),
    })
}

/// What is printed of a session after its posts: in which ways links and posts have ended, and what it has come to.
pub fn reflected_on_outcome(
    alloc: Global,
    posts: &[PostOutcome],
    session: &Session,
) -> Result<Outcome, WantOfMemory>
    ensures { IfOk result (λ outcome. steps_of outcome.files outcome.text
        ≡ Prints (reflected_on_text posts.now session.now.plain) ∷ []) }
{
    let text = reflected_on_text(alloc, posts, session)?;
    Ok(Outcome {
        files: Puts::new(alloc),
        text: Blob::from_vec(text.into_bytes()),
    })
}
