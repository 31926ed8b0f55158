//! From how connections ended, and what their sessions have come to, to the text that tells it.
ghost use Rattle.std.specs.Prelude.{◌≡◌, string_bytes, IfOk};
ghost use Rattle.command_reflect.specs.ReflectedSteps.{end_part};
ghost use Rattle.command_host.specs.HostedSteps.{connection_line, connection_lines, hosted_text, id_part, made_id, posts_text, session_line, session_lines, session_part};

use command_outcome::line_of_parts;
use command_posts::posts_lines;
use connection::Ended;
use host_posts::HostedOn;
use host_server::HostEnd;
use reflector_core::Session;
use std::alloc::Global;
use tea_base::{SessionId, WantOfMemory};
use text_lines::spell_numbers;

/// How a connection has ended, and the value that comes with it.
fn end_part(alloc: Global, ended: Ended) -> Result<String, WantOfMemory>
    ensures { IfOk result (λ text. string_bytes text ≡ end_part ended) }
{
    match ended {
        Ended::Left => spell_numbers(alloc, " left", &[]),
        Ended::LinkEnd => spell_numbers(alloc, " link-end", &[]),
        Ended::LinkFault => spell_numbers(alloc, " link-fault", &[]),
        Ended::Idle { quiets: _ } => spell_numbers(alloc, " idle", &[]),
        Ended::Stale { current } => spell_numbers(alloc, " stale", &[u64::from(current)]),
        Ended::Refused { code } => spell_numbers(alloc, " refused", &[u64::from(code)]),
        Ended::WantOfMemory => spell_numbers(alloc, " memory", &[]),
        Ended::Unkept => spell_numbers(alloc, " unkept", &[]),
    }
}

/// The session that served a connection, counted from 1.
fn session_part(alloc: Global, session: Option<u32>) -> Result<String, WantOfMemory>
    ensures { IfOk result (λ text. string_bytes text ≡ session_part session) }
{
    match session {
        None => spell_numbers(alloc, " session none", &[]),
        Some(place) => spell_numbers(alloc, " session", &[u64::from(place) + 1]),
    }
}

/// The line of the connection of this number.
fn connection_line(alloc: Global, number: u64, end: HostEnd) -> Result<String, WantOfMemory>
    ensures { IfOk result (λ line. string_bytes line ≡ connection_line number end) }
{
    let mut front = spell_numbers(alloc, "connection", &[number])?;
    front.push_str(session_part(alloc, end.session)?.as_str())?;
    line_of_parts(front, end_part(alloc, end.ended)?.as_str())
}

/// The lines of connections, in order.
fn connection_lines(alloc: Global, ends: &[HostEnd]) -> Result<String, WantOfMemory>
    ensures { IfOk result (λ text. string_bytes text ≡ connection_lines 0 ends.now) }
{
    let mut text = String::new(alloc);
    for (number, end) in ends.iter().enumerate() {
        text.push_str(connection_line(alloc, number as u64, *end)?.as_str())?;
    }
    Ok(text)
}

/// The id of a session, where it was made on demand: the numbers up to `listed` are those of the listed sessions.
fn made_id(listed: usize, number: usize, id: SessionId) -> Option<SessionId>
    ensures { result ≡ made_id listed number id }
{
    if number <= listed {
        return None;
    }
    Some(id)
}

/// The hexadecimal digits of the id of a session that was made on demand.
fn id_part(alloc: Global, made: Option<SessionId>) -> Result<String, WantOfMemory>
    ensures { IfOk result (λ text. string_bytes text ≡ id_part made) }
{
    let mut text = String::new(alloc);
    if let Some(id) = made {
        text.push_str(" id ")?;
        text.push_str(hex::encode(alloc, id.0.as_slice())?.as_str())?;
    }
    Ok(text)
}

/// The line of the session of this number: how many entries its log has, its horizon, and its id if it was made on demand.
fn session_line(
    alloc: Global,
    number: u64,
    made: Option<SessionId>,
    session: &Session,
) -> Result<String, WantOfMemory>
    ensures { IfOk result (λ line. string_bytes line ≡ session_line number made session.now) }
{
    let mut front = spell_numbers(alloc, "session", &[number])?;
    let entries = spell_numbers(alloc, " entries", &[u64::from(session.log().len())])?;
    front.push_str(entries.as_str())?;
    front.push_str(spell_numbers(alloc, " time", &[session.horizon()])?.as_str())?;
    line_of_parts(front, id_part(alloc, made)?.as_str())
}

/// The lines of the sessions of these ids, in order.
fn session_lines(
    alloc: Global,
    listed: usize,
    ids: &[SessionId],
    sessions: &[Session],
) -> Result<String, WantOfMemory>
    ensures { IfOk result (λ text. string_bytes text ≡ session_lines listed 1 ids.now sessions.now) }
{
    let mut text = String::new(alloc);
    for (place, session) in sessions.iter().enumerate() {
        let Some(id) = ids.get(place) else {
            return Ok(text);
        };
        let made = made_id(listed, place + 1, *id);
        text.push_str(session_line(alloc, place as u64 + 1, made, session)?.as_str())?;
    }
    Ok(text)
}

/// What is printed of sessions after their host, so many of which were listed: a line for each connection, and then one for each session.
pub fn hosted_text(
    alloc: Global,
    listed: usize,
    ids: &[SessionId],
    ends: &[HostEnd],
    sessions: &[Session],
) -> Result<String, WantOfMemory>
    ensures { IfOk result (λ text. string_bytes text ≡ hosted_text listed ids.now ends.now sessions.now) }
{
    let mut text = connection_lines(alloc, ends)?;
    text.push_str(session_lines(alloc, listed, ids, sessions)?.as_str())?;
    Ok(text)
}

/// What is printed of sessions after their posts, so many of which were listed: the line of the links, that of the posts, and then a line for each
/// session.
pub fn posts_text(alloc: Global, listed: usize, hosted: &HostedOn) -> Result<String, WantOfMemory>
    ensures { IfOk result (λ text. string_bytes text ≡ posts_text listed hosted.now.ids hosted.now.posts hosted.now.sessions) }
{
    let (ids, sessions) = (hosted.ids.as_slice(), hosted.sessions.as_slice());
    let mut text = posts_lines(alloc, hosted.posts.as_slice())?;
    text.push_str(session_lines(alloc, listed, ids, sessions)?.as_str())?;
    Ok(text)
}
