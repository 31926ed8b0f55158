//! From how connections ended, and what their session has come to, to the text that tells it.
ghost use Rattle.std.specs.Prelude.{◌≡◌, string_bytes, IfOk};
ghost use Rattle.command_reflect.specs.ReflectedSteps.{end_part, end_line, end_lines, session_line, reflected_on_text, reflected_text};

use command_outcome::line_of_parts;
use command_posts::posts_lines;
use connection::Ended;
use host_posts::PostOutcome;
use reflector_core::Session;
use std::alloc::Global;
use tea_base::WantOfMemory;
use text_lines::spell_numbers;

/// How a connection has ended, and the value that comes with it.
fn end_part(alloc: Global, ended: Ended) -> Result<String, WantOfMemory>
    ensures { IfOk result (λ text. string_bytes text ≡ end_part ended) }
{
    match ended {
        Ended::Left => spell_numbers(alloc, " left", &[]),
        Ended::LinkEnd => spell_numbers(alloc, " link-end", &[]),
        Ended::LinkFault => spell_numbers(alloc, " link-fault", &[]),
        Ended::Idle { quiets: _ } => spell_numbers(alloc, " idle", &[]),
        Ended::Stale { current } => spell_numbers(alloc, " stale", &[u64::from(current)]),
        Ended::Refused { code } => spell_numbers(alloc, " refused", &[u64::from(code)]),
        Ended::WantOfMemory => spell_numbers(alloc, " memory", &[]),
        Ended::Unkept => spell_numbers(alloc, " unkept", &[]),
    }
}

/// The line of the connection of this number.
fn end_line(alloc: Global, number: u64, ended: Ended) -> Result<String, WantOfMemory>
    ensures { IfOk result (λ line. string_bytes line ≡ end_line number ended) }
{
    let front = spell_numbers(alloc, "connection", &[number])?;
    line_of_parts(front, end_part(alloc, ended)?.as_str())
}

/// The lines of connections, in order.
fn end_lines(alloc: Global, ends: &[Ended]) -> Result<String, WantOfMemory>
    ensures { IfOk result (λ text. string_bytes text ≡ end_lines 0 ends.now) }
{
    let mut text = String::new(alloc);
    for (number, ended) in ends.iter().enumerate() {
        text.push_str(end_line(alloc, number as u64, *ended)?.as_str())?;
    }
    Ok(text)
}

/// The line of a session: how many entries its log has, and its horizon.
fn session_line(alloc: Global, session: &Session) -> Result<String, WantOfMemory>
    ensures { IfOk result (λ line. string_bytes line ≡ session_line session.now.plain) }
{
    let entries = spell_numbers(alloc, "entries", &[u64::from(session.log().len())])?;
    line_of_parts(
        entries,
        spell_numbers(alloc, " time", &[session.horizon()])?.as_str(),
    )
}

/// What is printed of a session after its reflector: a line for each connection, and then its own.
pub fn reflected_text(
    alloc: Global,
    ends: &[Ended],
    session: &Session,
) -> Result<String, WantOfMemory>
    ensures { IfOk result (λ text. string_bytes text ≡ reflected_text ends.now session.now.plain) }
{
    let mut text = end_lines(alloc, ends)?;
    text.push_str(session_line(alloc, session)?.as_str())?;
    Ok(text)
}

/// What is printed of a session after its posts: the line of the links, that of the posts, and then its own.
pub fn reflected_on_text(
    alloc: Global,
    posts: &[PostOutcome],
    session: &Session,
) -> Result<String, WantOfMemory>
    ensures { IfOk result (λ text. string_bytes text ≡ reflected_on_text posts.now session.now.plain) }
{
    let mut text = posts_lines(alloc, posts)?;
    let line = session_line(alloc, session)?;
    text.push_str(line.as_str())?;
    Ok(text)
}
