//! Which session a link goes to. Its first frame is read as it lies: no memory is taken.
ghost use Rattle.std.specs.Prelude.{◌≡◌, ◌<◌, length, position};
ghost use Rattle.std.specs.Option.{option_map};
ghost use Rattle.wire_frames.specs.Reading.{session_at, time_at, want_of_mark, want_at};
ghost use Rattle.id_claims.specs.Ids.{is_id};
ghost use Rattle.host_server.specs.Routing.{goes_to, named_at, named_in, named_of_tag};

use byte_fields::{bytes_at, u8_at, u32_at, u64_at};
use tea_base::{SessionId, TIME_LIMIT};
use wire_frames::{JOIN_TAG, Want};

/// A TeaTime, which is below 2^53.
#[tactic(auto, unfolding(wire_frames::specs::Reading::time_at))]
fn time_at(bytes: &[u8]) -> Option<(u64, &[u8])>
    ensures { option_map (λ x. (x.0, x.1.now)) result ≡ time_at bytes.now }
{
    let (time, rest) = u64_at(bytes)?;
    if time < TIME_LIMIT {
        Some((time, rest))
    } else {
        None
    }
}

fn id_of(bytes: &[u8]) -> SessionId
    requires { length bytes.now ≡ 32 }
    ensures { result.0 ≡ bytes.now }
{
    let mut id = [0; 32];
    id.copy_from_slice(bytes);
    SessionId(id)
}

/// The id of a session.
#[tactic(auto, unfolding(wire_frames::specs::Reading::session_at))]
fn session_at(bytes: &[u8]) -> Option<(SessionId, &[u8])>
    ensures { option_map (λ x. (x.0, x.1.now)) result ≡ session_at bytes.now }
{
    let (front, rest) = bytes_at(bytes, 32)?;
    Some((id_of(front), rest))
}

/// What a view wants, after the mark that says which.
fn want_of_mark(mark: u8, bytes: &[u8]) -> Option<(Want, &[u8])>
    ensures { option_map (λ x. (x.0, x.1.now)) result ≡ want_of_mark mark bytes.now }
{
    match mark {
        0 => Some((Want::Fresh, bytes)),
        1 => Some((Want::Whole, bytes)),
        2 => {
            let (time, rest) = time_at(bytes)?;
            Some((Want::After(time), rest))
        }
        _ => None,
    }
}

/// What a view wants.
#[tactic(auto, unfolding(wire_frames::specs::Reading::want_at))]
fn want_at(bytes: &[u8]) -> Option<(Want, &[u8])>
    ensures { option_map (λ x. (x.0, x.1.now)) result ≡ want_at bytes.now }
{
    let (mark, rest) = u8_at(bytes)?;
    want_of_mark(mark, rest)
}

/// The session that a JOIN names, which is read whole after its tag.
#[tactic(auto, unfolding(crate::specs::Routing::named_at))]
fn named_at(bytes: &[u8]) -> Option<(SessionId, &[u8])>
    ensures { option_map (λ x. (x.0, x.1.now)) result ≡ named_at bytes.now }
{
    let (session, rest) = session_at(bytes)?;
    let (_view, rest) = u32_at(rest)?;
    let (_want, rest) = want_at(rest)?;
    Some((session, rest))
}

/// The session that a frame names, by what comes after its tag.
fn named_of_tag(tag: u8, bytes: &[u8]) -> Option<SessionId>
    ensures { result ≡ named_of_tag tag bytes.now }
{
    match tag {
        JOIN_TAG => {
            let (session, rest) = named_at(bytes)?;
            if !rest.is_empty() {
                return None;
            }
            Some(session)
        }
        _ => None,
    }
}

/// The session that a frame names, if it is a JOIN.
pub fn named_in(bytes: &[u8]) -> Option<SessionId>
    ensures { result ≡ named_in bytes.now }
{
    let (tag, rest) = u8_at(bytes)?;
    named_of_tag(tag, rest)
}

fn place_in(ids: &[SessionId], id: &SessionId) -> Option<usize>
    ensures { result ≡ position (is_id id.now) ids.now }
{
    ids.iter().position(|other| *other == *id)
}

/// The place of the session that the first frame of a link goes to: that of the listed id which it names, and else the first.
pub fn place_for(ids: &[SessionId], first: &[u8]) -> usize
    requires { 0 < length ids.now }
    ensures place { result ≡ goes_to ids.now first.now }
    ensures within { result < length ids.now }
{
    match named_in(first) {
        Some(id) => place_in(ids, &id).unwrap_or(0),
        None => 0,
    }
}
