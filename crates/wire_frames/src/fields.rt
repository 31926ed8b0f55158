//! Fields of frames.
ghost use Rattle.std.specs.Prelude.{◌≡◌, length};
ghost use Rattle.std.specs.Option.{option_map};
ghost use Rattle.wire_frames.specs.Lent.{base_of, frame_entry_of};
ghost use Rattle.wire_frames.specs.Reading.{time_at, session_at, frame_entry_at, base_of_mark, base_at, want_of_mark, want_at};

use crate::lent::{LentBase, LentFrameEntry};
use crate::start::Want;
use byte_fields::{blob_at, bytes_at, u8_at, u32_at, u64_at};
use entry_fields::what_at;
use tea_base::{SessionId, TIME_LIMIT};

/// A TeaTime, which is below 2^53.
#[tactic(auto, unfolding(crate::specs::Reading::time_at))]
pub fn time_at(bytes: &[u8]) -> Option<(u64, &[u8])>
    ensures { option_map (λ x. (x.0, x.1.now)) result ≡ time_at bytes.now }
{
    let (time, rest) = u64_at(bytes)?;
    if time < TIME_LIMIT {
        Some((time, rest))
    } else {
        None
    }
}

/// The id of a session.
#[tactic(auto, unfolding(crate::specs::Reading::session_at))]
pub fn session_at(bytes: &[u8]) -> Option<(SessionId, &[u8])>
    ensures { option_map (λ x. (x.0, x.1.now)) result ≡ session_at bytes.now }
{
    let (front, rest) = bytes_at(bytes, 32)?;
    Some((session_of(front), rest))
}

fn session_of(bytes: &[u8]) -> SessionId
    requires { length bytes.now ≡ 32 }
    ensures { result.0 ≡ bytes.now }
{
    let mut id = [0; 32];
    id.copy_from_slice(bytes);
    SessionId(id)
}

/// An entry.
#[tactic(auto, unfolding(crate::specs::Reading::frame_entry_at))]
pub fn entry_at(bytes: &[u8]) -> Option<(LentFrameEntry<'_>, &[u8])>
    ensures { option_map (λ x. (frame_entry_of x.0, x.1.now)) result ≡ frame_entry_at bytes.now }
{
    let (seq, rest) = u32_at(bytes)?;
    let (time, rest) = time_at(rest)?;
    let (view, rest) = u32_at(rest)?;
    let (what, rest) = what_at(rest)?;
    Some((
        LentFrameEntry {
            seq,
            time,
            view,
            what,
        },
        rest,
    ))
}

/// The base, or that there is none, behind the mark that says which.
#[tactic(auto, unfolding(crate::specs::Reading::time_at))]
fn base_of_mark(mark: u8, bytes: &[u8]) -> Option<(Option<LentBase<'_>>, &[u8])>
    ensures { option_map (λ x. (base_of x.0, x.1.now)) result ≡ base_of_mark mark bytes.now }
{
    match mark {
        0 => Some((None, bytes)),
        1 => {
            let (time, rest) = time_at(bytes)?;
            let (field, rest) = blob_at(rest)?;
            Some((Some(LentBase { time, bytes: field }), rest))
        }
        _ => None,
    }
}

/// The base, or that there is none.
#[tactic(auto, unfolding(crate::specs::Reading::base_at))]
pub fn base_at(bytes: &[u8]) -> Option<(Option<LentBase<'_>>, &[u8])>
    ensures { option_map (λ x. (base_of x.0, x.1.now)) result ≡ base_at bytes.now }
{
    let (mark, rest) = u8_at(bytes)?;
    base_of_mark(mark, rest)
}

/// What a view wants, behind the mark that says which.
fn want_of_mark(mark: u8, bytes: &[u8]) -> Option<(Want, &[u8])>
    ensures { option_map (λ x. (x.0, x.1.now)) result ≡ want_of_mark mark bytes.now }
{
    match mark {
        0 => Some((Want::Fresh, bytes)),
        1 => Some((Want::Whole, bytes)),
        2 => {
            let (time, rest) = time_at(bytes)?;
            Some((Want::After(time), rest))
        }
        _ => None,
    }
}

/// What a view wants.
#[tactic(auto, unfolding(crate::specs::Reading::want_at))]
pub fn want_at(bytes: &[u8]) -> Option<(Want, &[u8])>
    ensures { option_map (λ x. (x.0, x.1.now)) result ≡ want_at bytes.now }
{
    let (mark, rest) = u8_at(bytes)?;
    want_of_mark(mark, rest)
}
