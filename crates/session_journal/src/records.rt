//! Single records, from the front of bytes.
ghost use Rattle.std.specs.Prelude.{◌≡◌};
ghost use Rattle.std.specs.Option.{IfSome, option_map};
ghost use Rattle.byte_fields.specs.Fields.{whole};
ghost use Rattle.session_journal.specs.Lent.{lent_change};
ghost use Rattle.session_journal.specs.Changes.{change_at};
ghost use Rattle.session_journal.specs.Frames.{frame_at};
ghost use Rattle.session_journal.specs.Journal.{record_check};
ghost use Rattle.session_journal.specs.Reading.{record_at};

use crate::change::LentChange;
use crate::check::check_of;
use byte_fields::{after_mark, blob_at, u8_at, u32_at, u64_at};
use entry_fields::what_at;

/// A body with its check, and the bytes after that.
#[derive(Clone, Copy, Debug)]
pub struct Frame<'a> {
    pub body: &'a [u8],
    pub check: [u8; 8],
    pub rest: &'a [u8],
}

/// The first body, where its length is not 0, it is whole and its check is right.
#[tactic(auto, unfolding(crate::specs::Frames::frame_at))]
pub fn frame_at<'a>(before: &[u8], bytes: &'a [u8]) -> Option<Frame<'a>>
    ensures read { option_map (λ x. (x.body.now, x.rest.now)) result ≡ frame_at record_check before.now bytes.now }
    ensures check { IfSome result (λ x. x.check ≡ record_check before.now x.body.now) }
{
    let (body, rest) = blob_at(bytes)?;
    if body.is_empty() {
        return None;
    }
    let check = check_of(before, body, &[]);
    let rest = after_mark(rest, &check)?;
    Some(Frame { body, check, rest })
}

/// What a record says, from the front of its body.
#[tactic(auto, unfolding(crate::specs::Changes::change_at))]
fn change_at(bytes: &[u8]) -> Option<(LentChange<'_>, &[u8])>
    ensures { option_map (λ x. (lent_change x.0, x.1.now)) result ≡ change_at bytes.now }
{
    let (kind, rest) = u8_at(bytes)?;
    match kind {
        1 => {
            let (time, rest) = u64_at(rest)?;
            let (view, rest) = u32_at(rest)?;
            let (what, rest) = what_at(rest)?;
            Some((LentChange::Came { time, view, what }, rest))
        }
        2 => {
            let (time, rest) = u64_at(rest)?;
            Some((LentChange::Reached { time }, rest))
        }
        3 => {
            let (time, rest) = u64_at(rest)?;
            let (bytes, rest) = blob_at(rest)?;
            Some((LentChange::Kept { time, bytes }, rest))
        }
        _ => None,
    }
}

/// What a whole body says.
pub fn change_of(body: &[u8]) -> Option<LentChange<'_>>
    ensures { option_map lent_change result ≡ whole change_at body.now }
{
    let (change, rest) = change_at(body)?;
    if !rest.is_empty() {
        return None;
    }
    Some(change)
}

/// What the first record says, where it is whole, its check is right, and it says something.
pub fn record_at<'a>(before: &[u8], bytes: &'a [u8]) -> Option<(LentChange<'a>, Frame<'a>)>
    ensures { option_map (λ x. (lent_change x.0, (x.1.check, x.1.rest.now))) result ≡ record_at before.now bytes.now }
{
    let frame = frame_at(before, bytes)?;
    let change = change_of(frame.body)?;
    Some((change, frame))
}
