//! From replies to the text that tells them.
ghost use Rattle.std.specs.Prelude.{◌≡◌, string_bytes, IfOk};
ghost use Rattle.command_stamp.specs.ReplyText.{base_part, tick_part, refusal_part, reply_line, text_of};

use command_outcome::line_of_parts;
use reflector_core::{Base, Refusal, Reply};
use std::alloc::Global;
use tea_base::WantOfMemory;
use text_lines::spell_numbers;

/// What a base adds to the line of a Join.
fn base_part(alloc: Global, base: &Option<Base>) -> Result<String, WantOfMemory>
    ensures { IfOk result (λ text. string_bytes text ≡ base_part base.now) }
{
    match base {
        None => Ok(String::new(alloc)),
        Some(base) => spell_numbers(alloc, " base", &[base.time]),
    }
}

/// What a tick adds to the line of a Batch.
fn tick_part(alloc: Global, tick: Option<u64>) -> Result<String, WantOfMemory>
    ensures { IfOk result (λ text. string_bytes text ≡ tick_part tick) }
{
    match tick {
        None => spell_numbers(alloc, " more", &[]),
        Some(time) => spell_numbers(alloc, " tick", &[time]),
    }
}

/// What a refusal says, and the value that it carries.
fn refusal_part(alloc: Global, refusal: Refusal) -> Result<String, WantOfMemory>
    ensures { IfOk result (λ text. string_bytes text ≡ refusal_part refusal) }
{
    match refusal {
        Refusal::Stale { current } => spell_numbers(alloc, " stale", &[u64::from(current)]),
        Refusal::TooLong { len } => spell_numbers(alloc, " too-long", &[u64::from(len)]),
        Refusal::Differs { seq } => spell_numbers(alloc, " differs", &[u64::from(seq)]),
        Refusal::Gap { expected } => spell_numbers(alloc, " gap", &[u64::from(expected)]),
        Refusal::LogFull { entries, bytes } => {
            spell_numbers(alloc, " log-full", &[u64::from(entries), bytes])
        }
        Refusal::TimeEnd { horizon } => spell_numbers(alloc, " time-end", &[horizon]),
        Refusal::ViewsFull { here } => spell_numbers(alloc, " views-full", &[u64::from(here)]),
        Refusal::BadView => spell_numbers(alloc, " bad-view", &[]),
        Refusal::Ahead { horizon } => spell_numbers(alloc, " ahead", &[horizon]),
        Refusal::Older { kept } => spell_numbers(alloc, " older", &[kept]),
        Refusal::NoSuchSeq { len } => spell_numbers(alloc, " no-such-seq", &[u64::from(len)]),
    }
}

/// The line of a reply, with its line end.
pub fn reply_line(alloc: Global, reply: &Reply) -> Result<String, WantOfMemory>
    ensures { IfOk result (λ line. string_bytes line ≡ reply_line reply.now) }
{
    match reply {
        Reply::Joined {
            seq,
            time,
            last,
            from,
            base,
        } => {
            let numbers = [u64::from(*seq), *time, u64::from(*last), u64::from(*from)];
            let front = spell_numbers(alloc, "joined", &numbers)?;
            line_of_parts(front, base_part(alloc, base)?.as_str())
        }
        Reply::Stamped { seq, time } => {
            line_of_parts(
                spell_numbers(alloc, "stamped", &[u64::from(*seq), *time])?,
                "",
            )
        }
        Reply::Again { seq, time } => {
            line_of_parts(
                spell_numbers(alloc, "again", &[u64::from(*seq), *time])?,
                "",
            )
        }
        Reply::Ticked { time } => line_of_parts(spell_numbers(alloc, "ticked", &[*time])?, ""),
        Reply::Left { seq, time } => {
            line_of_parts(spell_numbers(alloc, "left", &[u64::from(*seq), *time])?, "")
        }
        Reply::Kept => line_of_parts(spell_numbers(alloc, "kept", &[])?, ""),
        Reply::Batch { entries, tick } => {
            let front = spell_numbers(alloc, "batch", &[entries.len() as u64])?;
            line_of_parts(front, tick_part(alloc, *tick)?.as_str())
        }
        Reply::Refused(refusal) => {
            let front = spell_numbers(alloc, "refused", &[])?;
            line_of_parts(front, refusal_part(alloc, *refusal)?.as_str())
        }
    }
}

/// The lines of the replies, one after the other.
pub fn text(alloc: Global, replies: &[Reply]) -> Result<String, WantOfMemory>
    ensures { IfOk result (λ text. string_bytes text ≡ text_of replies.now) }
{
    let mut text = String::new(alloc);
    for reply in replies {
        text.push_str(reply_line(alloc, reply)?.as_str())?;
    }
    Ok(text)
}
