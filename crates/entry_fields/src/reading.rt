//! Reading what an entry records.
ghost use Rattle.std.specs.Prelude.{◌≡◌};
ghost use Rattle.std.specs.Option.{option_map};
ghost use Rattle.entry_fields.specs.Lent.{lent_what};
ghost use Rattle.entry_fields.specs.Reading.{what_at};

use crate::lent::LentWhat;
use byte_fields::{blob_at, u8_at, u32_at};

/// What an entry records, from the front of bytes, and the bytes behind it; nothing where the bytes do not begin with
/// the spelling of a Join, an Exit or an Event. Takes no memory.
#[tactic(auto, unfolding(crate::specs::Reading::what_at))]
pub fn what_at(bytes: &[u8]) -> Option<(LentWhat<'_>, &[u8])>
    ensures { option_map (λ x. (lent_what x.0, x.1.now)) result ≡ what_at bytes.now }
{
    let (kind, rest) = u8_at(bytes)?;
    match kind {
        1 => Some((LentWhat::Join, rest)),
        2 => Some((LentWhat::Exit, rest)),
        3 => {
            let (number, rest) = u32_at(rest)?;
            let (payload, rest) = blob_at(rest)?;
            Some((LentWhat::Event { number, payload }, rest))
        }
        _ => None,
    }
}
