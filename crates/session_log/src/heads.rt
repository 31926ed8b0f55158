//! What a log keeps of an entry, beside the payloads of all, and what is read from it.
ghost use Rattle.std.specs.Prelude.{◌≡◌, ◌≤◌, ◌<◌, ◌+◌, ◌++◌, ◌∷◌, [], ℕ, List, map, length, vec_len, vec_capacity};
ghost use Rattle.std.specs.List.Sorted.{IsNonDecreasingBy};
ghost use Rattle.tea_base.specs.Readings.{count_until, last_number, last_time};
ghost use Rattle.tea_base.specs.Limits.{most_entries};
ghost use Rattle.tea_base.specs.Readings.{payload_len};
ghost use Rattle.session_log.specs.Heads.{entry_of, what_of, IsKindWithin};

use event_region::Place;

/// What an entry records. An Event's payload stands at `place` among those of all.
#[derive(Clone, Copy, Debug)]
pub enum HeadKind {
    Join,
    Exit,
    Event { number: u32, place: Place },
}

/// An entry but for its payload.
#[derive(Clone, Copy, Debug)]
pub struct Head {
    pub seq: u32,
    pub time: u64,
    pub view: u32,
    pub kind: HeadKind,
}

/// Adds the head of the next entry, where there is room, and gives its seq.
pub fn push_head(heads: &mut Vec<Head>, time: u64, view: u32, kind: HeadKind) -> u32
    requires room { vec_len heads.old < vec_capacity heads.old }
    requires short { vec_len heads.old ≤ most_entries }
    ensures seq { result ≡ vec_len heads.old + 1 }
    ensures items { heads.new.items ≡
        heads.old.items ++ record { seq = result; time = time; view = view; kind = kind } ∷ [] }
    ensures len { vec_len heads.new ≡ vec_len heads.old + 1 }
    ensures room { vec_capacity heads.old ≤ vec_capacity heads.new }
{
    let seq = heads.len() as u32 + 1;
    let head = Head {
        seq,
        time,
        view,
        kind,
    };
    match heads.push(head) {
        Ok(()) => seq,
        Err(_) => unreachable!(),
    }
}

/// How many payload bytes an entry has.
pub fn payload_len(kind: HeadKind) -> u64
    ensures { (payloads : List ℕ) → IsKindWithin (length payloads) kind →
        result ≡ payload_len (what_of payloads kind) }
{
    match kind {
        HeadKind::Join | HeadKind::Exit => 0,
        HeadKind::Event { place, .. } => u64::from(place.len),
    }
}

/// How many Events a view sent.
pub fn last_number_in(heads: &[Head], view: u32) -> u32
    requires { length heads.now ≤ most_entries }
    ensures number { (payloads : List ℕ) →
        result ≡ last_number (map (entry_of payloads) heads.now) view }
    ensures bound { result ≤ length heads.now }
{
    let mut count = 0;
    for head in heads {
        if head.view == view {
            match head.kind {
                HeadKind::Event { .. } => count += 1,
                HeadKind::Join | HeadKind::Exit => {}
            }
        }
    }
    count
}

/// How many entries have a time of at most `time`, where no time is below one before it.
pub fn count_until(heads: &[Head], time: u64) -> u32
    requires short { length heads.now ≤ most_entries }
    requires rising { IsNonDecreasingBy (λ head. head.time) heads.now }
    ensures { (payloads : List ℕ) → result ≡ count_until (map (entry_of payloads) heads.now) time }
{
    heads.partition_point(|head| head.time <= time) as u32
}

/// The time of the last entry, and 0 where there is none.
pub fn last_time_in(heads: &[Head]) -> u64
    ensures { (payloads : List ℕ) → result ≡ last_time (map (entry_of payloads) heads.now) }
{
    match heads.last() {
        Some(head) => head.time,
        None => 0,
    }
}
