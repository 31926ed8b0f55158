//! The bytes of a record before its payload.
ghost use Rattle.std.specs.Prelude.{◌≡◌, ◌<◌, ◌+◌, ◌^◌, ◌++◌, ◌∷◌, [], length};
ghost use Rattle.std.specs.Int.{to_be_bytes, w32, w64};
ghost use Rattle.byte_fields.specs.Fields.{blob, FitsBlob};
ghost use Rattle.entry_fields.specs.Lent.{lent_what};
ghost use Rattle.session_journal.specs.declared.change.Change.TheVariants.{Came};
ghost use Rattle.session_journal.specs.Lent.{lent_change};
ghost use Rattle.session_journal.specs.Changes.{change_spelling};
ghost use Rattle.session_journal.specs.Heads.{head_bytes, payload_of};

use crate::change::LentChange;
use entry_fields::LentWhat;

/// The length of a body, and the body but for its payload.
#[derive(Clone, Copy, Debug)]
pub enum Head {
    /// Of a Join or an Exit.
    Presence([u8; 18]),
    Event([u8; 26]),
    Reached([u8; 13]),
    Kept([u8; 17]),
}

impl Head {
    /// Its bytes.
    pub fn bytes(&self) -> &[u8]
        ensures { result.now ≡ head_bytes self.now }
    {
        match self {
            Head::Presence(bytes) => bytes.as_slice(),
            Head::Event(bytes) => bytes.as_slice(),
            Head::Reached(bytes) => bytes.as_slice(),
            Head::Kept(bytes) => bytes.as_slice(),
        }
    }
}

/// Of a Join, whose kind is 1, or an Exit, whose kind is 2.
fn presence_head(time: u64, view: u32, kind: u8) -> [u8; 18]
    ensures { result ≡ to_be_bytes w32 14 ++ (1 ∷ (to_be_bytes w64 time ++ (to_be_bytes w32 view ++ kind ∷ []))) }
{
    let t = time.to_be_bytes();
    let v = view.to_be_bytes();
    [
        0, 0, 0, 14, 1, t[0], t[1], t[2], t[3], t[4], t[5], t[6], t[7], v[0], v[1], v[2], v[3],
        kind,
    ]
}

/// Of an Event whose payload has so many bytes.
fn event_head(time: u64, view: u32, number: u32, len: u32) -> [u8; 26]
    requires { len + 22 < 2 ^ 32 }
    ensures { result ≡ to_be_bytes w32 (len + 22) ++ (1 ∷ (to_be_bytes w64 time
        ++ (to_be_bytes w32 view ++ (3 ∷ (to_be_bytes w32 number ++ to_be_bytes w32 len))))) }
{
    let b = (len + 22).to_be_bytes();
    let t = time.to_be_bytes();
    let v = view.to_be_bytes();
    let n = number.to_be_bytes();
    let p = len.to_be_bytes();
    [
        b[0], b[1], b[2], b[3], 1, t[0], t[1], t[2], t[3], t[4], t[5], t[6], t[7], v[0], v[1],
        v[2], v[3], 3, n[0], n[1], n[2], n[3], p[0], p[1], p[2], p[3],
    ]
}

/// Of a horizon.
fn reached_head(time: u64) -> [u8; 13]
    ensures { result ≡ to_be_bytes w32 9 ++ (2 ∷ to_be_bytes w64 time) }
{
    let t = time.to_be_bytes();
    [
        0, 0, 0, 9, 2, t[0], t[1], t[2], t[3], t[4], t[5], t[6], t[7],
    ]
}

/// Of a snapshot of so many bytes.
fn kept_head(time: u64, len: u32) -> [u8; 17]
    requires { len + 13 < 2 ^ 32 }
    ensures { result ≡ to_be_bytes w32 (len + 13) ++ (3 ∷ (to_be_bytes w64 time ++ to_be_bytes w32 len)) }
{
    let b = (len + 13).to_be_bytes();
    let t = time.to_be_bytes();
    let p = len.to_be_bytes();
    [
        b[0], b[1], b[2], b[3], 3, t[0], t[1], t[2], t[3], t[4], t[5], t[6], t[7], p[0], p[1],
        p[2], p[3],
    ]
}

/// The head of an entry's record.
fn came_head(time: u64, view: u32, what: LentWhat<'_>) -> Head
    requires { FitsBlob (change_spelling (Came time view (lent_what what))) }
    ensures { head_bytes result ++ payload_of (Came time view (lent_what what.entry))
        ≡ blob (change_spelling (Came time view (lent_what what.entry))) }
{
    match what {
        LentWhat::Join => Head::Presence(presence_head(time, view, 1)),
        LentWhat::Exit => Head::Presence(presence_head(time, view, 2)),
        LentWhat::Event { number, payload } => Head::Event(event_head(
            time,
            view,
            number,
            payload.len() as u32,
        )),
    }
}

/// The head of a record. Takes no memory.
pub fn head_of(change: LentChange<'_>) -> Head
    requires { FitsBlob (change_spelling (lent_change change)) }
    ensures { head_bytes result ++ payload_of (lent_change change.entry)
        ≡ blob (change_spelling (lent_change change.entry)) }
{
    match change {
        LentChange::Came { time, view, what } => came_head(time, view, what),
        LentChange::Reached { time } => Head::Reached(reached_head(time)),
        LentChange::Kept { time, bytes } => Head::Kept(kept_head(time, bytes.len() as u32)),
    }
}

/// The bytes at the end of a body that have a length of their own.
pub fn payload_of<'a>(change: LentChange<'a>) -> &'a [u8]
    ensures { result.now ≡ payload_of (lent_change change.entry) }
{
    match change {
        LentChange::Came {
            what: LentWhat::Event { payload, .. },
            ..
        } => payload,
        LentChange::Came { .. } | LentChange::Reached { .. } => &[],
        LentChange::Kept { bytes, .. } => bytes,
    }
}
