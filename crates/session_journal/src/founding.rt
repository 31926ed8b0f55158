//! The journal that a session is founded with.
ghost use Rattle.std.specs.Prelude.{◌≡◌, ◌≤◌, ◌-◌, ◌++◌, ◌∷◌, [], OnOk, IfOk, Some, length, map, slice_get};
ghost use Rattle.std.specs.Option.{IfSome, option_copied};
ghost use Rattle.tea_base.specs.Limits.{most_snapshot};
ghost use Rattle.tea_base.specs.Legal.{IsLegal};
ghost use Rattle.byte_fields.specs.Fields.{FitsBlob, blob};
ghost use Rattle.session_log.specs.Stored.{IsStored, plain_stored};
ghost use Rattle.session_journal.specs.declared.change.Change.{Change};
ghost use Rattle.session_journal.specs.declared.change.Change.TheVariants.{Kept, Reached};
ghost use Rattle.session_journal.specs.Lent.{lent_change};
ghost use Rattle.session_journal.specs.Changes.{change_spelling};
ghost use Rattle.session_journal.specs.Journal.{header, record_check, records_spelling};
ghost use Rattle.session_journal.specs.Founding.{Adds, came_of, founding_changes, founding_spelling, kept_after, reached_after};

use crate::change::LentChange;
use crate::check::check_of;
use crate::heads::{head_of, payload_of};
use crate::reading::first_check;
use byte_fields::Writer;
use entry_fields::LentWhat;
use session_log::{GetRefusal, Kept, Log, Stored};
use std::alloc::Global;
use tea_base::{Blob, Entry, SessionId, WantOfMemory};

/// The header of a session's journal, which is the whole journal of a session that has just been founded. Takes no memory.
pub fn header_of(id: &SessionId) -> [u8; 40]
    ensures { result ≡ header id.now.0 }
{
    let mut bytes = [0; 40];
    bytes[..8].copy_from_slice(b"TEALOG03");
    bytes[8..].copy_from_slice(&id.0);
    bytes
}

/// A journal that is written in memory, and the check that its next record follows.
#[derive(Drop)]
pub struct Draft {
    pub out: Writer,
    pub check: [u8; 8],
}

/// Writes a record by its head and its payload, and gives its check.
fn put_record(
    out: &mut Writer,
    before: &[u8; 8],
    head: &[u8],
    payload: &[u8],
) -> Result<[u8; 8], WantOfMemory>
    requires { 4 ≤ length head.now }
    ensures put { OnOk result ((c : Change) → head.now ++ payload.now ≡ blob (change_spelling c)
        → out.new ≡ out.old ++ records_spelling before.now (c ∷ [])) }
    ensures check { IfOk result (λ check. (c : Change) → head.now ++ payload.now ≡ blob (change_spelling c)
        → check ≡ record_check before.now (change_spelling c)) }
{
    let check = check_of(before, &head[4..], payload);
    out.put_bytes(head)?;
    out.put_bytes(payload)?;
    out.put_bytes(&check)?;
    Ok(check)
}

/// Adds a record.
fn add(draft: &mut Draft, change: LentChange<'_>) -> Result<(), WantOfMemory>
    requires { FitsBlob (change_spelling (lent_change change)) }
    ensures { OnOk result (Adds draft.old draft.new (lent_change change.entry ∷ [])) }
{
    let head = head_of(change);
    let check = put_record(
        &mut draft.out,
        &draft.check,
        head.bytes(),
        payload_of(change),
    )?;
    draft.check = check;
    Ok(())
}

/// Adds the record of an entry.
fn add_entry(draft: &mut Draft, entry: &Entry) -> Result<(), WantOfMemory>
    requires { FitsBlob (change_spelling (came_of entry.now)) }
    ensures { OnOk result (Adds draft.old draft.new (came_of entry.now ∷ [])) }
{
    add(
        draft,
        LentChange::Came {
            time: entry.time,
            view: entry.view,
            what: LentWhat::of(&entry.what),
        },
    )
}

/// The entry of a log with this seq, which it has.
fn entry_at(log: &Log, seq: u32) -> Result<Entry, WantOfMemory>
    requires from { 1 ≤ seq }
    requires there { seq ≤ length log.now.entries }
    ensures { IfOk result (λ entry. slice_get log.now.entries (seq - 1) ≡ Some entry) }
{
    match log.get(seq) {
        Ok(entry) => Ok(entry),
        Err(GetRefusal::WantOfMemory) => Err(WantOfMemory),
        Err(GetRefusal::NoSuchSeq) => unreachable!(),
    }
}

/// Adds the records of all entries, in order.
fn add_entries(draft: &mut Draft, log: &Log) -> Result<(), WantOfMemory>
    requires { IsLegal log.now.entries }
    ensures { OnOk result (Adds draft.old draft.new (map came_of log.now.entries)) }
{
    for place in 0..log.len() {
        let entry = entry_at(log, place + 1)?;
        add_entry(draft, &entry)?;
    }
    Ok(())
}

/// Adds the record of a horizon, where it is later than the last entry.
fn add_horizon(draft: &mut Draft, last: u64, horizon: u64) -> Result<(), WantOfMemory>
    ensures { OnOk result (Adds draft.old draft.new (reached_after last horizon)) }
{
    if last < horizon {
        return add(draft, LentChange::Reached { time: horizon });
    }
    Ok(())
}

/// Adds the record of a snapshot, where one is kept.
fn add_kept(draft: &mut Draft, kept: Option<&Kept>) -> Result<(), WantOfMemory>
    requires { IfSome kept (λ one. length one.now.bytes ≤ most_snapshot) }
    ensures { OnOk result (Adds draft.old draft.new (kept_after (option_copied kept.entry))) }
{
    match kept {
        Some(kept) => add(
            draft,
            LentChange::Kept {
                time: kept.time,
                bytes: kept.bytes.bytes(),
            },
        ),
        None => Ok(()),
    }
}

/// Adds all that is stored of a session.
fn add_all(draft: &mut Draft, stored: &Stored) -> Result<(), WantOfMemory>
    requires { IsStored (plain_stored stored.now) }
    ensures { OnOk result (Adds draft.old draft.new (founding_changes (plain_stored stored.now))) }
{
    add_entries(draft, &stored.log)?;
    add_horizon(draft, stored.log.last_time(), stored.horizon)?;
    add_kept(draft, stored.kept.as_ref())
}

/// The journal of a session that goes on from a stored one: its header, a record for each entry, one for the horizon where
/// that is later than the entries, and one for the snapshot that is kept.
pub fn founding_of(alloc: Global, id: &SessionId, stored: &Stored) -> Result<Blob, WantOfMemory>
    requires { IsStored (plain_stored stored.now) }
    ensures { IfOk result (λ bytes. bytes ≡ founding_spelling id.now.0 (plain_stored stored.now)) }
{
    let mut draft = Draft {
        out: Writer::new(alloc),
        check: first_check(id),
    };
    draft.out.put_bytes(&header_of(id))?;
    add_all(&mut draft, stored)?;
    Ok(draft.out.done())
}
