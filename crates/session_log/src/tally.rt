//! What legality needs of the entries so far, so that no entry goes through all before it.
ghost use Rattle.std.specs.Prelude.{◌≡◌, ◌+◌, ◌-◌, ◌<◌, ◌≤◌, ◌==◌, [], ℕ, OnOk, OnErr, if◌then◌else◌};
ghost use Rattle.tea_base.specs.declared.entry.What.TheVariants.{Exit};
ghost use Rattle.tea_base.specs.Legal.{MayFollow};
ghost use Rattle.tea_base.specs.Limits.{most_entries};
ghost use Rattle.session_log.specs.LogState.{with_next};
ghost use Rattle.session_log.specs.Legality.{view_state_after, may_follow};
ghost use Rattle.entry_fields.specs.Lent.{lent_what};
ghost use Rattle.session_log.specs.Lent.{lent_entry};
ghost use Rattle.session_log.specs.Tally.{view_state_in, here_after, TellsLog, TellsTheSame};

use crate::legality::{LogCounts, ViewState, goes_on, stand_after};
use crate::lent::LentLogEntry;
use crate::log::Log;
use entry_fields::LentWhat;
use std::alloc::Global;
use std::collections::BTreeMap;
use tea_base::WantOfMemory;

/// What is told of entries, so that a further one can be tested.
#[derive(Drop)]
pub struct Tally {
    /// The TeaTime of the last entry, in microseconds; 0 of none.
    pub time: u64,
    /// How many views are here.
    pub views_here: u32,
    /// Of each view that an entry names, whether it is here and how many Events it sent.
    pub stands: BTreeMap<u32, ViewState>,
}

/// What is told of no entries. Takes no memory.
pub fn no_entries(alloc: Global) -> Tally
    ensures { TellsLog result [] }
{
    Tally {
        time: 0,
        views_here: 0,
        stands: BTreeMap::new(alloc),
    }
}

/// How a view stands.
fn stand_of(tally: &Tally, view: u32) -> ViewState
    ensures { result ≡ view_state_in tally.now.stands view }
{
    match tally.stands.get(&view) {
        Some(stand) => *stand,
        None => ViewState {
            here: false,
            number: 0,
        },
    }
}

/// How many views are here after an entry.
fn here_after(count: u32, view: ViewState, what: &LentWhat<'_>) -> u32
    requires few { count ≤ most_entries }
    requires some { lent_what what.now ≡ Exit → 0 < count }
    ensures { result ≡ here_after count view (lent_what what.now) }
{
    match what {
        LentWhat::Join if view.here => count,
        LentWhat::Join => count + 1,
        LentWhat::Exit => count - 1,
        LentWhat::Event { .. } => count,
    }
}

/// Takes note of an entry, whose view stood so.
fn note(tally: &mut Tally, view: ViewState, entry: &LentLogEntry<'_>) -> Result<(), WantOfMemory>
    requires number { view.number ≤ most_entries }
    requires few { tally.old.views_here ≤ most_entries }
    requires some { lent_what entry.now.what ≡ Exit → 0 < tally.old.views_here }
    ensures time { OnOk result (tally.new.time ≡ entry.now.time) }
    ensures views_here { OnOk result (tally.new.views_here ≡
        here_after tally.old.views_here view (lent_what entry.now.what)) }
    ensures stands { OnOk result ((other : ℕ) → view_state_in tally.new.stands other ≡
        (if entry.now.view == other then view_state_after view (lent_what entry.now.what)
        else view_state_in tally.old.stands other)) }
    ensures err { OnErr result (TellsTheSame tally.old tally.new) }
{
    tally
        .stands
        .insert(entry.view, stand_after(view, &entry.what))?;
    tally.time = entry.time;
    tally.views_here = here_after(tally.views_here, view, &entry.what);
    Ok(())
}

/// Whether a log may go on with an entry.
pub fn may_follow(tally: &Tally, log: &Log, entry: &LentLogEntry<'_>) -> bool
    requires { TellsLog tally.now log.now.entries }
    ensures { result ≡ may_follow log.now.entries (lent_entry log.now.entries entry.now) }
{
    let view = stand_of(tally, entry.view);
    let standing = LogCounts {
        entries: log.len(),
        payload_bytes: log.bytes(),
        views_here: tally.views_here,
        time: tally.time,
    };
    goes_on(standing, view, entry)
}

/// Takes note of an entry that a log goes on with. Without memory it tells what it told before.
pub fn learn(tally: &mut Tally, log: &Log, entry: &LentLogEntry<'_>) -> Result<(), WantOfMemory>
    requires told { TellsLog tally.old log.now.entries }
    requires follows { MayFollow log.now.entries (lent_entry log.now.entries entry.now) }
    ensures ok { OnOk result (TellsLog tally.new
        (with_next log.now.entries entry.now.time entry.now.view (lent_what entry.now.what))) }
    ensures err { OnErr result (TellsLog tally.new log.now.entries) }
{
    let view = stand_of(tally, entry.view);
    note(tally, view, entry)
}
