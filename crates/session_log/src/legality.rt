//! Whether a log may go on with an entry.
ghost use Rattle.std.specs.Prelude.{◌≡◌, ◌≤◌, List};
ghost use Rattle.tea_base.specs.declared.entry.Entry.{Entry};
ghost use Rattle.tea_base.specs.Limits.{most_entries, most_bytes};
ghost use Rattle.session_log.specs.Legality.{log_allows, may_go_on, view_state_after};
ghost use Rattle.entry_fields.specs.Lent.{lent_what};
ghost use Rattle.session_log.specs.Lent.{lent_entry};

use crate::lent::LentLogEntry;
use entry_fields::LentWhat;
use tea_base::{MOST_BYTES, MOST_ENTRIES, MOST_HERE, MOST_OPEN_ENTRIES, MOST_PAYLOAD, TIME_LIMIT};

/// What the test needs of a log.
#[derive(Clone, Copy, Debug)]
pub struct LogCounts {
    pub entries: u32,
    pub payload_bytes: u64,
    pub views_here: u32,
    pub time: u64,
}

/// What entries tell of a view.
#[derive(Clone, Copy, Debug)]
pub struct ViewState {
    /// Its last Join or Exit is a Join.
    pub here: bool,
    /// How many Events it sent, which is the number of the last one.
    pub number: u32,
}

/// Whether there is room for what an entry records, and its view's stand allows it.
fn allows(log: LogCounts, view: ViewState, what: &LentWhat<'_>) -> bool
    requires bytes { log.payload_bytes ≤ most_bytes }
    requires number { view.number ≤ most_entries }
    ensures { result ≡ log_allows log view (lent_what what.now) }
{
    match what {
        LentWhat::Join => {
            (view.here || log.views_here < MOST_HERE) && log.entries < MOST_OPEN_ENTRIES
        }
        LentWhat::Exit => view.here && log.entries < MOST_ENTRIES,
        LentWhat::Event { number, payload } => {
            view.here
                && *number == view.number + 1
                && payload.len() <= MOST_PAYLOAD
                && log.payload_bytes + payload.len() as u64 <= MOST_BYTES
                && log.entries < MOST_OPEN_ENTRIES
        }
    }
}

/// Whether a log that stands so may go on with the entry.
pub fn goes_on(log: LogCounts, view: ViewState, entry: &LentLogEntry<'_>) -> bool
    requires bytes { log.payload_bytes ≤ most_bytes }
    requires number { view.number ≤ most_entries }
    ensures { (before : List Entry) → result ≡ may_go_on log view (lent_entry before entry.now) }
{
    log.time < entry.time
        && entry.time < TIME_LIMIT
        && entry.view != 0
        && allows(log, view, &entry.what)
}

/// What an entry leaves of its view's stand.
pub fn stand_after(view: ViewState, what: &LentWhat<'_>) -> ViewState
    requires { view.number ≤ most_entries }
    ensures { result ≡ view_state_after view (lent_what what.now) }
{
    match what {
        LentWhat::Join => ViewState {
            here: true,
            number: view.number,
        },
        LentWhat::Exit => ViewState {
            here: false,
            number: view.number,
        },
        LentWhat::Event { .. } => ViewState {
            here: view.here,
            number: view.number + 1,
        },
    }
}
