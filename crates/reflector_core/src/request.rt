//! Requests to a session, and the replies.
use tea_base::{Blob, Entries, List};
use wire_frames::{Base, Want};

/// What is asked of a session. A `now` is the caller's clock: microseconds since the founding, any
/// number. A `joined` is the seq of the Join by which the caller came: it tells a view's newest
/// connection from older ones.
#[derive(Clone, Debug, Drop)]
pub enum Request {
    /// The view comes, or comes again on a new connection, which makes its old one stale.
    Join {
        view: u32,
        now: u64,
        want: Want,
    },
    /// The view sends an event. It numbers its events 1, 2, 3 and so on, and may repeat one.
    Send {
        view: u32,
        joined: u32,
        number: u32,
        payload: Blob,
        now: u64,
    },
    /// Time goes on without an entry.
    Tick {
        now: u64,
    },
    /// The view goes.
    Leave {
        view: u32,
        joined: u32,
        now: u64,
    },
    /// The view offers a snapshot of its world at a TeaTime for views to come.
    Offer {
        view: u32,
        joined: u32,
        time: u64,
        bytes: Blob,
    },
    /// At most `limit` entries that stand after the seq `after` are wanted.
    Pull {
        after: u32,
        limit: u32,
    },
}

/// Requests in order.
pub type Requests = List<Request>;

/// What a session answers. A seq is an entry's place in the log, from 1.
/// Times are TeaTimes: microseconds since the founding, below 2^53.
#[derive(Debug, Drop)]
pub enum Reply {
    /// A Join was appended at `seq`, with this time. `last` is the number of the view's last event,
    /// 0 if it sent none. The view's entries begin after the seq `from`, and its world starts from
    /// `base` where there is one.
    Joined {
        seq: u32,
        time: u64,
        last: u32,
        from: u32,
        base: Option<Base>,
    },
    /// The event was appended at `seq`, with this time.
    Stamped {
        seq: u32,
        time: u64,
    },
    /// The event stands in the log already, with this payload, at `seq` and this time.
    Again {
        seq: u32,
        time: u64,
    },
    /// The horizon is now `time`.
    Ticked {
        time: u64,
    },
    /// An Exit was appended at `seq`, with this time.
    Left {
        seq: u32,
        time: u64,
    },
    /// The snapshot is kept from now on, in place of an older one.
    Kept,
    /// The entries wanted. Where they reach the end of the log, `tick` is the horizon: no later
    /// entry has this time or less.
    Batch {
        entries: Entries,
        tick: Option<u64>,
    },
    /// Nothing was done.
    Refused(Refusal),
}

/// Replies in order.
pub type Replies = List<Reply>;

/// Why a request was refused. Each refusal carries the value that the session keeps. They are
/// numbered from 1 in this order.
#[derive(Clone, Copy, Debug, PartialEq, Eq)]
pub enum Refusal {
    /// The view is not here, or joined again since: its last Join or Exit has the seq `current`, 0
    /// if there is none.
    Stale { current: u32 },
    /// An event's payload has more than 4,096 bytes, or a snapshot more than 4,194,304. It has
    /// `len`, given as 2^32 - 1 where that is less.
    TooLong { len: u32 },
    /// An event with this number was sent with another payload. It stands at `seq`.
    Differs { seq: u32 },
    /// The event's number is 0, or above that of the view's next event, which is `expected`.
    Gap { expected: u32 },
    /// The log has 1,048,576 entries or more, or has no room for the payload: at most 67,108,864
    /// payload bytes. It has these.
    LogFull { entries: u32, bytes: u64 },
    /// The horizon is 2^53 - 4,096 or more: nothing is stamped from then on but Exits.
    TimeEnd { horizon: u64 },
    /// The view is not here, and 1,024 views are.
    ViewsFull { here: u32 },
    /// No view has the number 0.
    BadView,
    /// The time that was named is above the horizon.
    Ahead { horizon: u64 },
    /// The kept snapshot has the time `kept`, which is not below that of the one offered.
    Older { kept: u64 },
    /// The log has `len` entries, fewer than the seq that was named.
    NoSuchSeq { len: u32 },
}
