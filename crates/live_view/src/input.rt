//! What a live view is told, and where it stands.
use replica_plain::How;
use tea_base::Blob;
use tea_io::Heard;
use view_shell::ViewEnd;

/// What a live view is told: one thing at a time.
#[derive(Drop)]
pub enum LiveInput {
    /// A link is there.
    Linked,
    /// No link was made.
    LinkFailed,
    /// The link said this.
    Says(Heard),
    /// A line came, without the LF that ends it.
    Line(Blob),
    /// No line will come.
    Closed,
}

/// What a view hears its link for.
#[derive(Clone, Copy, Debug, PartialEq, Eq)]
pub enum Goal {
    /// A Sync.
    Join(How),
    /// A time.
    Reach(u64),
    /// That each event is acknowledged.
    Settle,
    /// The answer to its snapshot.
    Snap,
    /// An entry, on which it votes.
    See(u32),
    /// That few enough events are not acknowledged. So does a view that has no line at work.
    CatchUp,
}

/// Where a view stands while it waits.
#[derive(Clone, Copy, Debug, PartialEq, Eq)]
pub enum Place {
    /// It wants a link, on which it joins so.
    Unlinked(How),
    /// It hears its link.
    Hears(Goal),
    /// It has ended.
    Gone(ViewEnd),
}
