//! The size of a drill.

/// From which number its sources start, how many views it has, and how many events each of them publishes.
#[derive(Clone, Copy, Debug)]
pub struct Size {
    pub seed: u32,
    /// From 1 to 8.
    pub views: u32,
    /// At most 10,000.
    pub events: u32,
}
