//! Stretches of time.

/// A stretch of time, with both its ends in it, in microseconds of TeaTime. There is nothing in one that ends before it begins.
#[derive(Clone, Copy, Debug, PartialEq, Eq)]
pub struct Stretch {
    pub from: u64,
    pub to: u64,
}
