//! A gate that workers pass.

/// A place that each worker passes before each of its turns. A test can hold workers there.
pub trait Gate {
    /// Returns after a bounded number of looks at what others have set. Promises nothing else.
    fn pass(&self, worker: u32, turn: u32);
}

/// Lets all workers through at once.
#[derive(Clone, Copy, Debug)]
pub struct OpenGate;

impl Gate for OpenGate {
    fn pass(&self, _worker: u32, _turn: u32) {}
}
