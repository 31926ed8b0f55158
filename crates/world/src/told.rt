//! What is told of the steps of a world.
use model_value::Values;
use tea_base::Text;

/// A message that ran.
#[derive(Drop)]
pub struct RanMessage {
    /// When it was due, in microseconds of TeaTime since the session's founding.
    pub time: u64,
    /// The number of the object.
    pub object: u32,
    /// The number of the object's class, as the message began.
    pub class: u16,
    /// The name of the method.
    pub method: Text,
    /// What the method was called with, in the order of its parameters.
    pub args: Values,
}

/// An event that models heard of an entry.
#[derive(Drop)]
pub struct HeardEvent {
    pub scope: Text,
    pub event: Text,
    /// How many handlers were subscribed to it as the entry came.
    pub handlers: usize,
}
