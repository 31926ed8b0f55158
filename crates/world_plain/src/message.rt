//! What models send, publish and subscribe to.
use model_value::{Value, Values};
use tea_base::{List, Text};

/// A subscription: an object's method is called at each event of this name that is published in this scope.
#[derive(Drop)]
pub struct Subscription {
    pub scope: Text,
    pub event: Text,
    /// The number of the object.
    pub object: u32,
    /// The name of its method.
    pub method: Text,
}

/// Subscriptions in order.
pub type Subscriptions = List<Subscription>;

/// A message: a call of an object's method at a time.
#[derive(Drop)]
pub struct Message {
    /// When it is due, in microseconds of TeaTime since the session's founding.
    pub time: u64,
    /// Its number, which orders the messages of one time.
    pub number: u64,
    /// The number of the object.
    pub object: u32,
    /// The name of its method.
    pub method: Text,
    /// What the method is called with, in the order of its parameters.
    pub args: Values,
}

/// Messages in order.
pub type Messages = List<Message>;

/// What a model published: an event with a value, in a scope.
#[derive(Drop)]
pub struct Outgoing {
    /// When it was published, in microseconds of TeaTime since the session's founding.
    pub time: u64,
    pub scope: Text,
    pub event: Text,
    pub value: Value,
}

/// What models published, in order.
pub type Published = List<Outgoing>;
