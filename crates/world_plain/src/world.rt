//! A world as plain data: what a snapshot holds. What is said here of numbers and orders holds in a valid world.

use crate::message::{Messages, Subscriptions};
use model_value::{Value, Values};
use tea_base::{List, Numbers, SessionId, Text};

/// An object of a world.
#[derive(Drop)]
pub struct PlainObject {
    /// Its number, from 1.
    pub id: u32,
    /// The number of its class, from 0 in the order of the program.
    pub class: u16,
    /// What its fields hold, in the order of the class.
    pub fields: Values,
}

/// Objects, in a world by rising number.
pub type PlainObjects = List<PlainObject>;

/// A name by which models know an object.
#[derive(Drop)]
pub struct Known {
    pub name: Text,
    /// The number of the object.
    pub object: u32,
}

/// Known names, in a world rising by their characters.
pub type KnownNames = List<Known>;

/// A world: all that the models of a session hold at a time. `Valid` of the specs says which worlds are valid for a
/// program.
#[derive(Drop)]
pub struct PlainWorld {
    /// The session whose world it is.
    pub id: SessionId,
    /// Microseconds of TeaTime since the session's founding, below 2^53.
    pub time: u64,
    /// The number that the next object gets.
    pub next_object: u32,
    /// The number that the next message gets.
    pub next_number: u64,
    /// The state of the world's random numbers.
    pub random: u64,
    /// How many messages ran at this time, counted to 1,024.
    pub turns: u32,
    /// How often each kind of fault ended a message.
    pub faults: [u64; 14],
    /// The views that are here, rising.
    pub views: Numbers,
    pub objects: PlainObjects,
    pub known: KnownNames,
    /// Subscriptions in the order in which they were made.
    pub subscriptions: Subscriptions,
    /// Messages to come, by rising time and number.
    pub pending: Messages,
    /// The value that is saved for a later session, nil where there is none.
    pub saved: Value,
}
