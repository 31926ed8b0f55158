//! A world as plain data: all that the models of a session hold at a time, as a snapshot has it, and which worlds are
//! valid.
//!
//! [`PlainWorld`] is the session's id, the world's time and its other numbers, the views that are here, and its
//! objects, known names, subscriptions and pending messages. [`valid`] tells whether a world is valid for a program,
//! and [`room`] what weight may still be added to it, up to [`MOST_WORLD_WEIGHT`].
#![tactic(auto)]

mod copies;
mod equality;
mod limits;
mod message;
mod messages;
mod objects;
mod places;
mod refusal;
mod subscriptions;
mod validity;
mod weights;
mod world;

pub use copies::{
    copy_known_names, copy_message, copy_messages, copy_numbers, copy_subscription,
    copy_subscriptions,
};
pub use limits::{
    MOST_ARGUMENTS, MOST_MESSAGES, MOST_OBJECTS, MOST_SUBSCRIPTIONS, MOST_TURNS, MOST_VIEWS,
    MOST_WORLD_WEIGHT,
};
pub use message::{Message, Messages, Outgoing, Published, Subscription, Subscriptions};
pub use refusal::StoreRefusal;
pub use validity::valid;
pub use weights::{message_fits, object_fits, room, subscription_fits, value_fits};
pub use world::{Known, KnownNames, PlainObject, PlainObjects, PlainWorld};
