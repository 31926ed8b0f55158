//! What runs a method, from outside: a call, or an event of which models are told.
use model_value::{Value, Values};
use tea_base::Text;

/// A method to start on an object, and its arguments.
#[derive(Drop)]
pub struct Call<'a> {
    pub object: u32,
    pub method: &'a Text,
    pub args: Values,
}

/// An event of which models are told: its scope, its name there, the value that their methods start with, and the view that sent
/// it, or none where a model published it.
#[derive(Clone, Copy)]
pub struct Event<'a> {
    pub scope: &'a Text,
    pub name: &'a Text,
    pub value: &'a Value,
    pub sender: Option<u32>,
}
