//! A value that was saved.
ghost use Rattle.std.specs.Prelude.{◌≡◌, ◌≤◌, IfOk};
ghost use Rattle.model_value.specs.Plain.{nil, most_weight};
ghost use Rattle.model_value.specs.View.{plain};
ghost use Rattle.saved_value.specs.Saving.{CanBeSaved, saved_weight};

use model_value::{Value, copy, weight};
use std::alloc::Global;
use std::marker::Model;
use tea_base::WantOfMemory;

/// A value that can be saved, with its weight. Contracts see the value. Nil stands for none, and weighs nothing.
#[derive(Drop)]
pub struct Saved {
    held: Value,
    weighs: u32,
}

impl Model for Saved {
    ghost use Rattle.model_value.specs.Plain.{PlainValue};
    ghost use Rattle.model_value.specs.PlainCode.{coded_plain};
    ghost use Rattle.model_value.specs.View.{plain};
    ghost use Rattle.saved_value.specs.Saving.{IsWeighed};

    ghost Value = { PlainValue };

    ghost coded = { coded_plain };

    ghost view = { λ saved. plain saved.held };

    ghost invariant = { λ saved. IsWeighed saved.weighs (plain saved.held) };
}

impl Saved {
    /// No saved value.
    pub fn none() -> Saved
        ensures { result ≡ nil }
    {
        Saved {
            held: Value::Nil,
            weighs: 0,
        }
    }

    /// A value as saved. It has to be one that can be.
    pub fn of(value: Value) -> Saved
        requires { CanBeSaved (plain value) }
        ensures { result ≡ plain value }
    {
        let weighs = weight_as_saved(&value);
        Saved {
            held: value,
            weighs,
        }
    }

    /// The value, which can be saved.
    pub fn value(&self) -> &Value
        ensures value { plain result.now ≡ self.now }
        ensures fit { CanBeSaved self.now }
    {
        &self.held
    }

    /// How much it weighs: nothing where it is nil, and else as the value. Takes no walk.
    pub fn weight(&self) -> u32
        ensures weight { result ≡ saved_weight self.now }
        ensures bound { result ≤ most_weight }
    {
        self.weighs
    }

    /// The same in memory of its own.
    pub fn copy(&self, alloc: Global) -> Result<Saved, WantOfMemory>
        ensures { IfOk result (λ new. new ≡ self.now) }
    {
        Ok(Saved {
            held: copy(alloc, &self.held)?,
            weighs: self.weighs,
        })
    }
}

/// How much a value weighs as saved.
fn weight_as_saved(value: &Value) -> u32
    requires { CanBeSaved (plain value.now) }
    ensures { result ≡ saved_weight (plain value.now) }
{
    match value {
        Value::Nil => 0,
        _ => weight(value),
    }
}
