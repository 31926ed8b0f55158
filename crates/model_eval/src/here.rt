//! Where a method runs, and what starts one.
ghost use Rattle.std.specs.Prelude.{◌≡◌};

use model_solved::Checked;
use std::alloc::Global;

/// What starts methods: a program, and how many more statements and expressions may be open.
#[derive(Clone, Copy)]
pub struct Starter<'a> {
    pub alloc: Global,
    pub program: &'a Checked,
    pub room: u32,
}

/// Where a method runs: on this object. It may start others.
#[derive(Clone, Copy)]
pub struct Here<'a> {
    pub starter: Starter<'a>,
    pub object: u32,
}

impl<'a> Here<'a> {
    /// The same, where so many more statements and expressions may be open.
    pub fn with_room(&self, room: u32) -> Here<'a>
        ensures { let here = self.now in result ≡ record here { starter = record (here.starter) { room = room } } }
    {
        let starter = Starter {
            room,
            ..self.starter
        };
        Here { starter, ..*self }
    }
}
