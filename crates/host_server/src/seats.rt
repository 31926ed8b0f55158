//! Passes in lists.
use session_lock::Pass;
use std::marker::Model;

/// A pass that a list holds. What a list lends has a size, and a pass alone has none. Contracts see the pass.
#[derive(Drop)]
pub struct Seat<K> {
    pub pass: Pass<K>,
    size: u8,
}

impl<K> Model for Seat<K> {
    ghost use Rattle.session_lock.specs.Passes.{PassState};

    ghost Value = { PassState };

    ghost view = { λ seat. seat.pass };
}

impl<K> Seat<K> {
    ghost use Rattle.std.specs.Prelude.{◌≡◌};

    /// The seat that holds this pass.
    pub fn new(pass: Pass<K>) -> Seat<K>
        ensures { result ≡ pass }
    {
        Seat { pass, size: 0 }
    }

    /// The pass that it holds.
    pub fn into_pass(self) -> Pass<K>
        ensures { result ≡ self }
    {
        let Seat { pass, .. } = self;
        pass
    }
}
