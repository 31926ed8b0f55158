//! Files in memory by which a program is told something.
ghost use Rattle.std.specs.Prelude.{◌≡◌, ◌↔◌, true, Contains};

use crate::signs::Signs;
use tea_base::{Text, Words};

/// The files of these names are there, and no others.
#[derive(Drop)]
pub struct MemSigns {
    pub names: Words,
}

impl Signs for MemSigns {
    ghost may_be = { λ signs name. Contains signs.names name };

    fn is_there(&self, name: &Text) -> bool
        ensures cause { result ≡ true → Contains self.now.names name.now }

        // It says so of each of them.
        ensures each { Contains self.now.names name.now → result ≡ true }
    {
        self.names
            .as_slice()
            .iter()
            .any(|other| other.is_text(name))
    }
}
