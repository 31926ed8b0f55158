//! Files of the system by which a program is told something.
ghost use Rattle.std.specs.Prelude.{⊤};

use net_shares::Signs;
use std::fs;
use std::rt::Files;
use tea_base::Text;

/// The files of the system. No clause says which are there.
#[derive(Drop)]
pub struct FileSigns<'a, R> {
    rt: &'a R,
}

impl<'a, R: Files> FileSigns<'a, R> {
    /// The files that the runtime has. Takes no memory.
    pub fn new(rt: &'a R) -> FileSigns<'a, R> {
        FileSigns { rt }
    }
}

impl<R: Files> Signs for FileSigns<'_, R> {
    ghost may_be = { λ signs name. ⊤ };

    fn is_there(&self, name: &Text) -> bool {
        fs::metadata(self.rt, name.as_str()).is_ok()
    }
}
