//! What the session of a script leaves.
ghost use Rattle.std.specs.Prelude.{◌≡◌, IfOk};
ghost use Rattle.session_log.specs.Stored.{stored_spelling};
ghost use Rattle.reflector_core.specs.Stored.{stored_of};
ghost use Rattle.command_outcome.specs.Outcome.{optional_put};

use command_outcome::{Puts, optional_put};
use reflector_core::Session;
use std::alloc::Global;
use tea_base::{Text, WantOfMemory};

/// A session as it is stored, where a file for it is given.
pub fn log_files(alloc: Global, name: Option<Text>, session: &Session) -> Result<Puts, WantOfMemory>
    ensures { IfOk result (λ files. files ≡ optional_put name (stored_spelling (stored_of session.now.plain))) }
{
    if name.is_none() {
        return Ok(Puts::new(alloc));
    }
    optional_put(alloc, name, session.store()?)
}
