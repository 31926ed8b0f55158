//! What holds of each script of a hub.
ghost use Rattle.std.specs.Prelude.{List};
ghost use Rattle.command_hub.specs.HubRun.{IsOfCalls};
ghost use Rattle.command_hub.specs.declared.script.HubLine.{HubLine};

use session_hub::sessions_are_apart;

/// What a script of a hub leaves and prints is what calls of a hub leave and reply, one for each line. The replies to the lines of
/// one name are those that a session gives to these requests alone, from the first session on, but for `hub-full`.
pub fn names_are_apart()
    ensures { (lines : List HubLine) → IsOfCalls lines }
{
    sessions_are_apart();
}
