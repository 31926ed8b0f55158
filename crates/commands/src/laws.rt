//! Laws of what comes of a command.
ghost use Rattle.commands.specs.Laws.{IsFunction, LogsTellTheirEvents, SnapshotsAgree, SomeVerdictComes};

use model_lang::one_reading;
use replica::resumed_follows;

/// The verdicts that come of a command are one, step by step, as long as their steps were told the same, but for want of memory
/// and for the place in a text that is no program.
pub fn one_verdict()
    ensures { IsFunction }
{
    one_reading();
}

/// Whatever the files of a command give, some verdict comes that is closed otherwise than by want of memory.
pub fn some_verdict()
    ensures { SomeVerdictComes }
{
    one_reading();
}

/// The log that a script leaves has the events of the log that it began with, and then each event that was answered Stamped, once and in order.
pub fn logs_tell_their_events()
    ensures { LogsTellTheirEvents }
{}

/// Where the snapshot of a replay is of a world that follows the log, the same comes of it as without it.
pub fn snapshots_agree()
    ensures { SnapshotsAgree }
{
    resumed_follows();
}
