//! Notes and threads.
ghost use Rattle.std.specs.Thread.{IsSend};
ghost use Rattle.run_notes.specs.contracts.guest.Guest as guest;
ghost use Rattle.run_notes.specs.contracts.watch.WorldWatch as watch;

use model_solved::checked_crosses_threads;
use world::world_crosses_threads;

/// What follows a link may go to another thread with it.
pub fn notes_cross_threads()
    ensures guest { IsSend guest.the_row }
    ensures watch { IsSend watch.the_row }
{
    checked_crosses_threads();
    world_crosses_threads();
}
