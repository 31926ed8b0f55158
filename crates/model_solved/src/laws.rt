//! Checked programs and threads.
ghost use Rattle.std.specs.Thread.{IsSend, IsSync};
ghost use Rattle.model_solved.specs.contracts.checked.Checked as checked;

/// A checked program may go to another thread, and threads may share one.
pub fn checked_crosses_threads()
    ensures send { IsSend checked.the_row }
    ensures sync { IsSync checked.the_row }
{}
