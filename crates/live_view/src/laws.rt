//! What a live view is to a script.
ghost use Rattle.live_view.specs.Script.{LiveIsScript};

/// For lines that all come before the first frame, and then the end, frames and text are those of the script of these lines.
pub fn live_is_script()
    ensures { LiveIsScript }
{}
