//! What a view does on a new link.
ghost use Rattle.std.specs.Prelude.{◌≡◌, ℕ, false, List, Some, IsTrue, OnOk};
ghost use Rattle.view_script.specs.PlainLine.{PlainLine};
ghost use Rattle.view_shell.specs.Phases.{enter_session};
ghost use Rattle.view_shell.specs.Viewers.{IsReady, KnowsItself, viewer};
ghost use Rattle.live_view.specs.Doing.{Comes};

use crate::doing::send;
use crate::input::{Goal, Place};
use crate::outcome::LiveOutcome;
use replica::Replica;
use replica_plain::How;
use tea_base::WantOfMemory;
use view_shell::Watcher;

/// Whether a replica may join so. One is broken for want of memory alone, and then the view joins for a world made anew.
fn may_join(replica: &Replica, how: How) -> bool
    ensures { IsTrue result → how ≡ How.Resume → replica.now.plain.broken ≡ false }
{
    match how {
        How::Fresh => true,
        How::Whole => true,
        How::Resume => !replica.broken(),
    }
}

/// Joins on a new link.
pub fn join(watcher: &mut Watcher, out: &mut LiveOutcome, how: How) -> Result<(), WantOfMemory>
    requires knows { KnowsItself watcher.old }
    ensures ready { OnOk result (IsReady watcher.new) }
    ensures knows { KnowsItself watcher.new }
    ensures count { OnOk result (watcher.new.published ≡ watcher.old.published) }
    ensures told { (address : List ℕ) (lines : List PlainLine) → OnOk result (Comes out.old out.new
        (enter_session (viewer address watcher.old lines) how) (viewer address watcher.new lines)
        (Some (Place.Hears (Goal.Join how)))) }
{
    if !may_join(&watcher.replica, how) {
        return Err(WantOfMemory);
    }
    let frame = watcher.replica.join(how);
    watcher.quiets = 0;
    send(watcher, out, &frame)?;
    Ok(())
}
