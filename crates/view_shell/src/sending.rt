//! Frames that a view sends.
ghost use Rattle.std.specs.Prelude.{◌≡◌, ℕ, List, [], OnOk};
ghost use Rattle.std.specs.List.{AllByRecursion};
ghost use Rattle.wire_frames.specs.declared.frame.ClientFrame.{ClientFrame as Frame};
ghost use Rattle.wire_frames.specs.declared.frame.ClientFrame.TheVariants.{Alive};
ghost use Rattle.wire_frames.specs.Frames.{FitsClient};
ghost use Rattle.run_steps.specs.Outside.{links_tell};
ghost use Rattle.replica_plain.specs.Calls.{gives, unsent};
ghost use Rattle.replica.specs.View.{with_plain};
ghost use Rattle.view_script.specs.PlainLine.{PlainLine};
ghost use Rattle.view_shell.specs.Phases.{IsReadAsWorld, Sending, Task, Viewer, go_on, send_all, after_giving};
ghost use Rattle.view_shell.specs.Viewers.{HasHeard, IsReady, viewer};
ghost use Rattle.view_shell.specs.ViewRun.{GoesOrStops, LinkActs};

use crate::ending::ViewEnd;
use crate::watcher::Watcher;
use run_steps::{CallFault, send_frame};
use tea_io::Link;
use wire_frames::{ClientFrame, typed_client, write_client};

/// A view that heard its link so often and sent nothing says that it is alive.
pub const MOST_RECEIVES: u32 = 1000;

/// Sends a frame that fits its fields. A snapshot is one of the view's world.
pub fn send<L: Link>(
    watcher: &mut Watcher,
    link: &mut L,
    frame: &ClientFrame,
) -> Result<(), ViewEnd>
    requires { FitsClient frame.now }
    ensures kept { watcher.new ≡ record watcher.old { receives = watcher.new.receives } }
    ensures sent { OnOk result (watcher.new.receives ≡ 0) }
    ensures talk { (v : Viewer) (frames : List Frame) (task : Task) → IsReadAsWorld v frame.now
        → GoesOrStops (LinkActs (links_tell L.Link)) (Sending v frame.now frames task) (λ _.
        send_all (record v { receives = 0 }) frames task) result link.old link.new }
{
    typed_client(frame); // for the prover
    let bytes = write_client(watcher.alloc, frame)?;
    match send_frame(link, bytes.bytes()) {
        Ok(()) => {
            watcher.receives = 0;
            Ok(())
        }
        Err(CallFault::Failed) => Err(ViewEnd::NetFault),
        Err(CallFault::WantOfMemory) => Err(ViewEnd::WantOfMemory),
    }
}

/// Sends frames in order, each as [`send`] does.
pub fn send_all<L: Link>(
    watcher: &mut Watcher,
    link: &mut L,
    frames: &[ClientFrame],
) -> Result<(), ViewEnd>
    requires { AllByRecursion FitsClient frames.now }
    ensures kept { watcher.new ≡ record watcher.old { receives = watcher.new.receives } }
    ensures ready { IsReady watcher.old → OnOk result (IsReady watcher.new) }
    ensures talk { (v : Viewer) (task : Task) → v.receives ≡ watcher.old.receives
        → AllByRecursion (IsReadAsWorld v) frames.now
        → GoesOrStops (LinkActs (links_tell L.Link)) (send_all v frames.now task) (λ _.
        send_all (record v { receives = watcher.new.receives }) [] task) result link.old link.new }
{
    for frame in frames {
        send(watcher, link, frame)?;
    }
    Ok(())
}

/// Sends the events that were not given yet.
pub fn send_unsent<L: Link>(watcher: &mut Watcher, link: &mut L) -> Result<(), ViewEnd>
    ensures kept { watcher.new ≡ record watcher.old { receives = watcher.new.receives; replica = watcher.new.replica } }
    ensures replica { OnOk result (watcher.new.replica
        ≡ with_plain watcher.old.replica (gives watcher.old.replica.plain)) }
    ensures ready { IsReady watcher.old → OnOk result (IsReady watcher.new) }
    ensures talk { (address : List ℕ) (lines : List PlainLine) (task : Task)
        → GoesOrStops (LinkActs (links_tell L.Link))
        (send_all (after_giving (viewer address watcher.old lines)) (unsent watcher.old.replica.plain) task) (λ _.
        send_all (viewer address watcher.new lines) [] task) result link.old link.new }
{
    let frames = watcher.replica.unsent()?;
    send_all(watcher, link, frames.as_slice())
}

/// A view that heard its link often enough and sent nothing says that it is alive.
pub fn stay_alive<L: Link>(watcher: &mut Watcher, link: &mut L) -> Result<(), ViewEnd>
    requires heard { HasHeard watcher.old }
    ensures kept { watcher.new ≡ record watcher.old { receives = watcher.new.receives } }
    ensures ready { OnOk result (IsReady watcher.new) }
    ensures talk { (v : Viewer) (frames : List Frame) (task : Task) → v.receives ≡ watcher.old.receives
        → GoesOrStops (LinkActs (links_tell L.Link))
        (go_on v frames task) (λ _. send_all (record v { receives = watcher.new.receives }) frames task) result link.old
        link.new }
{
    if watcher.receives != MOST_RECEIVES {
        return Ok(());
    }
    send(watcher, link, &ClientFrame::Alive)
}
