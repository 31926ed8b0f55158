//! The world of a view, as it is shown.
ghost use Rattle.std.specs.Prelude.{◌≡◌, IfOk, string_bytes};
ghost use Rattle.model_solved.specs.Founding.{checked_tree};
ghost use Rattle.world_lines.specs.WorldText.{full_text};
ghost use Rattle.view_shell.specs.Viewers.{KnowsItself};

use crate::watcher::Watcher;
use tea_base::WantOfMemory;
use world_lines::full_text;

/// The world of a view in full. It fails only where it runs out of memory.
pub fn world_text(watcher: &Watcher) -> Result<String, WantOfMemory>
    requires knows { KnowsItself watcher.now }
    ensures { IfOk result (λ text. string_bytes text
        ≡ full_text (checked_tree watcher.now.replica.program) watcher.now.replica.plain.world) }
{
    match watcher.replica.to_plain() {
        Ok(world) => full_text(watcher.alloc, watcher.program.program().classes(), &world),
        // A replica is broken for want of memory alone.
        Err(_) => Err(WantOfMemory),
    }
}
