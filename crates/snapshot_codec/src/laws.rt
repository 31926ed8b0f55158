//! What is written is read.
ghost use Rattle.std.specs.Prelude.{◌≡◌, ℕ, List, IfErr, IfOk};
ghost use Rattle.model_solved.specs.Methods.{field_counts};
ghost use Rattle.model_solved.specs.Founding.{checked_tree};
ghost use Rattle.world_plain.specs.Valid.{Valid};
ghost use Rattle.world_plain.specs.World.{WorldRecord, world_record};
ghost use Rattle.snapshot_codec.specs.Answer.{IsWorld, snapshot_world};
ghost use Rattle.snapshot_codec.specs.Spelling.{world_spelling};

use crate::fault::SnapFault;
use crate::reading::unsnap;
use crate::writing::snapshot;
use model_solved::Checked;
use std::alloc::Global;
use world_plain::PlainWorld;

/// A world, written as a snapshot and read again. Fails for want of memory alone.
pub fn again(alloc: Global, program: &Checked, world: &PlainWorld) -> Result<PlainWorld, SnapFault>
    requires { Valid (field_counts (checked_tree program.now)) (world_record world.now) }
    ensures same { IfOk result (λ read. world_record read ≡ world_record world.now) }
    ensures want { IfErr result (λ fault. fault ≡ SnapFault.WantOfMemory) }
{
    let bytes = snapshot(alloc, world)?;
    unsnap(alloc, program, &world.id, bytes.bytes())
}

/// The bytes of a valid world are the snapshot of that world, and of no other one.
pub fn snapshot_is_of_its_world()
    ensures { (counts : List ℕ) (w : WorldRecord) → IsWorld w → Valid counts w
        → snapshot_world counts w.id (world_spelling w) ≡ Some w }
{}
