//! The world of a snapshot.
ghost use Rattle.model_solved.specs.Founding.{checked_tree};
ghost use Rattle.std.specs.Arc.{arc_value};
ghost use Rattle.world.specs.Worlds.{field_counts};
ghost use Rattle.world_plain.specs.Valid.{Valid};
ghost use Rattle.world_plain.specs.World.{world_record};

use model_solved::Checked;
use snapshot_codec::{SnapFault, unsnap};
use std::alloc::Global;
use std::sync::Arc;
use tea_base::{SessionId, WantOfMemory};
use world::World;
use world_plain::PlainWorld;

/// The world that was taken up from plain data.
fn taken_up(
    alloc: Global,
    program: &Arc<Checked, Global>,
    plain: &PlainWorld,
) -> Result<World, WantOfMemory>
    requires { Valid (field_counts (checked_tree (arc_value program.now))) (world_record plain.now) }
{
    World::from_plain(alloc, program.clone()?, plain)
}

/// The world of a snapshot, if that is one of the session.
pub fn world_of(
    alloc: Global,
    program: &Arc<Checked, Global>,
    id: &SessionId,
    bytes: &[u8],
) -> Result<Option<World>, WantOfMemory> {
    match unsnap(alloc, program, id, bytes) {
        Ok(plain) => Ok(Some(taken_up(alloc, program, &plain)?)),
        Err(SnapFault::Bad) => Ok(None),
        Err(SnapFault::OtherSession { .. }) => Ok(None),
        Err(SnapFault::WantOfMemory) => Err(WantOfMemory),
    }
}
