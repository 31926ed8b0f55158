//! Worlds of snapshots.
ghost use Rattle.byte_fields.specs.Fields.{Decodes};
ghost use Rattle.model_solved.specs.Methods.{field_counts};
ghost use Rattle.model_solved.specs.Founding.{checked_tree};
ghost use Rattle.world_plain.specs.World.{WorldRecord, world_record};
ghost use Rattle.snapshot_codec.specs.Answer.{HasId, IsSnapshot, ReadsWorld, TellsOther, Unsnaps, snapshot_world};

use crate::fault::SnapFault;
use crate::parts::{id_at, read_all};
use model_solved::Checked;
use model_value::ValueFault;
use std::alloc::Global;
use tea_base::SessionId;
use world_plain::{PlainWorld, valid};

/// The world of a session that the bytes spell, as [`snapshot`](crate::snapshot) writes it, in memory of its own.
///
/// `OtherSession` comes exactly where there are 32 bytes or more and the first 32 are another id, which it carries. `Bad`
/// comes exactly where that is not so and no world of this session that is valid for the program has this spelling: it
/// comes too where bytes follow the world.
///
/// No length and no count is trusted. What was read is then tested as [`valid`](world_plain::valid) says.
pub fn unsnap(
    alloc: Global,
    program: &Checked,
    id: &SessionId,
    bytes: &[u8],
) -> Result<PlainWorld, SnapFault>
    ensures answer { Unsnaps result (field_counts (checked_tree program.now)) id.now.0 bytes.now }
    // The same by the world that the bytes spell.
    ensures read { Decodes SnapFault.Bad world_record result
        (snapshot_world (field_counts (checked_tree program.now)) id.now.0 bytes.now) }
    // What is spelled so is read, unless memory runs out.
    ensures only { (w : WorldRecord) → IsSnapshot (field_counts (checked_tree program.now)) id.now.0 bytes.now w →
        ReadsWorld result w }
{
    read_session(alloc, program, id, bytes)
}

fn read_session(
    alloc: Global,
    program: &Checked,
    id: &SessionId,
    bytes: &[u8],
) -> Result<PlainWorld, SnapFault>
    ensures answer { Unsnaps result (field_counts (checked_tree program.now)) id.now.0 bytes.now }
    ensures only { (w : WorldRecord) → IsSnapshot (field_counts (checked_tree program.now)) id.now.0 bytes.now w →
        ReadsWorld result w }
{
    match other_session(id, bytes) {
        Some(found) => Err(SnapFault::OtherSession { found }),
        None => {
            let counts = program.field_counts(alloc)?;
            read_own(alloc, counts.as_slice(), id, bytes)
        }
    }
}

/// The id of another session with which the bytes begin.
fn other_session(id: &SessionId, bytes: &[u8]) -> Option<SessionId>
    ensures { TellsOther result id.now.0 bytes.now }
{
    match id_at(bytes) {
        Some((found, _rest)) if found != *id => Some(found),
        _ => None,
    }
}

/// The world that the bytes spell, which do not begin with the id of another session.
fn read_own(
    alloc: Global,
    counts: &[u32],
    id: &SessionId,
    bytes: &[u8],
) -> Result<PlainWorld, SnapFault>
    requires { HasId id.now.0 bytes.now }
    ensures answer { Unsnaps result counts.now id.now.0 bytes.now }
    ensures only { (w : WorldRecord) → IsSnapshot counts.now id.now.0 bytes.now w →
        ReadsWorld result w }
{
    match read_all(alloc, counts, bytes) {
        Ok(world) => {
            if valid(&world, counts) {
                Ok(world)
            } else {
                Err(SnapFault::Bad)
            }
        }
        Err(ValueFault::BadValue) => Err(SnapFault::Bad),
        Err(ValueFault::WantOfMemory) => Err(SnapFault::WantOfMemory),
    }
}
