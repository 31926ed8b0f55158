//! From a world to the line that tells it, and to its text in full.
ghost use Rattle.std.specs.Prelude.{◌≡◌, string_bytes, ◌∷◌, [], codes, sum, IfOk};
ghost use Rattle.model_tree.specs.TreeView.{program_tree};
ghost use Rattle.snapshot_codec.specs.Conditions.{IsValid};
ghost use Rattle.world_plain.specs.World.{world_record};
ghost use Rattle.text_lines.specs.Lines.{spell_numbers};
ghost use Rattle.world_lines.specs.WorldText.{counts_part, digest_part, digested_world_line, full_text, world_line};

use crate::lines::world_lines;
use model_tree::Class;
use snapshot_codec::{digest, snapshot};
use std::alloc::Global;
use tea_base::WantOfMemory;
use text_lines::spell_numbers;
use world_plain::PlainWorld;

/// The numbers of a world.
fn counts_part(alloc: Global, world: &PlainWorld) -> Result<String, WantOfMemory>
    ensures { IfOk result (λ text. string_bytes text ≡ counts_part (world_record world.now)) }
{
    let mut text = spell_numbers(alloc, "time", &[world.time])?;
    let objects = spell_numbers(alloc, " objects", &[world.objects.len() as u64])?;
    let pending = spell_numbers(alloc, " pending", &[world.pending.len() as u64])?;
    let subscriptions = spell_numbers(
        alloc,
        " subscriptions",
        &[world.subscriptions.len() as u64],
    )?;
    text.push_str(objects.as_str())?;
    text.push_str(pending.as_str())?;
    text.push_str(subscriptions.as_str())?;
    Ok(text)
}

/// How many faults there were of all kinds.
fn faults_sum(faults: &[u64; 14]) -> u128
    ensures { result ≡ sum faults.now }
{
    let mut total = 0;
    for count in faults {
        total += u128::from(*count);
    }
    total
}

/// How often messages were ended by faults of any kind.
fn faults_part(alloc: Global, faults: &[u64; 14]) -> Result<String, WantOfMemory>
    ensures { IfOk result (λ text. string_bytes text ≡ spell_numbers (codes " faults") (sum faults.now ∷ [])) }
{
    let mut text = String::from_str(alloc, " faults ")?;
    text.push_str(faults_sum(faults).to_string(alloc)?.as_str())?;
    Ok(text)
}

/// The digest of a snapshot.
fn digest_part(alloc: Global, digest: &[u8; 32]) -> Result<String, WantOfMemory>
    ensures { IfOk result (λ text. string_bytes text ≡ digest_part digest.now) }
{
    let mut text = String::from_str(alloc, " digest ")?;
    text.push_str(hex::encode(alloc, digest.as_slice())?.as_str())?;
    Ok(text)
}

/// The line of a world with the digest of its snapshot.
pub fn world_line(
    alloc: Global,
    world: &PlainWorld,
    digest: &[u8; 32],
) -> Result<String, WantOfMemory>
    ensures { IfOk result (λ line. string_bytes line ≡ digested_world_line (world_record world.now) digest.now) }
{
    let mut line = counts_part(alloc, world)?;
    let faults = faults_part(alloc, &world.faults)?;
    let digest = digest_part(alloc, digest)?;
    line.push_str(faults.as_str())?;
    line.push_str(digest.as_str())?;
    line.push_str("\n")?;
    Ok(line)
}

/// The line of a world, with the digest of its own snapshot. It fails only where it runs out of memory.
pub fn line_of(alloc: Global, world: &PlainWorld) -> Result<String, WantOfMemory>
    requires { IsValid (world_record world.now) }
    ensures { IfOk result (λ line. string_bytes line ≡ world_line (world_record world.now)) }
{
    let snapshot = snapshot(alloc, world)?;
    world_line(alloc, world, &digest(snapshot.bytes()))
}

/// A world of a program with these classes in full: its line, and the lines of what is in it. It fails only where it runs out of
/// memory.
pub fn full_text(
    alloc: Global,
    classes: &[Class],
    world: &PlainWorld,
) -> Result<String, WantOfMemory>
    requires { IsValid (world_record world.now) }
    ensures { IfOk result (λ text. string_bytes text ≡ full_text (program_tree classes.now) (world_record world.now)) }
{
    let mut text = line_of(alloc, world)?;
    text.push_str(world_lines(alloc, classes, world)?.as_str())?;
    Ok(text)
}
