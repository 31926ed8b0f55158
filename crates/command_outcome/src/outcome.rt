//! What comes of a command: what it puts and prints, or its one refusal.
ghost use Rattle.std.specs.Prelude.{◌≡◌, ◌++◌, ◌∷◌, [], IfOk, OnOk};
ghost use Rattle.command_outcome.specs.Outcome.{numbered_name, numbered_put, optional_put};

use std::alloc::Global;
use std::fmt::Write;
use tea_base::{Blob, List, Text, WantOfMemory};

/// An input of a command.
#[derive(Clone, Copy, Debug, PartialEq, Eq)]
pub enum Input {
    Script,
    Program,
    Log,
    /// The journal of a session.
    Journal,
    Snapshot,
    /// The JSON of a persisted value.
    Persisted,
    /// The time that a replay is asked for, below that of its snapshot.
    Time,
    /// The address to which a view connects.
    Address,
    /// After how many entries an inspection keeps a world, which are too few for the log.
    Every,
    /// The queries of an inspection.
    Queries,
    /// The configuration of a host, or sessions of it that have one id.
    Config,
}

/// Why a command is refused.
#[derive(Debug, Drop)]
pub enum CommandRefusal {
    /// The words break their rules.
    Usage,
    /// The program is refused, with the line that tells why.
    Program { line: Blob },
    /// This input is not in its grammar or above its limit, or it is a time below that of the snapshot, no address, or a number
    /// of entries after which too many worlds would be kept.
    Input(Input),
}

/// Bytes, and the name under which they are put.
#[derive(Debug, Drop)]
pub struct Put {
    pub name: Text,
    pub bytes: Blob,
}

/// Files that are put, in order.
pub type Puts = List<Put>;

/// What a command does: it puts its files, and then prints its text.
#[derive(Debug, Drop)]
pub struct Outcome {
    pub files: Puts,
    pub text: Blob,
}

/// The bytes under the name that was given, if one was.
pub fn optional_put(alloc: Global, name: Option<Text>, bytes: Blob) -> Result<Puts, WantOfMemory>
    ensures { IfOk result (λ files. files ≡ optional_put name bytes) }
{
    let mut files = Puts::new(alloc);
    if let Some(name) = name {
        files.push(Put { name, bytes })?;
    }
    Ok(files)
}

/// A name that ends in a number.
pub fn numbered_name(alloc: Global, prefix: &Text, number: u64) -> Result<Text, WantOfMemory>
    ensures { IfOk result (λ name. name ≡ numbered_name prefix.now number) }
{
    let mut name = String::from_str(alloc, prefix.as_str())?;
    write!(name, "{number}")?;
    Text::copy(alloc, name.as_str())
}

/// Adds bytes under a name that ends in this number.
pub fn put_numbered(
    alloc: Global,
    files: &mut Puts,
    prefix: &Text,
    number: u64,
    bytes: Blob,
) -> Result<(), WantOfMemory>
    ensures { OnOk result (files.new ≡ files.old ++ numbered_put prefix.now number bytes ∷ []) }
{
    let name = numbered_name(alloc, prefix, number)?;
    files.push(Put { name, bytes })
}
