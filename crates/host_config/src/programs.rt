//! The programs that sessions name.
ghost use Rattle.std.specs.Prelude.{◌≡◌, ◌+◌, ◌≤◌, bytes_eq, length, IfOk, OnOk};
ghost use Rattle.host_config.specs.Programs.{is_named, programs_of, with_name};

use crate::reading::SessionLine;
use std::alloc::Global;
use tea_base::{Text, WantOfMemory, Words};

/// Whether two names are the same.
fn is_same(name: &Text, other: &Text) -> bool
    ensures { result ≡ bytes_eq name.now other.now }
{
    name.is_text(other)
}

/// Whether a name is among these.
fn is_named(names: &[Text], name: &Text) -> bool
    ensures { result ≡ is_named names.now name.now }
{
    for other in names {
        if is_same(other, name) {
            return true;
        }
    }
    false
}

/// Adds a name, if it is not there.
fn add_name(names: &mut Words, name: &Text) -> Result<(), WantOfMemory>
    ensures names { OnOk result (names.new ≡ with_name names.old name.now) }
    ensures few { OnOk result (length names.new ≤ length names.old + 1) }
{
    if is_named(names.as_slice(), name) {
        return Ok(());
    }
    names.push(name.try_clone()?)
}

/// The programs that sessions name, each once, in the order in which they are named first.
pub fn programs_of(alloc: Global, sessions: &[SessionLine]) -> Result<Words, WantOfMemory>
    ensures names { IfOk result (λ names. names ≡ programs_of sessions.now) }
    ensures few { IfOk result (λ names. length names ≤ length sessions.now) }
{
    let mut names = Words::new(alloc);
    for session in sessions {
        add_name(&mut names, &session.program)?;
    }
    Ok(names)
}
