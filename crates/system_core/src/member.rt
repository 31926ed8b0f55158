//! Members of a system.
ghost use Rattle.system_core.specs.Parts.{IsMemberPlace};

use replica::Replica;

/// The replica of a view, and the number of its newest connection, which alone is read.
#[derive(Drop)]
pub(crate) struct Member {
    pub view: u32,
    pub replica: Replica,
    pub newest: usize,
}

/// Where the member of a view stands, if it has one.
pub(crate) fn place(members: &[Member], view: u32) -> Option<usize>
    ensures { IsMemberPlace result members.now view }
{
    for (index, member) in members.iter().enumerate() {
        if member.view == view {
            return Some(index);
        }
    }
    None
}
