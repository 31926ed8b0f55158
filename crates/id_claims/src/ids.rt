//! The list itself, which one thread at a time has in hand.
ghost use Rattle.std.specs.Prelude.{◌≡◌, ◌≤◌, IfOk, length};
ghost use Rattle.id_claims.specs.Ids.{HasPlace, TakesNew, most_ids, place_of};

use std::alloc::Global;
use std::marker::Model;
use tea_base::{SessionId, WantOfMemory};

/// The most ids that a list may have.
pub const MOST_IDS: usize = 256;

/// Ids in order, with room for 256 of them.
#[derive(Drop)]
pub struct Ids {
    ids: Vec<SessionId>,
}

impl Model for Ids {
    ghost use Rattle.std.specs.Prelude.{◌≤◌, List, length, vec_capacity};
    ghost use Rattle.tea_base.specs.declared.entry.SessionId.{SessionId};
    ghost use Rattle.id_claims.specs.Ids.{most_ids};

    ghost Value = { List SessionId };

    ghost view = { λ ids. ids.ids.items };

    ghost invariant = { λ ids. (length ids.ids.items ≤ most_ids) × (most_ids ≤ vec_capacity ids.ids) };
}

/// The place where an id stands first.
fn place_of(ids: &[SessionId], id: &SessionId) -> Option<usize>
    ensures { result ≡ place_of ids.now id.now }
{
    ids.iter().position(|other| *other == *id)
}

impl Ids {
    pub(crate) fn copy(alloc: Global, listed: &[SessionId]) -> Result<Ids, WantOfMemory>
        requires { length listed.now ≤ most_ids }
        ensures { IfOk result (λ ids. ids ≡ listed.now) }
    {
        let mut ids = Vec::with_capacity(alloc, MOST_IDS)?;
        for id in listed {
            ids.push_reserved(*id);
        }
        Ok(Ids { ids })
    }

    /// The place of an id. It comes behind all others if it is new and there is room.
    pub(crate) fn claim(&mut self, id: &SessionId) -> Option<usize>
        ensures takes { TakesNew self.old id.now self.new }
        ensures has { HasPlace self.new id.now result }
    {
        let place = place_of(&self.ids, id);
        if place.is_some() || self.ids.len() == MOST_IDS {
            return place;
        }
        self.ids.push_reserved(*id);
        Some(self.ids.len() - 1)
    }

    pub(crate) fn into_vec(self) -> Vec<SessionId>
        ensures ids { result.items ≡ self }
        ensures few { length self ≤ most_ids }
    {
        let Ids { ids } = self;
        ids
    }
}
