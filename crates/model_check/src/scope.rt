//! The names that are in scope.
ghost use Rattle.std.specs.Prelude.{◌≡◌, ◌+◌, ◌≤◌, max, [], ◌∷◌, ◌++◌, length, take, IfOk, OnOk};

use std::alloc::Global;
use tea_base::{Text, WantOfMemory};

/// The names that are in scope at a place of a method. The slot of each is its place among them.
#[derive(Drop)]
pub struct Scope {
    pub names: Vec<Text>,
    /// The greatest number of names that were in scope so far.
    pub slots: usize,
    pub ghost within: { length names.items ≤ slots },
}

impl Scope {
    /// The parameters of a method are in scope in all of it.
    pub fn of_params(alloc: Global, params: &[Text]) -> Result<Scope, WantOfMemory>
        ensures names { IfOk result (λ scope. scope.names.items ≡ params.now) }
        ensures slots { IfOk result (λ scope. scope.slots ≡ length params.now) }
    {
        let mut names = Vec::new(alloc);
        for param in params {
            names.push(param.clone()?)?;
        }
        Ok(Scope {
            names,
            slots: params.len(),
        })
    }

    /// One more name is in scope; answers its slot.
    pub fn enter(&mut self, name: &Text) -> Result<usize, WantOfMemory>
        ensures slot { IfOk result (λ slot. slot ≡ length self.old.names.items) }
        ensures names { OnOk result (self.new.names.items ≡ self.old.names.items ++ name.now ∷ []) }
        ensures slots { OnOk result (self.new.slots ≡ max self.old.slots (length self.old.names.items + 1)) }
    {
        let slot = self.names.len();
        self.names.push(name.clone()?)?;
        self.slots = self.slots.max(self.names.len());
        Ok(slot)
    }

    /// The names behind the first so many are in scope no more.
    pub fn leave(&mut self, kept: usize)
        ensures names { self.new.names.items ≡ take kept self.old.names.items }
        ensures slots { self.new.slots ≡ self.old.slots }
    {
        self.names.truncate(kept);
    }
}
