//! The names of a world.
ghost use Rattle.std.specs.Prelude.{◌≡◌, ◌+◌, ◌≤◌, ℕ, [], None, OnOk, OnErr, not, nat_eq};
ghost use Rattle.std.specs.List.{filter};
ghost use Rattle.world_plain.specs.Valid.{KnownRise};
ghost use Rattle.world_plain.specs.World.{known_weight as weight_of_known, total_weight, most_world_weight};
ghost use Rattle.known_names.specs.Names.{AreNames, object_known, with_known};

use crate::known::{name_weight, place_of, weight_of};
use std::alloc::Global;
use std::marker::Model;
use tea_base::{Text, WantOfMemory};
use world_plain::{Known, KnownNames};

/// The names by which the objects of a world are known. Contracts see them as a list by rising name.
#[derive(Drop)]
pub struct Names {
    names: Vec<Known>,
    // What the names weigh together, so that it need not be summed anew.
    weight: u64,
}

impl Model for Names {
    ghost use Rattle.std.specs.Prelude.{List};
    ghost use Rattle.std.specs.Coded.{coded_list};
    ghost use Rattle.world_plain.specs.WorldCode.{coded_known};
    ghost use Rattle.world_plain.specs.declared.world.Known.{Known};
    ghost use Rattle.known_names.specs.Names.{IsWeighedNames};

    ghost Value = { List Known };

    ghost coded = { coded_list coded_known };

    ghost view = { λ n. n.names.items };

    ghost invariant = { λ n. IsWeighedNames n.weight n.names.items };
}

impl Names {
    /// No names. Takes no memory.
    pub fn new(alloc: Global) -> Names
        ensures { result ≡ [] }
    {
        Names {
            names: Vec::new(alloc),
            weight: 0,
        }
    }

    /// These names, which rise and weigh together at most 131,072, as much as a world may. Takes no memory.
    pub fn take_up(names: KnownNames) -> Names
        requires rise { KnownRise names }
        requires light { total_weight weight_of_known names ≤ most_world_weight }
        ensures { result ≡ names }
    {
        let names = names.into_vec();
        let weight = weight_of(&names);
        Names { names, weight }
    }

    /// The names in order. Takes no memory.
    pub fn names(&self) -> &[Known]
        ensures names { result.now ≡ self.now }
        ensures rise { KnownRise self.now }
    {
        &self.names
    }

    /// The object that is known by a name, if there is one. Takes no memory.
    pub fn object(&self, name: &Text) -> Option<u32>
        ensures { result ≡ object_known name.now self.now }
    {
        let place = place_of(&self.names, name).ok()?;
        Some(self.names[place].object)
    }

    /// How much more the names weigh with this one among them, whoever is known by it: nothing where it is known already.
    /// Takes no memory.
    pub fn added_weight(&self, name: &Text) -> u64
        ensures { (object : ℕ) → total_weight weight_of_known (with_known name.now object self.now)
            ≡ total_weight weight_of_known self.now + result }
    {
        match place_of(&self.names, name) {
            Ok(_) => 0,
            Err(_) => name_weight(name),
        }
    }

    /// Makes an object known by a name, in place of any other. With it the names weigh together at most 131,072, as much
    /// as a world may.
    ///
    /// Without memory the names stay. Where the name is known already, none is taken.
    pub fn set(&mut self, known: Known) -> Result<(), WantOfMemory>
        requires { total_weight weight_of_known (with_known known.name known.object self.old) ≤ most_world_weight }
        ensures ok { OnOk result (self.new ≡ with_known known.name known.object self.old) }
        ensures err { OnErr result (self.new ≡ self.old) }
        ensures new { OnErr result (object_known known.name self.old ≡ None) }
    {
        match place_of(&self.names, &known.name) {
            Ok(place) => self.names[place] = known,
            Err(place) => {
                let added = name_weight(&known.name);
                self.names.insert(place, known)?;
                self.weight += added;
            }
        }
        Ok(())
    }

    /// Takes away the names by which an object is known. Takes no memory.
    pub fn drop_object(&mut self, object: u32)
        ensures { self.new ≡ filter (λ k. not (nat_eq k.object object)) self.old }
    {
        let before = self.names.len();
        self.names.retain(|known| known.object != object);
        if self.names.len() == before {
            return;
        }
        self.weight = weight_of(&self.names);
    }

    /// How much the names weigh together: each 1 and its text. Takes no memory.
    ///
    /// All names rise, and they weigh together at most 131,072.
    pub fn weight(&self) -> u64
        ensures weight { result ≡ total_weight weight_of_known self.now }
        ensures names { AreNames self.now }
    {
        self.weight
    }
}
