//! Known names in memory: their places, and what they weigh.
ghost use Rattle.std.specs.Prelude.{◌≡◌, ◌+◌, ◌≤◌};
ghost use Rattle.model_value.specs.Plain.{text_weight};
ghost use Rattle.world_plain.specs.Valid.{KnownRise};
ghost use Rattle.world_plain.specs.World.{known_weight as weight_of_known, total_weight, most_world_weight};
ghost use Rattle.known_names.specs.Places.{IsPlaceOf};

use model_value::text_weight;
use tea_base::Text;
use world_plain::Known;

/// The place of a name: where it stands, or else where it would stand.
pub fn place_of(names: &[Known], name: &Text) -> Result<usize, usize>
    requires { KnownRise names.now }
    ensures { IsPlaceOf result name.now names.now }
{
    names.binary_search_by(|known| known.name.order(name))
}

/// How much known names weigh together.
pub fn weight_of(names: &[Known]) -> u64
    requires { total_weight weight_of_known names.now ≤ most_world_weight }
    ensures { result ≡ total_weight weight_of_known names.now }
{
    let mut sum = 0;
    for known in names {
        sum += name_weight(&known.name);
    }
    sum
}

/// How much a known name weighs, whoever is known by it: 1 and its text.
pub fn name_weight(name: &Text) -> u64
    ensures { result ≡ 1 + text_weight name.now }
{
    1 + text_weight(name)
}
