//! What stands at a place stays.
ghost use Rattle.std.specs.Prelude.{◌≡◌, ◌++◌, ℕ, List};
ghost use Rattle.event_region.specs.RegionState.{IsPlaceWithin, place_bytes};
ghost use Rattle.event_region.specs.declared.region.Place.{Place};

/// A place gives the same bytes, whatever is appended behind them.
pub fn a_place_keeps_its_bytes()
    ensures { (bytes more : List ℕ) (place : Place) → IsPlaceWithin bytes place →
        place_bytes (bytes ++ more) place ≡ place_bytes bytes place }
{}
