//! Places of items, which are sorted in place of the items.
ghost use Rattle.std.specs.Prelude.{◌≡◌, ◌≤◌, ◌^◌, length};
ghost use Rattle.std.specs.List.{range_with_len};

/// Makes the places 0, 1, 2 and so on. There are at most 65,536.
pub fn number_places(places: &mut [u16])
    requires { length places.old ≤ 2 ^ 16 }
    ensures { places.new ≡ range_with_len 0 (length places.old) }
{
    for i in 0..places.len() {
        places[i] = i as u16;
    }
}
