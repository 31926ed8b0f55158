//! What is asked of the objects of a world and of the names by which they are known.
ghost use Rattle.std.specs.Prelude.{◌≡◌, ◌↔◌, map, slice_get, length, IsTrue};
ghost use Rattle.world_plain.specs.Valid.{IsHeld, ObjectFits, ObjectsFit, KnownRise, KnownFit};
ghost use Rattle.world_plain.specs.World.{object_record};
ghost use Rattle.world_plain.specs.Ids.{HaveRisingIds};

use crate::world::{Known, PlainObject};
use model_value::{are_in_bounds, text_fits};

/// Whether objects stand by rising number, from 1 at least.
pub fn ids_rise(objects: &[PlainObject]) -> bool
    ensures { IsTrue result ↔ HaveRisingIds (map object_record objects.now) }
{
    let mut last = 0;
    for object in objects {
        if object.id <= last {
            return false;
        }
        last = object.id;
    }
    true
}

/// Whether each object is of a class of the program, which is told by the numbers of fields of its classes, holds values
/// in bounds, and has a number below the next one.
pub fn objects_fit(objects: &[PlainObject], next: u32, counts: &[u32]) -> bool
    ensures { IsTrue result ↔ ObjectsFit counts.now next (map object_record objects.now) }
{
    for object in objects {
        if !is_valid_object(object, next, counts) {
            return false;
        }
    }
    true
}

fn is_valid_object(object: &PlainObject, next: u32, counts: &[u32]) -> bool
    ensures { IsTrue result ↔ ObjectFits counts.now next (object_record object.now) }
{
    object.id < next && has_its_fields(object, counts) && are_in_bounds(object.fields.as_slice())
}

/// Whether an object is of a class of the program, and has as many fields as that declares.
fn has_its_fields(object: &PlainObject, counts: &[u32]) -> bool
    ensures { IsTrue result ↔ slice_get counts.now object.now.class ≡ Some (length object.now.fields) }
{
    match counts.get(object.class as usize) {
        None => false,
        Some(count) => object.fields.len() == *count as usize,
    }
}

/// Whether there is an object with this number.
pub fn is_held(objects: &[PlainObject], id: u32) -> bool
    requires { HaveRisingIds (map object_record objects.now) }
    ensures { IsTrue result ↔ IsHeld (map object_record objects.now) id }
{
    objects
        .binary_search_by_key(&id, |object| object.id)
        .is_ok()
}

/// Whether known names rise by their characters.
pub fn names_rise(known: &[Known]) -> bool
    ensures { IsTrue result ↔ KnownRise known.now }
{
    // The order is transitive, so neighbours tell.
    for i in 1..known.len() {
        if !known[i - 1].name.is_before(&known[i].name) {
            return false;
        }
    }
    true
}

/// Whether each known name is a text that fits, of an object that is held.
pub fn names_fit(known: &[Known], objects: &[PlainObject]) -> bool
    requires { HaveRisingIds (map object_record objects.now) }
    ensures { IsTrue result ↔ KnownFit (map object_record objects.now) known.now }
{
    for one in known {
        if !text_fits(&one.name) || !is_held(objects, one.object) {
            return false;
        }
    }
    true
}
