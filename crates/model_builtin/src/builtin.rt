//! The builtins, by their names and arguments.
ghost use Rattle.model_value.specs.View.{plain, plain_values};
ghost use Rattle.model_builtin.specs.Answer.{Applies};
ghost use Rattle.model_builtin.specs.Builtins.{value, apply, builtin_gives, of_one, of_two, of_three};

use crate::fault::BuiltinStop;
use crate::numbers::{compare, read_number, text};
use crate::parts::{at, concat, length, push, put, slice};
use model_value::{Value, Values, in_bounds};
use std::alloc::Global;

/// A builtin that needs no world. [`apply`] says what each gives.
#[derive(Clone, Copy, Debug, PartialEq, Eq)]
pub enum Pure {
    Length,
    At,
    Put,
    Push,
    Slice,
    Concat,
    Text,
    Number,
    Compare,
}

/// What a builtin gives of its arguments, in memory of its own.
///
/// | Builtin | Arguments | Value |
/// |---|---|---|
/// | `Length` | Text or List | how many characters or items it has |
/// | `At` | Text or List, Int | the character at this place, as a Text, or the item |
/// | `Put` | List, Int, any | the List with the value at this place |
/// | `Push` | List, any | the List with the value behind its items |
/// | `Slice` | Text or List, Int, Int | the part from one place to before another |
/// | `Concat` | two Texts or two Lists | one behind the other |
/// | `Text` | Nil, Bool, Int or Text | `nil`, `true` or `false`, an Int in decimal, a Text as it is |
/// | `Number` | Text | the Int whose decimal spelling it is, else Nil |
/// | `Compare` | two Ints or two Texts | -1, 0 or 1, Texts by the numbers of their characters |
///
/// Places count from 0. A spelling has no leading zeros, and a `-` only before a number that is not 0.
///
/// `BadKind` comes first, where an argument is of another kind than the table says or there is another number of
/// arguments. Then `BadIndex`, where a place is not below the length, or where the two places of `Slice` do not rise from 0
/// to the length. Then `Size`, where the value is not in bounds.
pub fn apply(alloc: Global, f: Pure, args: &Values) -> Result<Value, BuiltinStop>
    ensures { Applies result (apply f (plain_values args.now)) }
{
    let value = give(alloc, f, args.as_slice())?;
    if !in_bounds(&value) {
        return Err(BuiltinStop::Size);
    }
    Ok(value)
}

fn give(alloc: Global, f: Pure, args: &[Value]) -> Result<Value, BuiltinStop>
    ensures { Applies result (builtin_gives f (plain_values args.now)) }
{
    match args {
        [x] => give_of_one(alloc, f, x),
        [x, y] => give_of_two(alloc, f, x, y),
        [x, y, z] => give_of_three(alloc, f, x, y, z),
        _ => Err(BuiltinStop::BadKind),
    }
}

fn give_of_one(alloc: Global, f: Pure, x: &Value) -> Result<Value, BuiltinStop>
    ensures { Applies result (of_one f (plain x.now)) }
{
    match f {
        Pure::Length => length(x),
        Pure::Text => text(alloc, x),
        Pure::Number => read_number(alloc, x),
        _ => Err(BuiltinStop::BadKind),
    }
}

fn give_of_two(alloc: Global, f: Pure, x: &Value, y: &Value) -> Result<Value, BuiltinStop>
    ensures { Applies result (of_two f (plain x.now) (plain y.now)) }
{
    match f {
        Pure::At => at(alloc, x, y),
        Pure::Push => push(alloc, x, y),
        Pure::Concat => concat(alloc, x, y),
        Pure::Compare => compare(x, y),
        _ => Err(BuiltinStop::BadKind),
    }
}

fn give_of_three(
    alloc: Global,
    f: Pure,
    x: &Value,
    y: &Value,
    z: &Value,
) -> Result<Value, BuiltinStop>
    ensures { Applies result (of_three f (plain x.now) (plain y.now) (plain z.now)) }
{
    match f {
        Pure::Put => put(alloc, x, y, z),
        Pure::Slice => slice(alloc, x, y, z),
        _ => Err(BuiltinStop::BadKind),
    }
}
