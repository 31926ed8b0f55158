//! Which calls of an object in memory are told otherwise.
ghost use Rattle.std.specs.Prelude.{◌≡◌};
ghost use Rattle.tea_io.specs.Calls.{fails_at};

/// Whether the number of this call is in the list.
pub(crate) fn is_listed(numbers: &[u32], call: u64) -> bool
    ensures { result ≡ fails_at numbers.now call }
{
    numbers.iter().any(|number| u64::from(*number) == call)
}
