//! Names: which are equal.
ghost use Rattle.std.specs.Prelude.{◌≡◌, bytes_eq};

use tea_base::Text;

/// Whether two names are the same.
pub fn is_name(name: &Text, other: &Text) -> bool
    ensures { result ≡ bytes_eq name.now other.now }
{
    name.is_text(other)
}
