//! Files by which a program is told something.
ghost use Rattle.std.specs.Prelude.{◌≡◌, ℕ, List, true};

use tea_base::Text;

/// Says whether files are there.
pub trait Signs {
    /// A file of this name may be there.
    ghost may_be: { Self → List ℕ → Type 0 };

    /// Whether a file of this name is there. Takes no memory.
    fn is_there(&self, name: &Text) -> bool
        ensures { result ≡ true → may_be self.now name.now };
}
