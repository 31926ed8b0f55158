//! What is written is read.
ghost use Rattle.std.specs.Prelude.{◌≡◌, ◌++◌, ℕ, List, Some};
ghost use Rattle.tea_base.specs.declared.entry.What.{What};
ghost use Rattle.entry_fields.specs.Reading.{what_at};
ghost use Rattle.entry_fields.specs.Spelling.{FitsWhat, IsTypedWhat, what_spelling};

/// Bytes that begin with the spelling of what an entry records are read as it, whatever follows.
pub fn spelling_is_read()
    ensures { (what : What) (rest : List ℕ) → FitsWhat what → IsTypedWhat what →
        what_at (what_spelling what ++ rest) ≡ Some (what, rest) }
{}
