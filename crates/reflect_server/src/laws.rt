//! What is so of an opening.
ghost use Rattle.std.specs.Prelude.{ℕ, List};
ghost use Rattle.tea_base.specs.declared.entry.Entry.{Entry};
ghost use Rattle.tea_base.specs.Legal.{IsLegal};
ghost use Rattle.reflect_server.specs.Opening.{AreHere, AreJustThoseHere};

/// Those that an opening makes leave are just the views that are here, each once, in rising order, and each by its last Join.
pub fn those_here()
    ensures { (log : List Entry) (views : List (ℕ × ℕ)) → IsLegal log → AreHere log views → AreJustThoseHere log views }
{}
