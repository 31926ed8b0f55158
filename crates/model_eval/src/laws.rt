//! What a method keeps of a world, and how its loops end.
ghost use Rattle.std.specs.Prelude.{◌≡◌, ℕ, List};
ghost use Rattle.model_value.specs.Plain.{PlainValue, InBounds, AllInBounds};
ghost use Rattle.model_tree.specs.Program.{IsProgram};
ghost use Rattle.model_tree.specs.Tree.{Name, Expression, Statements, while, ProgramTree};
ghost use Rattle.model_tree.specs.Bounds.{HasFewArguments};
ghost use Rattle.model_tree.specs.Names.{NamesAreShort};
ghost use Rattle.model_solved.specs.Methods.{field_counts};
ghost use Rattle.world_state.specs.Running.{Running};
ghost use Rattle.model_eval.specs.Publishing.{Notice, tell_handlers};
ghost use Rattle.model_eval.specs.Kept.{Carries, Anything};
ghost use Rattle.model_eval.specs.Meaning.{Here, Local, loop_turns, goes_round, evaluate, execute, starts};

/// A method that ends, with a value or a fault, leaves a valid world valid, and its value is in bounds, where its arguments
/// are. It leaves as they were the world's time, its turns, its counts of faults, its views and all else that `Kept` names.
pub fn method_keeps()
    ensures { (program : ProgramTree) (room object : ℕ) (x : Name) (args : List PlainValue) (r : Running)
        → IsProgram program → AllInBounds args
        → Carries (field_counts program) InBounds r (starts program room object x args r) }
{}

/// Models that are told of an event leave a valid world valid too, where its value is in bounds, and keep all that a method keeps.
pub fn telling_keeps()
    ensures { (program : ProgramTree) (room : ℕ) (scope event : Name) (notice : Notice) (r : Running)
        → IsProgram program → InBounds notice.value
        → Carries (field_counts program) Anything r (tell_handlers program (starts program room) scope event notice r) }
{}

/// The bound on the turns of a loop is never met. A loop is its test and, where that is true, its block and then the loop
/// again, with the fuel that is left; so it faults where its fuel is used up, and nowhere else. The loop is one within the
/// bounds that a text's loops keep.
pub fn loops_end_by_fuel_alone()
    ensures { (program : ProgramTree) (room : ℕ) (here : Here) (test : Expression) (body : Statements)
        (locals : List Local) (r : Running) → IsProgram program → HasFewArguments (while test body)
        → NamesAreShort (while test body) →
        loop_turns r.fuel (evaluate program room) (execute program room) here test body locals r
        ≡ goes_round (evaluate program room) (execute program room) here test body locals r }
{}
