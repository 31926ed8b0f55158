//! The first world of a session.
ghost use Rattle.std.specs.Prelude.{◌≡◌, ◌≤◌, ◌∷◌, [], length, nat_eq, IfOk, OnOk, Some, slice_get, take};
ghost use Rattle.std.specs.Int.{from_le_bytes, w64};
ghost use Rattle.std.specs.Option.{option_map};
ghost use Rattle.model_value.specs.Plain.{nil};
ghost use Rattle.model_value.specs.View.{plain, plain_values};
ghost use Rattle.model_tree.specs.Tree.{ClassTree};
ghost use Rattle.model_solved.specs.Founding.{checked_tree, founding_of, IsFounding};
ghost use Rattle.model_eval.specs.Arguments.{one_or_both};
ghost use Rattle.model_tree.specs.Bounds.{most_members};
ghost use Rattle.world.specs.Worlds.{empty_world, model_root, with_root, scene_with_world, first_scene as first_of, with_root_init};
ghost use Rattle.world.specs.Turns.{first_ran};
ghost use Rattle.world.specs.View.{scene, plain_ran};

use crate::messages::{begin, run};
use crate::told::RanMessage;
use known_names::Names;
use message_queue::Queue;
use model_eval::{Call, both};
use model_solved::{Checked, Solved};
use model_value::{Value, Values, copy, nils};
use object_store::Store;
use pubsub::Topics;
use saved_value::Saved;
use std::alloc::Global;
use tea_base::{List, SessionId, Text, WantOfMemory};
use world_plain::Known;
use world_state::State;

/// The first world: one message makes an object of class Root, known as `modelRoot`, and starts its `init`, if it has
/// one, with nil, and with the persisted value too where it has two parameters. That value is the saved one.
pub fn first(alloc: Global, program: &Checked, id: SessionId) -> Result<State, WantOfMemory>
    ensures first { IfOk result (λ state. scene state ≡ first_of (founding_of program.now) id.0) }
    ensures founding { IfOk result (λ _. IsFounding (founding_of program.now)) }
{
    let saved = Saved::of(copy(alloc, program.persisted())?);
    let mut state = empty(alloc, id, saved);
    begin(&mut state);
    let root = program.root();
    let Some(class) = program.program().classes().get(usize::from(root)) else {
        unreachable!();
    };
    make_root(alloc, &mut state, root, class.fields.len())?;
    initialise(alloc, program, &mut state, root)?;
    Ok(state)
}

fn empty(alloc: Global, id: SessionId, saved: Saved) -> State
    ensures { scene result ≡ record { world = empty_world saved id.0; published = [] } }
{
    State {
        id,
        time: 0,
        random: first_number(&id.0),
        turns: 0,
        faults: [0; 14],
        views: List::new(alloc),
        objects: Store::new(alloc),
        known: Names::new(alloc),
        topics: Topics::new(alloc),
        pending: Queue::new(alloc),
        saved,
        published: List::new(alloc),
    }
}

/// The number that the first eight bytes spell, the first one the least.
fn first_number(bytes: &[u8; 32]) -> u64
    ensures { result ≡ from_le_bytes w64 (take 8 bytes.now) }
{
    u64::from_le_bytes([
        bytes[0], bytes[1], bytes[2], bytes[3], bytes[4], bytes[5], bytes[6], bytes[7],
    ])
}

/// Makes an object of the class Root the only one of a world, with nil in each field.
fn make_root(
    alloc: Global,
    state: &mut State,
    class: u16,
    fields: usize,
) -> Result<(), WantOfMemory>
    requires { fields ≤ most_members }
    ensures { (root : ClassTree) → length root.fields ≡ fields
        → OnOk result (scene state.new
        ≡ scene_with_world (scene state.old) (with_root class root (scene state.old).world)) }
{
    let fields = nils(alloc, fields)?;
    let known = root_name(alloc)?;
    let mut objects = Store::resume(alloc, 2);
    objects.put_back(1, class, fields)?;
    state.objects = objects;
    state.known = known;
    Ok(())
}

/// The one name of a first world, by which its object is known.
fn root_name(alloc: Global) -> Result<Names, WantOfMemory>
    ensures { IfOk result (λ names. names ≡ record { name = model_root; object = 1 } ∷ []) }
{
    let mut names = Names::new(alloc);
    names.set(Known {
        name: Text::copy(alloc, "modelRoot")?,
        object: 1,
    })?;
    Ok(names)
}

/// Starts the method `init` of the first object, if its class has one.
fn initialise(
    alloc: Global,
    program: &Checked,
    state: &mut State,
    class: u16,
) -> Result<(), WantOfMemory>
    ensures { (root : ClassTree) → slice_get (checked_tree program.now) class ≡ Some root
        → OnOk result (scene state.new ≡ with_root_init (founding_of program.now) root (scene state.old)) }
{
    let init = Text::copy(alloc, "init")?;
    let Some(method) = program.method(class, &init) else {
        return Ok(());
    };
    let args = init_args(alloc, method, program.persisted())?;
    let call = Call {
        object: 1,
        method: &init,
        args,
    };
    run(alloc, program, state, call)
}

/// The message with which each session of a program begins, if there is one: the `init` of the first object.
pub fn first_message(alloc: Global, program: &Checked) -> Result<Option<RanMessage>, WantOfMemory>
    ensures { IfOk result (λ ran. option_map plain_ran ran ≡ first_ran (founding_of program.now)) }
{
    let class = program.root();
    // The program itself tells that no two of its classes have one name.
    let _program = program.program(); // for the prover
    let init = Text::copy(alloc, "init")?;
    let Some(method) = program.method(class, &init) else {
        return Ok(None);
    };
    let args = init_args(alloc, method, program.persisted())?;
    Ok(Some(RanMessage {
        time: 0,
        object: 1,
        class,
        method: init,
        args,
    }))
}

/// What the `init` of the first object starts with: nil, and where it has two parameters the persisted value too.
fn init_args(alloc: Global, init: &Solved, persisted: &Value) -> Result<Values, WantOfMemory>
    ensures { IfOk result (λ args. plain_values args
        ≡ one_or_both (nat_eq init.now.params 2) nil (plain persisted.now)) }
{
    if init.params == 2 {
        both(alloc, Value::Nil, copy(alloc, persisted)?)
    } else {
        nils(alloc, 1)
    }
}
