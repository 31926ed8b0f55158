//! How a message ends before its time.

use model_builtin::BuiltinStop;
use tea_base::WantOfMemory;
use world_plain::StoreRefusal;

/// A fault of a model's program. It ends the whole message, and what was done until then stays.
#[derive(Clone, Copy, Debug, PartialEq, Eq)]
pub enum Fault {
    /// A number is not in 64 bits, from -2^63 to 2^63 - 1.
    Overflow,
    /// A number is divided by zero.
    ZeroDivisor,
    /// A value is of another kind than the form wants.
    BadKind,
    /// A place in a list or a text is not there.
    BadIndex,
    /// The object is not there.
    NoObject,
    /// The object's class has no such method.
    NoMethod,
    /// A method is called with another number of arguments than it has parameters.
    Arity,
    /// The message has taken all its 100,000 steps.
    Fuel,
    /// 512 statements and expressions are open already.
    Depth,
    /// A value weighs more than 4,096, or nests lists deeper than 32.
    Size,
    /// A message is sent to its own instant, at which 1,024 messages ran.
    Instant,
    /// A message is sent to a time before the world's, or to 2^53 microseconds of TeaTime or later.
    Time,
    /// The world holds no more: 4,096 objects are held, 16,384 messages are pending, the ids of the one or the numbers of
    /// the other are spent, 16,384 subscriptions are held, or it would weigh more than 131,072. Of a view that comes: 1,024
    /// are here.
    Full,
}

/// Why a method stopped before its end.
#[derive(Clone, Copy, Debug, PartialEq, Eq)]
pub enum EvalStop {
    Fault(Fault),
    WantOfMemory,
}

impl From<WantOfMemory> for EvalStop {
    ghost use Rattle.std.specs.Prelude.{◌≡◌};
    ghost use Rattle.world_state.specs.declared.fault.EvalStop.TheVariants.{WantOfMemory as NoMemory};

    ghost from_gives = { λ _ r. r ≡ NoMemory };

    fn from(_error: WantOfMemory) -> EvalStop {
        EvalStop::WantOfMemory
    }
}

impl From<BuiltinStop> for EvalStop {
    ghost use Rattle.std.specs.Prelude.{◌≡◌};
    ghost use Rattle.world_state.specs.Answer.{stop_of};

    ghost from_gives = { λ stop r. r ≡ stop_of stop };

    fn from(stop: BuiltinStop) -> EvalStop {
        match stop {
            BuiltinStop::BadKind => EvalStop::Fault(Fault::BadKind),
            BuiltinStop::BadIndex => EvalStop::Fault(Fault::BadIndex),
            BuiltinStop::Size => EvalStop::Fault(Fault::Size),
            BuiltinStop::WantOfMemory => EvalStop::WantOfMemory,
        }
    }
}

impl From<StoreRefusal> for EvalStop {
    ghost use Rattle.std.specs.Prelude.{◌≡◌};
    ghost use Rattle.world_state.specs.Answer.{stop_of_refusal};

    ghost from_gives = { λ refusal r. r ≡ stop_of_refusal refusal };

    fn from(refusal: StoreRefusal) -> EvalStop {
        match refusal {
            StoreRefusal::Full { .. } | StoreRefusal::Spent => EvalStop::Fault(Fault::Full),
            StoreRefusal::WantOfMemory => EvalStop::WantOfMemory,
        }
    }
}
