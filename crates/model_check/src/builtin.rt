//! The builtins of the language.
ghost use Rattle.std.specs.Prelude.{◌≡◌, find, bytes_eq};
ghost use Rattle.model_check.specs.Answer.{Solves};
ghost use Rattle.model_solved.specs.Builtins.{builtin_spelling, arguments_of, builtin_named};
ghost use Rattle.model_solved.specs.Faults.{faults_of_builtin};
ghost use Rattle.model_check.specs.Solving.{builtin_of};

use model_solved::{Builtin, CheckFault};
use tea_base::Text;

const BUILTINS: [Builtin; 23] = [
    Builtin::Now,
    Builtin::Random,
    Builtin::ViewCount,
    Builtin::Views,
    Builtin::SessionId,
    Builtin::Known,
    Builtin::BeKnown,
    Builtin::Exists,
    Builtin::Destroy,
    Builtin::Publish,
    Builtin::Subscribe,
    Builtin::Unsubscribe,
    Builtin::Cancel,
    Builtin::Persist,
    Builtin::Length,
    Builtin::At,
    Builtin::Put,
    Builtin::Push,
    Builtin::Slice,
    Builtin::Concat,
    Builtin::Text,
    Builtin::Number,
    Builtin::Compare,
];

/// The builtin that a call names, with so many arguments.
pub fn called_builtin(name: &Text, given: usize) -> Result<Builtin, CheckFault>
    ensures { Solves result (faults_of_builtin name.now given) (λ found. found ≡ builtin_of name.now) }
{
    let Some(found) = find_builtin(name) else {
        return Err(CheckFault::NoName {
            name: name.try_clone()?,
        });
    };
    if given != arguments(found) {
        return Err(CheckFault::Count {
            name: name.try_clone()?,
        });
    }
    Ok(found)
}

/// The builtin of that name, if there is one.
pub fn find_builtin(name: &Text) -> Option<Builtin>
    ensures { result ≡ builtin_named name.now }
{
    first_named(name, &BUILTINS)
}

fn first_named(name: &Text, builtins: &[Builtin]) -> Option<Builtin>
    ensures { result ≡ find (λ b. bytes_eq name.now (builtin_spelling b)) builtins.now }
{
    for builtin in builtins {
        if is_named(name, *builtin) {
            return Some(*builtin);
        }
    }
    None
}

fn is_named(name: &Text, builtin: Builtin) -> bool
    ensures { result ≡ bytes_eq name.now (builtin_spelling builtin) }
{
    name.as_str() == word(builtin)
}

fn word(builtin: Builtin) -> &'static str
    ensures { result.now ≡ builtin_spelling builtin }
{
    match builtin {
        Builtin::Now => "now",
        Builtin::Random => "random",
        Builtin::ViewCount => "viewCount",
        Builtin::Views => "views",
        Builtin::SessionId => "sessionId",
        Builtin::Known => "known",
        Builtin::BeKnown => "beKnown",
        Builtin::Exists => "exists",
        Builtin::Destroy => "destroy",
        Builtin::Publish => "publish",
        Builtin::Subscribe => "subscribe",
        Builtin::Unsubscribe => "unsubscribe",
        Builtin::Cancel => "cancel",
        Builtin::Persist => "persist",
        Builtin::Length => "length",
        Builtin::At => "at",
        Builtin::Put => "put",
        Builtin::Push => "push",
        Builtin::Slice => "slice",
        Builtin::Concat => "concat",
        Builtin::Text => "text",
        Builtin::Number => "number",
        Builtin::Compare => "compare",
    }
}

fn arguments(builtin: Builtin) -> usize
    ensures { result ≡ arguments_of builtin }
{
    match builtin {
        Builtin::Now | Builtin::ViewCount | Builtin::Views | Builtin::SessionId => 0,
        Builtin::Random
        | Builtin::Known
        | Builtin::BeKnown
        | Builtin::Exists
        | Builtin::Destroy
        | Builtin::Cancel
        | Builtin::Persist
        | Builtin::Length
        | Builtin::Text
        | Builtin::Number => 1,
        Builtin::At | Builtin::Push | Builtin::Concat | Builtin::Compare => 2,
        Builtin::Publish
        | Builtin::Subscribe
        | Builtin::Unsubscribe
        | Builtin::Put
        | Builtin::Slice => 3,
    }
}
