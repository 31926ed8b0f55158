//! Names: which are equal, and where each stands.
ghost use Rattle.std.specs.Prelude.{◌≡◌, ◌↔◌, IsTrue, [], map, length, ◌<◌, ◌≤◌, IfSome, bytes_eq};
ghost use Rattle.std.specs.List.{position_from};
ghost use Rattle.model_tree.specs.Bounds.{most_members};
ghost use Rattle.model_tree.specs.Tree.{root_name};
ghost use Rattle.model_check.specs.Answer.{Solves};
ghost use Rattle.model_solved.specs.Faults.{is_among as among, twice_where, faults_of_names, faults_of_field, faults_of_local, faults_of_creation};
ghost use Rattle.model_check.specs.Solving.{place_of};

use crate::scope::Scope;
use model_solved::{CheckFault, is_name};
use model_tree::Class;
use tea_base::Text;

/// Whether a class is named `Root`.
pub fn is_root(class: &Class) -> bool
    ensures { IsTrue result ↔ class.now.name ≡ root_name }
{
    class.name.as_str() == "Root"
}

/// Whether a name is among some.
pub fn is_among(name: &Text, names: &[Text]) -> bool
    ensures { result ≡ among name.now names.now }
{
    for other in names {
        if is_name(name, other) {
            return true;
        }
    }
    false
}

/// The fault of a name that is seen already.
pub fn once(is_seen: bool, name: &Text) -> Result<(), CheckFault>
    ensures { Solves result (twice_where is_seen name.now) (λ _. Unit {0}) }
{
    if is_seen {
        return Err(CheckFault::Twice {
            name: name.try_clone()?,
        });
    }
    Ok(())
}

/// The first fault of names that stand side by side.
#[tactic(auto, using(crate::proofs::First::by_first))]
pub fn all_once(names: &[Text]) -> Result<(), CheckFault>
    ensures { Solves result (faults_of_names [] names.now) (λ _. Unit {0}) }
{
    for i in 0..names.len() {
        once(is_among(&names[i], &names[..i]), &names[i])?;
    }
    Ok(())
}

/// The place of a field among those of its class.
pub fn field(fields: &[Text], name: &Text) -> Result<u32, CheckFault>
    requires { length fields.now ≤ most_members }
    ensures { Solves result (faults_of_field fields.now name.now) (λ slot. slot ≡ place_of fields.now name.now) }
{
    match place(fields, name) {
        Some(slot) => Ok(slot as u32),
        None => Err(CheckFault::NoField {
            name: name.try_clone()?,
        }),
    }
}

/// The place of a local among the names in scope.
pub fn local(scope: &Scope, name: &Text) -> Result<usize, CheckFault>
    ensures { Solves result (faults_of_local scope.now.names.items name.now) (λ slot. slot
        ≡ place_of scope.now.names.items name.now) }
{
    match place(&scope.names, name) {
        Some(slot) => Ok(slot),
        None => Err(CheckFault::NoName {
            name: name.try_clone()?,
        }),
    }
}

/// The number of the class of that name.
pub fn class_number(classes: &[Class], name: &Text) -> Result<u16, CheckFault>
    requires { length classes.now ≤ most_members }
    ensures { Solves result (faults_of_creation (map (λ c. c.name) classes.now) name.now) (λ number. number
        ≡ place_of (map (λ c. c.name) classes.now) name.now) }
{
    match class_place(classes, name) {
        Some(number) => Ok(number),
        None => Err(CheckFault::NoClass {
            name: name.try_clone()?,
        }),
    }
}

fn place(names: &[Text], name: &Text) -> Option<usize>
    ensures first { result ≡ position_from (bytes_eq name.now) 0 names.now }
    ensures within { IfSome result (λ place. place < length names.now) }
{
    for place in 0..names.len() {
        if is_name(name, &names[place]) {
            return Some(place);
        }
    }
    None
}

fn class_place(classes: &[Class], name: &Text) -> Option<u16>
    requires { length classes.now ≤ most_members }
    ensures { result ≡ position_from (bytes_eq name.now) 0 (map (λ c. c.name) classes.now) }
{
    let mut place = 0;
    for class in classes {
        if is_name(name, &class.name) {
            return Some(place);
        }
        place += 1;
    }
    None
}
