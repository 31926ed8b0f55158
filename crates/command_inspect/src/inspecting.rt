//! From queries to what they print.
ghost use Rattle.std.specs.Prelude.{◌≡◌, ◌<◌, string_bytes, IfOk};
ghost use Rattle.model_solved.specs.Founding.{founding_of};
ghost use Rattle.model_tree.specs.TreeView.{program_tree};
ghost use Rattle.snapshot_codec.specs.Conditions.{IsValid};
ghost use Rattle.world_plain.specs.World.{world_record};
ghost use Rattle.command_inspect.specs.Queries.{IsTimed, AreTimed};
ghost use Rattle.command_inspect.specs.InspectText.{world_text, query_text, inspect_text};

use crate::queries::Queries;
use crate::query::Query;
use command_replay::plain_of;
use message_queue::Steps;
use model_tree::Class;
use std::alloc::Global;
use std::marker::Brand;
use std::sync::ledger::{Blank, Ledger};
use tea_base::WantOfMemory;
use time_line::TimeLine;
use world_lines::{full_text, line_of};
use world_plain::PlainWorld;

/// What a query prints of the world of its time.
fn world_text(
    alloc: Global,
    classes: &[Class],
    query: Query,
    world: &PlainWorld,
) -> Result<String, WantOfMemory>
    requires { IsValid (world_record world.now) }
    ensures { IfOk result (λ text. string_bytes text
        ≡ world_text (program_tree classes.now) query (world_record world.now)) }
{
    match query {
        Query::At { .. } => line_of(alloc, world),
        Query::Full { .. } => full_text(alloc, classes, world),
    }
}

/// What a query prints of a recorded session.
fn query_text<L: Ledger>(
    alloc: Global,
    line: &TimeLine,
    query: Query,
    steps: &mut Steps<L>,
) -> Result<String, WantOfMemory>
    requires { IsTimed query }
    ensures { IfOk result (λ text. string_bytes text
        ≡ query_text (founding_of line.now.program) line.now.id line.now.entries query) }
{
    let world = line.at(query.time(), steps)?;
    let plain = plain_of(&world)?;
    world_text(alloc, line.program().program().classes(), query, &plain)
}

/// What queries print of a recorded session, in their order: of each the replay of the log to its time. It fails only where it
/// runs out of memory. All text is in memory before any of it is printed: a `full` query of a world at its limits takes some
/// megabytes.
pub fn inspect(alloc: Global, line: &TimeLine, queries: &Queries) -> Result<String, WantOfMemory>
    ensures { IfOk result (λ text. string_bytes text
        ≡ inspect_text (founding_of line.now.program) line.now.id line.now.entries queries.now) }
{
    inspect_list(alloc, line, queries.list())
}

/// The same of a list of queries.
fn inspect_list(alloc: Global, line: &TimeLine, queries: &[Query]) -> Result<String, WantOfMemory>
    requires { AreTimed queries.now }
    ensures { IfOk result (λ text. string_bytes text
        ≡ inspect_text (founding_of line.now.program) line.now.id line.now.entries queries.now) }
{
    inspect_counted::<Brand>(alloc, line, queries, Blank::new(1))
}

/// The same, with steps that nobody looks at.
fn inspect_counted<L: Ledger>(
    alloc: Global,
    line: &TimeLine,
    queries: &[Query],
    blank: Blank,
) -> Result<String, WantOfMemory>
    requires timed { AreTimed queries.now }
    requires name { blank.name ≡ L.name }
    requires parts { blank.parts ≡ L.parts }
    requires some { 0 < blank.parts }
    ensures { IfOk result (λ text. string_bytes text
        ≡ inspect_text (founding_of line.now.program) line.now.id line.now.entries queries.now) }
{
    let mut steps = Steps::<L>::new(blank);
    let mut text = String::new(alloc);
    for query in queries {
        text.push_str(query_text(alloc, line, *query, &mut steps)?.as_str())?;
    }
    Ok(text)
}
