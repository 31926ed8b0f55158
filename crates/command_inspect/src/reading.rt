//! From lines of text to queries.
ghost use Rattle.std.specs.Prelude.{◌≡◌, ℕ, List, ◌∷◌, None, Err, map, IfOk, IfSome, OnOk};
ghost use Rattle.std.specs.Str.Lines.{lines as lines_of_text};
ghost use Rattle.byte_fields.specs.Fields.{Decodes};
ghost use Rattle.text_lines.specs.Lines.{words_of};
ghost use Rattle.command_inspect.specs.Queries.{IsTimed, AreTimed, named_query, query_of, queries_in, then_queries};

use crate::fault::QueriesFault;
use crate::query::Query;
use std::alloc::Global;
use tea_base::{WantOfMemory, push};
use text_lines::{is_skipped, split_lines, split_words, time_of_word};

/// The query of a name and a time.
fn named_query(name: &str, time: &str) -> Option<Query>
    ensures read { result ≡ named_query name.now time.now }
    ensures timed { IfSome result IsTimed }
{
    match name {
        "at" => Some(Query::At {
            time: time_of_word(time)?,
        }),
        "full" => Some(Query::Full {
            time: time_of_word(time)?,
        }),
        _ => None,
    }
}

/// The query of a line's words, if they are one.
fn query(words: &[&str]) -> Option<Query>
    ensures read { result ≡ query_of (map (λ word. word.now) words.now) }
    ensures timed { IfSome result IsTimed }
{
    match words {
        [name, time] => named_query(name, time),
        _ => None,
    }
}

/// The query of a line, if it is one.
fn read_line(alloc: Global, line: &str) -> Result<Option<Query>, WantOfMemory>
    ensures read { IfOk result (λ read. read ≡ query_of (words_of line.now)) }
    ensures timed { IfOk result (λ read. IfSome read IsTimed) }
{
    let words = split_words(alloc, line)?;
    Ok(query(&words))
}

/// Reads one line more.
fn take_line(alloc: Global, line: &str, queries: &mut Vec<Query>) -> Result<(), QueriesFault>
    ensures read { OnOk result ((more : List (List ℕ)) →
        then_queries queries.new.items (queries_in more)
        ≡ then_queries queries.old.items (queries_in (line.now ∷ more))) }
    ensures bad { result ≡ Err QueriesFault.Bad → (more : List (List ℕ)) → queries_in (line.now ∷ more) ≡ None }
    ensures timed { OnOk result (AreTimed queries.old.items → AreTimed queries.new.items) }
{
    if is_skipped(line.as_bytes()) {
        return Ok(());
    }
    let Some(query) = read_line(alloc, line)? else {
        return Err(QueriesFault::Bad);
    };
    push(queries, query)?;
    Ok(())
}

/// The queries of a text, where each line that is not skipped is one.
pub fn read_text(alloc: Global, text: &str) -> Result<Vec<Query>, QueriesFault>
    ensures read { Decodes QueriesFault.Bad (λ queries. queries.items) result (queries_in (lines_of_text text.now)) }
    ensures timed { IfOk result (λ queries. AreTimed queries.items) }
{
    let lines = split_lines(alloc, text)?;
    let mut queries = Vec::new(alloc);
    for line in &lines {
        take_line(alloc, line, &mut queries)?;
    }
    Ok(queries)
}
