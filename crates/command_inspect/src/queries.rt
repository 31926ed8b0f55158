//! Queries, read from a text.
ghost use Rattle.std.specs.Prelude.{◌≡◌};
ghost use Rattle.command_inspect.specs.Answer.{ReadsQueries};
ghost use Rattle.command_inspect.specs.Queries.{AreTimed, queries_of};

use crate::fault::QueriesFault;
use crate::query::Query;
use crate::reading::read_text;
use std::alloc::Global;
use std::marker::Model;

/// Queries about a recorded session, in their order. Contracts see them as a list.
#[derive(Drop)]
pub struct Queries {
    held: Vec<Query>,
}

impl Model for Queries {
    ghost use Rattle.std.specs.Prelude.{List};
    ghost use Rattle.command_inspect.specs.declared.query.Query.{Query};
    ghost use Rattle.command_inspect.specs.Queries.{AreTimed};

    ghost Value = { List Query };

    ghost view = { λ queries. queries.held.items };

    ghost invariant = { λ queries. AreTimed queries.held.items };
}

impl Queries {
    /// The queries in order. Each time is below 2^53. Takes no memory.
    pub fn list(&self) -> &[Query]
        ensures list { result.now ≡ self.now }
        ensures timed { AreTimed self.now }
    {
        &self.held
    }
}

/// The queries that the bytes spell. `Bad` comes exactly where they spell none.
pub fn parse_queries(alloc: Global, bytes: &[u8]) -> Result<Queries, QueriesFault>
    ensures { ReadsQueries result (queries_of bytes.now) }
{
    match str::from_utf8(bytes) {
        Ok(text) => Ok(Queries {
            held: read_text(alloc, text)?,
        }),
        Err(_) => Err(QueriesFault::Bad),
    }
}
