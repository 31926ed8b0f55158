//! The first frame of a link.
ghost use Rattle.std.specs.Prelude.{◌≡◌, true, IfErr, MatchResult};
ghost use Rattle.connection.specs.Talk.{link_account};
ghost use Rattle.host_server.specs.Hearing.{GivesFirst, GivesNone};

use connection::Ended;
use tea_base::Blob;
use tea_io::{Heard, Link, MOST_QUIETS};

/// Waits for the first frame of a link.
fn hear<L: Link>(link: &mut L) -> Result<Blob, Ended>
    ensures { MatchResult result
        (λ first. GivesFirst (link_account L.Link link.old) (link_account L.Link link.new) first)
        (λ ended. GivesNone (link_account L.Link link.old) (link_account L.Link link.new) ended) }
{
    for _quiets in 0..MOST_QUIETS {
        match link.recv() {
            Heard::Frame(first) => return Ok(first),
            Heard::Quiet => {}
            Heard::End => return Err(Ended::LinkEnd),
            Heard::Failed => return Err(Ended::LinkFault),
            Heard::WantOfMemory => return Err(Ended::WantOfMemory),
        }
    }
    Err(Ended::Idle {
        quiets: MOST_QUIETS,
    })
}

/// Waits for the first frame of a link, and closes a link that gives none.
pub fn hear_first<L: Link>(link: &mut L) -> Result<Blob, Ended>
    ensures heard { MatchResult result
        (λ first. GivesFirst (link_account L.Link link.old) (link_account L.Link link.new) first)
        (λ ended. GivesNone (link_account L.Link link.old) (link_account L.Link link.new) ended) }
    ensures closed { IfErr result (λ _. L.closed link.new ≡ true) }
{
    match hear(link) {
        Ok(first) => Ok(first),
        Err(ended) => {
            link.close();
            Err(ended)
        }
    }
}
