//! The run of a reflector that keeps a journal, from where it serves.
ghost use Rattle.std.specs.Prelude.{◌≡◌, None, true};
ghost use Rattle.run_steps.specs.Outside.{files_tell, links_tell, net_tells, output_tells, outside, outside_tells};
ghost use Rattle.command_words.specs.Bounds.{IsBoundedSpan};
ghost use Rattle.commands.specs.Work.{plain_keeping};
ghost use Rattle.journal_store.specs.Stores.{stores_tell};
ghost use Rattle.net_shares.specs.Stops.{MayBeAny};
ghost use Rattle.host_posts.specs.Shares.{shares_tell};
ghost use Rattle.croquet.specs.Keeps.{ServedAs};
ghost use Rattle.croquet.specs.Run.{GoesOnWith, StoresKeepPlays, is_shut};

use crate::posting::tell_kept_on;
use crate::reflecting::tell_kept;
use crate::status::Status;
use command_reflect::Keeping;
use command_words::ServingSpan;
use journal_store::safe_bytes_are_read;
use net_shares::{FileStop, SharedNet, Signs};
use reflect_posts::{PostServer, reflect_on};
use reflect_server::{Opening, Server, reflect_kept};
use session_keeper::JournalKeeper;
use std::alloc::Global;
use std::sync::Wait;
use std::thread::Threads;
use store_io::{Store, Stores};
use tea_io::{Clock, Files, Gate, Sink};

/// Whether a call was not kept.
fn is_shut<J>(keeper: &JournalKeeper<J>) -> bool
    ensures { result ≡ is_shut keeper.now }
{
    keeper.journal.shut || keeper.full
}

/// What a store safely holds is read as the play of the history that was kept, whatever call of it has failed.
pub(crate) fn stores_keep_plays<S: Stores<Store = J>, J: Store>()
    ensures { StoresKeepPlays (stores_tell S.Stores J.Store) }
{
    safe_bytes_are_read();
}

/// Serves a session whose journal is kept as long as its words say, gives its store back, and tells what has come of it.
pub(crate) fn serve_kept<
    R: Threads + Wait + Sync,
    F: Files,
    C: Clock + Sync,
    N: SharedNet + Send + Drop,
    W: Sink,
    G: Gate + Sync,
    E: Signs + Sync,
    S: Stores<Store = J>,
    J: Store + Send + Drop,
>(
    rt: &R,
    alloc: Global,
    keeping: Keeping,
    opening: Opening<JournalKeeper<J>>,
    files: &mut F,
    stores: &mut S,
    clock: &C,
    net: N,
    gate: &G,
    signs: &E,
    out: &mut W,
) -> (N, Status)
    requires span { IsBoundedSpan keeping.span }
    requires goes_on { GoesOnWith J.bytes J.safe opening.session.plain opening.keeper }
    requires out { S.is_out stores.old keeping.journal ≡ true }
    ensures { ServedAs (C.gives clock.now) (MayBeAny (E.may_be signs.now))
        (outside_tells (files_tell F.Files) (output_tells W.Sink) (net_tells N.Net) (links_tell N.Conn.Link))
        (shares_tell N.shared N.Part.Share) (stores_tell S.Stores J.Store) (plain_keeping keeping) opening
        (outside files.old out.old net None) (outside files.new out.new result.0 None) stores.old stores.new result.1 }
{
    let Keeping {
        id,
        address,
        span,
        journal,
        log,
        ..
    } = keeping;
    match span {
        ServingSpan::Connections(connections) => {
            let server = Server {
                id,
                address: &address,
                connections,
                clock,
                gate,
            };
            let (net, keeper, answer) = reflect_kept(rt, alloc, &server, opening, net);
            let unkept = is_shut(&keeper);
            stores.back(&journal, keeper.journal.store);
            let status = tell_kept(alloc, log, unkept, answer, files, out);
            (net, status)
        }
        ServingSpan::Posts { links, until } => {
            let stop = FileStop::new(signs, clock, until);
            let server = PostServer {
                id,
                address: &address,
                posts: links,
                clock,
                gate,
                stop: &stop,
            };
            let (net, keeper, answer) = reflect_on(rt, alloc, &server, opening, net);
            let unkept = is_shut(&keeper);
            stores.back(&journal, keeper.journal.store);
            let status = tell_kept_on(alloc, log, unkept, answer, files, out);
            (net, status)
        }
    }
}
