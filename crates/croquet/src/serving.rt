//! The run of a reflector without a journal, from where it serves.
ghost use Rattle.std.specs.Prelude.{None};
ghost use Rattle.run_steps.specs.Outside.{files_tell, links_tell, net_tells, output_tells, outside, outside_tells};
ghost use Rattle.command_words.specs.Bounds.{IsBoundedSpan};
ghost use Rattle.commands.specs.Work.{plain_reflection};
ghost use Rattle.net_shares.specs.Stops.{MayBeAny};
ghost use Rattle.host_posts.specs.Shares.{shares_tell};
ghost use Rattle.croquet.specs.Run.{ReflectsFor};

use crate::posting::tell_reflected_on;
use crate::reflecting::tell_reflected;
use crate::status::Status;
use command_reflect::Reflection;
use command_words::ServingSpan;
use net_shares::{FileStop, SharedNet, Signs};
use reflect_posts::{PostServer, reflect_unkept_on};
use reflect_server::{Server, reflect};
use std::alloc::Global;
use std::sync::Wait;
use std::thread::Threads;
use tea_io::{Clock, Files, Gate, Sink};

/// Serves a session as long as its words say, and tells what has come of it.
pub(crate) fn serve_unkept<
    R: Threads + Wait + Sync,
    F: Files,
    C: Clock + Sync,
    N: SharedNet + Send + Drop,
    W: Sink,
    G: Gate + Sync,
    E: Signs + Sync,
>(
    rt: &R,
    alloc: Global,
    reflection: Reflection,
    files: &mut F,
    clock: &C,
    net: N,
    gate: &G,
    signs: &E,
    out: &mut W,
) -> (N, Status)
    requires { IsBoundedSpan reflection.span }
    ensures { ReflectsFor reflection.span (C.gives clock.now) (MayBeAny (E.may_be signs.now))
        (outside_tells (files_tell F.Files) (output_tells W.Sink) (net_tells N.Net) (links_tell N.Conn.Link))
        (shares_tell N.shared N.Part.Share) (plain_reflection reflection)
        (outside files.old out.old net None) (outside files.new out.new result.0 None) result.1 }
{
    let Reflection {
        id,
        opening,
        address,
        span,
        log,
    } = reflection;
    match span {
        ServingSpan::Connections(connections) => {
            let server = Server {
                id,
                address: &address,
                connections,
                clock,
                gate,
            };
            let (net, answer) = reflect(rt, alloc, &server, opening, net);
            let status = tell_reflected(alloc, log, answer, files, out);
            (net, status)
        }
        ServingSpan::Posts { links, until } => {
            let stop = FileStop::new(signs, clock, until);
            let server = PostServer {
                id,
                address: &address,
                posts: links,
                clock,
                gate,
                stop: &stop,
            };
            let (net, answer) = reflect_unkept_on(rt, alloc, &server, opening, net);
            let status = tell_reflected_on(alloc, log, answer, files, out);
            (net, status)
        }
    }
}
