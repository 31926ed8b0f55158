//! The run of a view, as a command asks for it.
ghost use Rattle.std.specs.Prelude.{None};
ghost use Rattle.run_steps.specs.Outside.{net_side, net_side_tells, links_tell, net_tells, output_tells};
ghost use Rattle.commands.specs.Work.{visit_of};
ghost use Rattle.croquet.specs.Calls.{VisitRan};

use crate::status::Status;
use crate::telling::{tell_view_end, tell_want_of_memory};
use commands::VisitRequest;
use std::alloc::Global;
use std::sync::{Arc, Wait};
use tea_io::{Net, Sink};
use view_shell::{Visit, run_view};

/// Runs the view that a command asks for, and tells how it ends.
pub fn run_visit<R: Wait, N: Net, W: Sink>(
    rt: &R,
    alloc: Global,
    request: VisitRequest,
    net: &mut N,
    out: &mut W,
) -> Status
    ensures { VisitRan
        (net_side_tells (output_tells W.Sink) (net_tells N.Net) (links_tell N.Conn.Link))
        (visit_of request) (net_side out.old net.old None) (net_side out.new net.new None) result }
{
    let VisitRequest {
        program,
        id,
        view,
        address,
        script,
    } = request;
    let Ok(program) = Arc::new(alloc, program) else {
        return tell_want_of_memory(out);
    };
    let visit = Visit {
        program,
        id,
        view,
        address,
        script,
    };
    let end = run_view(rt, alloc, &visit, net, out);
    tell_view_end(alloc, out, end)
}
