//! What a run comes to, in one line of a case.
use crate::net_case::{NetCase, NetCommand};
use crate::net_run::NetRun;
use case_lines::told_lines;
use net_shares::{MemSharedNet, Returned};
use std::alloc::{AllocError, Global};
use tea_base::{Text, WantOfMemory};
use tea_io::{MemLink, NetCall};

/// What is printed and the status, a reflector's log, what was sent on each link that was given back, and how many were given back
/// and asked for.
pub(crate) fn told_run(
    alloc: Global,
    case: &NetCase,
    run: &NetRun,
) -> Result<String, WantOfMemory> {
    let mut told = told_lines(alloc, run.text.bytes(), run.status.number())?;
    if let Some(log) = run.files.get(&Text::copy(alloc, "f")?) {
        told.push_str(" f=")?;
        told.push_str(hex::encode(alloc, log.bytes())?.as_str())?;
    }
    for back in run.net.returned() {
        if let Returned::Link(link) = back {
            put_link(alloc, &mut told, link)?;
        }
    }
    put_calls(alloc, &mut told, case, &run.net)?;
    Ok(told)
}

/// Adds the frames that were sent on a link, and how many receives were made.
fn put_link(alloc: Global, told: &mut String, link: &MemLink) -> Result<(), AllocError> {
    told.push_str(" > ")?;
    for frame in link.sent() {
        told.push_str(hex::encode(alloc, frame.bytes())?.as_str())?;
        told.push(' ')?;
    }
    told.push_str(format!(in alloc; "heard {}", link.heard().len())?.as_str())
}

/// Adds how many links were given back, how many were asked for at the address, and whether the net had any other call.
fn put_calls(
    alloc: Global,
    told: &mut String,
    case: &NetCase,
    net: &MemSharedNet,
) -> Result<(), AllocError> {
    let calls = asked_for_links(case, net.asked());
    let asked = calls
        .iter()
        .filter(|call| asks_for_link(case, call))
        .count();
    let back = net.returned().len();
    told.push_str(format!(in alloc; " ; {back} back of {asked} asked")?.as_str())?;
    if asked != calls.len() {
        told.push_str(", and another call")?;
    }
    Ok(())
}

/// The calls of a net, behind the one by which a reflector listens at its address.
fn asked_for_links<'a>(case: &NetCase, calls: &'a [NetCall]) -> &'a [NetCall] {
    match calls {
        [first, rest @ ..] if is_listen(case, first) => rest,
        _ => calls,
    }
}

/// Whether a call asks for one of the command's links.
fn asks_for_link(case: &NetCase, call: &NetCall) -> bool {
    match case.command {
        NetCommand::Join | NetCommand::Live => is_connect(call, case.address),
        NetCommand::Reflect => matches!(call, NetCall::Accept),
    }
}

/// Whether a call is that by which the command's reflector listens.
fn is_listen(case: &NetCase, call: &NetCall) -> bool {
    match case.command {
        NetCommand::Join | NetCommand::Live => false,
        NetCommand::Reflect => match call {
            NetCall::Listen(at) => at.as_str() == case.address,
            _ => false,
        },
    }
}

fn is_connect(call: &NetCall, address: &str) -> bool {
    match call {
        NetCall::Connect(to) => to.as_str() == address,
        _ => false,
    }
}
