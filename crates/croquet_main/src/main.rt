//! Shared worlds: the program. It hands its words, the files, the clock, the standard input and the standard output of the system to `croquet`,
//! and a net over WebSockets.
#![tactic(auto)]

mod feed;
mod hinted;
mod laws;
mod progress;
mod recorded;
mod served;
mod system;
mod told_feed;
mod told_link;
mod told_net;
mod told_share;

use crate::feed::SystemFeed;
use crate::hinted::{NotedSink, is_quiet, say_hint};
use crate::laws::{guests_are_shared, served_is_shared};
use crate::progress::{Progress, TurnGate};
use crate::served::Served;
use crate::system::{Output, SystemClock, SystemFiles, given_words};
use crate::told_feed::ToldFeed;
use crate::told_net::{GuestCount, Refused, ToldNet};
use croquet::{croquet, tell_want_of_memory};
use file_store::{FileSigns, FileStores};
use hints::Ended;
use net_shares::{SharedNet, Signs};
use run_notes::notes_cross_threads;
use std::env::Env;
use std::fs::File;
use std::io::{Eprint, Input, IsTerminal};
use std::process::ExitCode;
use std::rt::{Clock, Files};
use std::sync::Wait;
use std::thread::Threads;
use tea_base::{WantOfMemory, Words};
use ws_link::WsNet;

/// The words, and the feed of the standard input.
fn given<R: Env + Input + Clock + AllocGlobal>(
    rt: &R,
) -> Result<(Words, SystemFeed<'_, R>), WantOfMemory> {
    let words = given_words(rt)?;
    let feed = SystemFeed::new(rt)?;
    Ok((words, feed))
}

/// Runs the program, and says what is to be said at the terminal. The net is any one, so that its links may be followed in other threads, and so are the
/// signs, so that they may be looked for there.
fn run<
    R: Files<File = File>
        + Env
        + Input
        + Print
        + Eprint
        + Clock
        + AllocGlobal
        + Threads
        + Wait
        + Copy
        + Send
        + Sync
        + 'static,
    N: SharedNet + Refused + Send + Drop,
    S: Signs + Sync,
>(
    rt: &R,
    given: (Words, SystemFeed<'_, R>),
    output: Output<'_, R>,
    net: N,
    signs: &S,
    is_terminal: bool,
) -> ExitCode {
    served_is_shared(); // for the prover
    guests_are_shared(); // for the prover
    notes_cross_threads(); // for the prover
    let (words, feed) = given;
    let quiet = is_quiet(rt);
    let progress = Progress::of(rt.alloc(), &words, !quiet && is_terminal);
    let shower = progress.begin(*rt);
    let served = Served::of(rt.alloc(), &words);
    let mut files = SystemFiles::new(rt, &served, &progress);
    let mut out = NotedSink::new(rt, output, &progress);
    let guests = GuestCount::new();
    let net = ToldNet::new(*rt, net, &served, &guests, quiet);
    let (net, status) = croquet(
        rt,
        rt.alloc(),
        &words,
        &mut files,
        &mut FileStores::new(rt),
        &mut ToldFeed::new(rt, feed, quiet),
        &SystemClock::new(rt),
        net,
        &TurnGate::new(&progress),
        signs,
        &mut out,
    );
    progress.finish(rt, shower);
    let ended = Ended {
        status: status.number(),
        line: out.take_line(),
        failure: files.take_failure(),
        net: net.reason(),
    };
    if !quiet {
        say_hint(rt, &words, &ended);
    }
    ExitCode::from(status.number())
}

fn main(rt: HostRuntime) -> ExitCode {
    let mut output = Output::new(&rt);
    match given(&rt) {
        Ok(given) => {
            let net = WsNet::new(rt.alloc(), rt);
            let signs = FileSigns::new(&rt);
            run(&rt, given, output, net, &signs, rt.stderr().is_terminal())
        }
        Err(WantOfMemory) => ExitCode::from(tell_want_of_memory(&mut output).number()),
    }
}
