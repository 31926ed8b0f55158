//! The words of the command line, read by the rows of the commands.
ghost use Rattle.std.specs.Prelude.{◌≡◌, ◌≤◌, ◌<◌, IfOk, IfSome, encode_utf8_all, length};
ghost use Rattle.std.specs.Option.{option_and_then};
ghost use Rattle.run_steps.specs.Limits.{most_connections};
ghost use Rattle.tea_base.specs.Limits.{time_limit};
ghost use Rattle.command_words.specs.Parts.{behind_first, first_positional};
ghost use Rattle.command_words.specs.CommandWords.{a_name, a_number, a_time, asks, check_row, command_of, drill_row, host_ends, host_row, hub_row, inspect_options, inspect_row, join_row, join_ends, join_options, live_options, most_name, behind_posts, behind_span, posts_span, read_by, reflect_files, reflect_options, reflect_row, replay_options, replay_puts, replay_row, rows, stamp_row, reflect_ends, span_of, trace_options, trace_row, value_or, votes_row};
ghost use Rattle.command_words.specs.Bounds.{AreConnections, IsBounded, IsBoundedInspect, IsBoundedJoin, IsBoundedLive, IsBoundedReflect, IsBoundedSpan, IsWithinBounds, IsBoundedTrace};

use crate::parts::{Parts, is_word, read_parts};
use run_steps::{MOST_CONNECTIONS, MOST_DRILL_EVENTS, MOST_DRILL_VIEWS};
use std::alloc::Global;
use tea_base::{Text, WantOfMemory, Words};
use text_lines::{number, time_of_word};

/// The most bytes of UTF-8 that the name of a session has.
const MOST_NAME: usize = 255;

/// The greatest number of entries after which `inspect` keeps a world.
const MOST_EVERY: u32 = 1_048_576;

/// A command with its words.
#[derive(Drop)]
pub enum Command {
    /// `stamp SCRIPT [--from LOG] [--log FILE]`
    Stamp {
        script: Text,
        from: Option<Text>,
        log: Option<Text>,
    },
    /// `check PROGRAM`
    Check {
        program: Text,
    },
    /// `replay PROGRAM NAME LOG TIME [--persisted JSON] [--from SNAP] [--snapshot FILE] [--saved FILE]`
    Replay(ReplayRequest),
    /// `inspect PROGRAM NAME LOG EVERY QUERIES [--persisted JSON]`
    Inspect(InspectRequest),
    /// `trace PROGRAM NAME LOG FROM TO [--persisted JSON]`
    Trace(TraceRequest),
    /// `votes LOG`
    Votes {
        log: Text,
    },
    /// `hub SCRIPT [--logs PREFIX]`
    Hub {
        script: Text,
        logs: Option<Text>,
    },
    /// `join PROGRAM NAME ADDRESS VIEW SCRIPT [--persisted JSON]`
    Join(JoinRequest),
    /// `join PROGRAM NAME ADDRESS VIEW - [--persisted JSON]`
    Live(LiveRequest),
    /// `reflect PROGRAM NAME ADDRESS [--persisted JSON] [--from LOG] [--journal FILE] [--log FILE]`, with a journal or a log at least, and either
    /// `--connections N`, or `[--links P] [--until FILE]`
    Reflect(ReflectRequest),
    /// `host CONFIG ADDRESS --logs PREFIX`, and either `--connections N`, or `[--links P] [--until FILE]`
    Host(HostRequest),
    /// `drill SEED VIEWS EVENTS --log FILE --snapshots PREFIX`
    Drill(DrillRequest),
}

/// What a replay is asked for.
#[derive(Drop)]
pub struct ReplayRequest {
    pub program: Text,
    /// The name of the session, of at most 255 bytes.
    pub name: Text,
    pub log: Text,
    /// Microseconds of TeaTime, below 2^53.
    pub time: u64,
    /// The JSON of the persisted value.
    pub persisted: Option<Text>,
    /// The snapshot from which it begins.
    pub from: Option<Text>,
    /// Where the snapshot of the world is put.
    pub snapshot: Option<Text>,
    /// Where the saved value of the world is put, as JSON.
    pub saved: Option<Text>,
}

/// What is asked about the moments of a recorded session.
#[derive(Drop)]
pub struct InspectRequest {
    pub program: Text,
    /// The name of the session, of at most 255 bytes.
    pub name: Text,
    pub log: Text,
    /// After how many entries each a world is kept, from 1 to 1,048,576.
    pub every: u32,
    /// The file of the queries.
    pub queries: Text,
    /// The JSON of the persisted value.
    pub persisted: Option<Text>,
}

/// What is asked about what ran in a stretch of time of a recorded session.
#[derive(Drop)]
pub struct TraceRequest {
    pub program: Text,
    /// The name of the session, of at most 255 bytes.
    pub name: Text,
    pub log: Text,
    /// Where the stretch begins, in microseconds of TeaTime, below 2^53.
    pub from: u64,
    /// Where it ends.
    pub to: u64,
    /// The JSON of the persisted value.
    pub persisted: Option<Text>,
}

/// What a view is asked for.
#[derive(Drop)]
pub struct JoinRequest {
    pub program: Text,
    /// The name of the session, of at most 255 bytes.
    pub name: Text,
    pub address: Text,
    /// The number of the view, from 1.
    pub view: u32,
    pub script: Text,
    /// The JSON of the persisted value.
    pub persisted: Option<Text>,
}

/// What a view is asked for whose lines come to its run.
#[derive(Drop)]
pub struct LiveRequest {
    pub program: Text,
    /// The name of the session, of at most 255 bytes.
    pub name: Text,
    pub address: Text,
    /// The number of the view, from 1.
    pub view: u32,
    /// The JSON of the persisted value.
    pub persisted: Option<Text>,
}

/// How long a reflector or a host serves.
#[derive(Drop)]
pub enum ServingSpan {
    /// Until it has accepted so many links, from 1 to 64, and all of them have ended.
    Connections(u32),
    /// Without an end that is counted: so many posts, from 1 to 64, take one link after the other.
    Posts {
        links: u32,
        /// The file whose being there ends it. Where none is named, it goes on until it is killed.
        until: Option<Text>,
    },
}

/// What a reflector is asked for.
#[derive(Drop)]
pub struct ReflectRequest {
    pub program: Text,
    /// The name of the session, of at most 255 bytes.
    pub name: Text,
    pub address: Text,
    /// The JSON of the persisted value.
    pub persisted: Option<Text>,
    /// The log of the session that goes on.
    pub from: Option<Text>,
    /// How long it serves.
    pub span: ServingSpan,
    /// The journal of the session, which goes on from there if it is there.
    pub journal: Option<Text>,
    /// Where the log of the session is put in the end.
    pub log: Option<Text>,
}

/// What a host of many sessions is asked for.
#[derive(Drop)]
pub struct HostRequest {
    /// The file of its configuration.
    pub config: Text,
    pub address: Text,
    /// How long it serves.
    pub span: ServingSpan,
    /// Where its sessions are put in the end: each name is this, and then the number of the session.
    pub logs: Text,
}

/// What a drill is asked for.
#[derive(Drop)]
pub struct DrillRequest {
    /// From which number its sources start.
    pub seed: u32,
    /// How many views it has, from 1 to 8.
    pub views: u32,
    /// How many events each of them publishes, at most 10,000.
    pub events: u32,
    /// Where the log of the session is put.
    pub log: Text,
    /// Where the snapshots of the replicas are put: each name is this, and then the number of the view.
    pub snapshots: Text,
}

/// The name of a session.
fn session_name(word: Text) -> Option<Text>
    ensures read { result ≡ a_name word }
    ensures bounds { IfSome result (λ name. length (encode_utf8_all name) ≤ most_name) }
{
    if word.bytes().len() <= MOST_NAME {
        Some(word)
    } else {
        None
    }
}

/// The number from `low` to `high` that a word spells.
fn number_within(word: &Text, low: u32, high: u32) -> Option<u32>
    ensures read { result ≡ a_number low high word.now }
    ensures bounds { IfSome result (λ number. (low ≤ number) × (number ≤ high)) }
{
    match number(word.as_str(), u64::from(low), u64::from(high)) {
        Some(number) => Some(number as u32),
        None => None,
    }
}

/// The next positional, which is the name of a session.
fn next_name(parts: &mut Parts) -> Option<Text>
    ensures read { result ≡ option_and_then a_name (first_positional parts.old) }
    ensures rest { parts.new ≡ behind_first parts.old }
    ensures bounds { IfSome result (λ name. length (encode_utf8_all name) ≤ most_name) }
{
    session_name(parts.positional()?)
}

/// The next positional, which is a number from `low` to `high`.
fn next_number(parts: &mut Parts, low: u32, high: u32) -> Option<u32>
    ensures read { result ≡ option_and_then (a_number low high) (first_positional parts.old) }
    ensures rest { parts.new ≡ behind_first parts.old }
    ensures bounds { IfSome result (λ number. (low ≤ number) × (number ≤ high)) }
{
    number_within(&parts.positional()?, low, high)
}

/// The next positional, which is a time.
fn next_time(parts: &mut Parts) -> Option<u64>
    ensures read { result ≡ option_and_then a_time (first_positional parts.old) }
    ensures rest { parts.new ≡ behind_first parts.old }
    ensures bounds { IfSome result (λ time. time < time_limit) }
{
    time_of_word(parts.positional()?.as_str())
}

/// The number that the value of an option spells, or the greatest one where the option does not stand.
fn count_or_most(word: Option<Text>) -> Option<u32>
    ensures read { result ≡ value_or most_connections (a_number 1 most_connections) word }
    ensures bounds { IfSome result AreConnections }
{
    match word {
        Some(word) => number_within(&word, 1, MOST_CONNECTIONS),
        None => Some(MOST_CONNECTIONS),
    }
}

/// `[--links P] [--until FILE]`
fn posts_span(parts: &mut Parts) -> Option<ServingSpan>
    ensures read { result ≡ posts_span parts.old }
    ensures rest { parts.new ≡ behind_posts parts.old }
    ensures bounds { IfSome result IsBoundedSpan }
{
    let links = parts.option("--links");
    let until = parts.option("--until");
    let links = count_or_most(links)?;
    Some(ServingSpan::Posts { links, until })
}

/// `--connections N`, or `[--links P] [--until FILE]`
fn serving_span(parts: &mut Parts) -> Option<ServingSpan>
    ensures read { result ≡ span_of parts.old }
    ensures rest { parts.new ≡ behind_span parts.old }
    ensures bounds { IfSome result IsBoundedSpan }
{
    match parts.option("--connections") {
        Some(word) => {
            let count = number_within(&word, 1, MOST_CONNECTIONS)?;
            Some(ServingSpan::Connections(count))
        }
        None => posts_span(parts),
    }
}

/// The command, if no other word stands.
fn ask(command: Command, parts: &Parts) -> Option<Command>
    requires { IsWithinBounds command }
    ensures read { result ≡ asks command parts.now }
    ensures bounds { IfSome result IsWithinBounds }
{
    if parts.are_all_taken() {
        Some(command)
    } else {
        None
    }
}

/// `stamp SCRIPT [--from LOG] [--log FILE]`
fn stamp(mut parts: Parts) -> Option<Command>
    ensures read { result ≡ stamp_row.1 parts }
    ensures bounds { IfSome result IsWithinBounds }
{
    let script = parts.positional()?;
    let from = parts.option("--from");
    let log = parts.option("--log");
    ask(Command::Stamp { script, from, log }, &parts)
}

/// `check PROGRAM`
fn check(mut parts: Parts) -> Option<Command>
    ensures read { result ≡ check_row.1 parts }
    ensures bounds { IfSome result IsWithinBounds }
{
    let program = parts.positional()?;
    ask(Command::Check { program }, &parts)
}

/// `votes LOG`
fn votes(mut parts: Parts) -> Option<Command>
    ensures read { result ≡ votes_row.1 parts }
    ensures bounds { IfSome result IsWithinBounds }
{
    let log = parts.positional()?;
    ask(Command::Votes { log }, &parts)
}

/// `hub SCRIPT [--logs PREFIX]`
fn hub(mut parts: Parts) -> Option<Command>
    ensures read { result ≡ hub_row.1 parts }
    ensures bounds { IfSome result IsWithinBounds }
{
    let script = parts.positional()?;
    let logs = parts.option("--logs");
    ask(Command::Hub { script, logs }, &parts)
}

/// The last options of `replay`: `[--snapshot FILE] [--saved FILE]`
fn replay_puts(mut parts: Parts, mut request: ReplayRequest) -> Option<Command>
    requires { IsBounded request }
    ensures read { result ≡ replay_puts request parts }
    ensures bounds { IfSome result IsWithinBounds }
{
    request.snapshot = parts.option("--snapshot");
    request.saved = parts.option("--saved");
    ask(Command::Replay(request), &parts)
}

/// The options of `replay`: `[--persisted JSON] [--from SNAP]`, and where it puts what
fn replay_options(
    mut parts: Parts,
    program: Text,
    name: Text,
    log: Text,
    time: u64,
) -> Option<Command>
    requires named { length (encode_utf8_all name) ≤ most_name }
    requires timed { time < time_limit }
    ensures read { result ≡ replay_options program name log time parts }
    ensures bounds { IfSome result IsWithinBounds }
{
    let persisted = parts.option("--persisted");
    let from = parts.option("--from");
    let request = ReplayRequest {
        program,
        name,
        log,
        time,
        persisted,
        from,
        snapshot: None,
        saved: None,
    };
    replay_puts(parts, request)
}

/// `replay PROGRAM NAME LOG TIME`, and its options
fn replay(mut parts: Parts) -> Option<Command>
    ensures read { result ≡ replay_row.1 parts }
    ensures bounds { IfSome result IsWithinBounds }
{
    let program = parts.positional()?;
    let name = next_name(&mut parts)?;
    let log = parts.positional()?;
    let time = next_time(&mut parts)?;
    replay_options(parts, program, name, log, time)
}

/// The option of `inspect`: `[--persisted JSON]`
fn inspect_options(mut parts: Parts, mut request: InspectRequest) -> Option<Command>
    requires { IsBoundedInspect request }
    ensures read { result ≡ inspect_options request parts }
    ensures bounds { IfSome result IsWithinBounds }
{
    request.persisted = parts.option("--persisted");
    ask(Command::Inspect(request), &parts)
}

/// `inspect PROGRAM NAME LOG EVERY QUERIES`, and its option
fn inspect(mut parts: Parts) -> Option<Command>
    ensures read { result ≡ inspect_row.1 parts }
    ensures bounds { IfSome result IsWithinBounds }
{
    let program = parts.positional()?;
    let name = next_name(&mut parts)?;
    let log = parts.positional()?;
    let every = next_number(&mut parts, 1, MOST_EVERY)?;
    let queries = parts.positional()?;
    let request = InspectRequest {
        program,
        name,
        log,
        every,
        queries,
        persisted: None,
    };
    inspect_options(parts, request)
}

/// The option of `trace`: `[--persisted JSON]`
fn trace_options(mut parts: Parts, mut request: TraceRequest) -> Option<Command>
    requires { IsBoundedTrace request }
    ensures read { result ≡ trace_options request parts }
    ensures bounds { IfSome result IsWithinBounds }
{
    request.persisted = parts.option("--persisted");
    ask(Command::Trace(request), &parts)
}

/// `trace PROGRAM NAME LOG FROM TO`, and its option
fn trace(mut parts: Parts) -> Option<Command>
    ensures read { result ≡ trace_row.1 parts }
    ensures bounds { IfSome result IsWithinBounds }
{
    let program = parts.positional()?;
    let name = next_name(&mut parts)?;
    let log = parts.positional()?;
    let from = next_time(&mut parts)?;
    let to = next_time(&mut parts)?;
    let request = TraceRequest {
        program,
        name,
        log,
        from,
        to,
        persisted: None,
    };
    trace_options(parts, request)
}

/// The option of `join`: `[--persisted JSON]`
fn join_options(mut parts: Parts, mut request: JoinRequest) -> Option<Command>
    requires { IsBoundedJoin request }
    ensures read { result ≡ join_options request parts }
    ensures bounds { IfSome result IsWithinBounds }
{
    request.persisted = parts.option("--persisted");
    ask(Command::Join(request), &parts)
}

/// The option of `join` where `-` alone stands in the script's place: `[--persisted JSON]`
fn live_options(mut parts: Parts, mut request: LiveRequest) -> Option<Command>
    requires { IsBoundedLive request }
    ensures read { result ≡ live_options request parts }
    ensures bounds { IfSome result IsWithinBounds }
{
    request.persisted = parts.option("--persisted");
    ask(Command::Live(request), &parts)
}

/// What `join` does: `SCRIPT`, or `-` for lines that come to the run, and its option
fn join_ends(
    mut parts: Parts,
    program: Text,
    name: Text,
    address: Text,
    view: u32,
) -> Option<Command>
    requires named { length (encode_utf8_all name) ≤ most_name }
    requires numbered { 1 ≤ view }
    ensures read { result ≡ join_ends program name address view parts }
    ensures bounds { IfSome result IsWithinBounds }
{
    if parts.has_dash() {
        parts.pass();
        let request = LiveRequest {
            program,
            name,
            address,
            view,
            persisted: None,
        };
        return live_options(parts, request);
    }
    let script = parts.positional()?;
    let request = JoinRequest {
        program,
        name,
        address,
        view,
        script,
        persisted: None,
    };
    join_options(parts, request)
}

/// `join PROGRAM NAME ADDRESS VIEW`, and what it does
fn join(mut parts: Parts) -> Option<Command>
    ensures read { result ≡ join_row.1 parts }
    ensures bounds { IfSome result IsWithinBounds }
{
    let program = parts.positional()?;
    let name = next_name(&mut parts)?;
    let address = parts.positional()?;
    let view = next_number(&mut parts, 1, u32::MAX)?;
    join_ends(parts, program, name, address, view)
}

/// What `reflect` writes: `[--journal FILE] [--log FILE]`, one of them at least
fn reflect_files(mut parts: Parts, mut request: ReflectRequest) -> Option<Command>
    requires { IsBoundedReflect request }
    ensures read { result ≡ reflect_files request parts }
    ensures bounds { IfSome result IsWithinBounds }
{
    request.journal = parts.option("--journal");
    request.log = parts.option("--log");
    if request.journal.is_none() && request.log.is_none() {
        return None;
    }
    ask(Command::Reflect(request), &parts)
}

/// What `reflect` may read: `[--persisted JSON] [--from LOG]`
fn reflect_options(mut parts: Parts, mut request: ReflectRequest) -> Option<Command>
    requires { IsBoundedReflect request }
    ensures read { result ≡ reflect_options request parts }
    ensures bounds { IfSome result IsWithinBounds }
{
    request.persisted = parts.option("--persisted");
    request.from = parts.option("--from");
    reflect_files(parts, request)
}

/// The options of `reflect`: how long it serves, and what it may be told
fn reflect_ends(mut parts: Parts, program: Text, name: Text, address: Text) -> Option<Command>
    requires { length (encode_utf8_all name) ≤ most_name }
    ensures read { result ≡ reflect_ends program name address parts }
    ensures bounds { IfSome result IsWithinBounds }
{
    let span = serving_span(&mut parts)?;
    let request = ReflectRequest {
        program,
        name,
        address,
        persisted: None,
        from: None,
        span,
        journal: None,
        log: None,
    };
    reflect_options(parts, request)
}

/// `reflect PROGRAM NAME ADDRESS`, and its options
fn reflect(mut parts: Parts) -> Option<Command>
    ensures read { result ≡ reflect_row.1 parts }
    ensures bounds { IfSome result IsWithinBounds }
{
    let program = parts.positional()?;
    let name = next_name(&mut parts)?;
    let address = parts.positional()?;
    reflect_ends(parts, program, name, address)
}

/// The options of `host`: how long it serves, and `--logs PREFIX`
fn host_ends(mut parts: Parts, config: Text, address: Text) -> Option<Command>
    ensures read { result ≡ host_ends config address parts }
    ensures bounds { IfSome result IsWithinBounds }
{
    let span = serving_span(&mut parts)?;
    let logs = parts.option("--logs")?;
    let request = HostRequest {
        config,
        address,
        span,
        logs,
    };
    ask(Command::Host(request), &parts)
}

/// `host CONFIG ADDRESS`, and its options
fn host(mut parts: Parts) -> Option<Command>
    ensures read { result ≡ host_row.1 parts }
    ensures bounds { IfSome result IsWithinBounds }
{
    let config = parts.positional()?;
    let address = parts.positional()?;
    host_ends(parts, config, address)
}

/// `drill SEED VIEWS EVENTS --log FILE --snapshots PREFIX`
fn drill(mut parts: Parts) -> Option<Command>
    ensures read { result ≡ drill_row.1 parts }
    ensures bounds { IfSome result IsWithinBounds }
{
    let seed = next_number(&mut parts, 0, u32::MAX)?;
    let views = next_number(&mut parts, 1, MOST_DRILL_VIEWS)?;
    let events = next_number(&mut parts, 0, MOST_DRILL_EVENTS)?;
    let log = parts.option("--log")?;
    let snapshots = parts.option("--snapshots")?;
    let request = DrillRequest {
        seed,
        views,
        events,
        log,
        snapshots,
    };
    ask(Command::Drill(request), &parts)
}

/// The command of this name, where the words after it follow its rules.
fn command_named(name: &Text, parts: Parts) -> Option<Command>
    ensures read { result ≡ read_by rows name.now parts }
    ensures bounds { IfSome result IsWithinBounds }
{
    if is_word(name, "stamp") {
        stamp(parts)
    } else if is_word(name, "check") {
        check(parts)
    } else if is_word(name, "replay") {
        replay(parts)
    } else if is_word(name, "inspect") {
        inspect(parts)
    } else if is_word(name, "trace") {
        trace(parts)
    } else if is_word(name, "votes") {
        votes(parts)
    } else if is_word(name, "hub") {
        hub(parts)
    } else if is_word(name, "join") {
        join(parts)
    } else if is_word(name, "reflect") {
        reflect(parts)
    } else if is_word(name, "host") {
        host(parts)
    } else if is_word(name, "drill") {
        drill(parts)
    } else {
        None
    }
}

/// The command that the words ask for, where they follow the rules.
pub fn read_command(alloc: Global, words: &Words) -> Result<Option<Command>, WantOfMemory>
    ensures read { IfOk result (λ read. read ≡ command_of words.now) }
    ensures bounds { IfOk result (λ read. IfSome read IsWithinBounds) }
{
    let [name, words @ ..] = words.as_slice() else {
        return Ok(None);
    };
    match read_parts(alloc, words)? {
        Some(parts) => Ok(command_named(name, parts)),
        None => Ok(None),
    }
}
