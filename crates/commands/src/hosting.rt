//! What comes of the files that the command `host` reads.
ghost use Rattle.std.specs.Prelude.{◌≡◌, ◌+◌, ◌∷◌, ◌++◌, ◌<◌, [], IfOk, encode_utf8_all, length};
ghost use Rattle.command_words.specs.Address.{is_address};
ghost use Rattle.command_words.specs.Bounds.{IsBoundedHost};
ghost use Rattle.host_config.specs.Config.{AreFew, AreNamed, HasName, config_of, most_sessions};
ghost use Rattle.host_config.specs.Programs.{programs_of};
ghost use Rattle.commands.specs.Verdict.{Free, OfConfig, OfHostIds, OfHostPrograms, OfHostReady, OfProgram, OfRight, are_apart, host_id, host_ids, hosting_of, is_among};
ghost use Rattle.commands.specs.Work.{AreHosted, IsBoundedHosting, IsBoundedNext, IsBoundedWait, Leads, file_of, files_left, input_of, next_of, plain_hosting, reads_left};
ghost use Rattle.commands.specs.declared.hosting.HostWait.TheVariants as host_wait;
ghost use Rattle.commands.specs.declared.work.Waiting.TheVariants as waiting;
ghost use Rattle.command_outcome.specs.declared.outcome.Input.TheVariants as input;

use crate::work::{Next, Waiting};
use command_host::{Hosting, log_places, rooms_for};
use command_outcome::{CommandRefusal, Input, ProgramFault, read_program};
use command_words::{HostRequest, is_address};
use host_config::{Config, SessionLine, programs_of, read_config};
use host_server::SessionIds;
use model_solved::is_name;
use model_value::Value;
use snapshot_codec::session_id;
use std::alloc::Global;
use std::collections::VecDeque;
use tea_base::{Blob, List, SessionId, Text, WantOfMemory};

/// A program that was read: its name, and its text.
#[derive(Drop)]
pub struct ReadProgram {
    pub name: Text,
    pub text: Blob,
}

/// Programs that were read, in order.
pub type ReadPrograms = List<ReadProgram>;

/// A host that has its configuration, and waits for a program.
#[derive(Drop)]
pub struct HostProgramWait {
    pub request: HostRequest,
    /// What its configuration says.
    pub config: Config,
    /// The programs that were read.
    pub read: ReadPrograms,
    /// The program that it waits for.
    pub program: Text,
    /// The programs that are read after this one, in order.
    pub later: VecDeque<Text>,
}

/// A host that waits for a file.
#[derive(Drop)]
pub enum HostWait {
    /// It has read nothing yet.
    Config(HostRequest),
    /// It has read its configuration.
    Program(HostProgramWait),
}

/// The id of a session, by its name and the text of its program.
fn host_id(read: &[ReadProgram], line: &SessionLine) -> SessionId
    requires { HasName line.now }
    ensures { result ≡ host_id read.now line.now }
{
    for found in read {
        if is_name(&found.name, &line.program) {
            return session_id(&line.name, found.text.bytes(), &Value::Nil);
        }
    }
    session_id(&line.name, &[], &Value::Nil)
}

/// The ids of the sessions, in order.
fn host_ids(
    alloc: Global,
    read: &[ReadProgram],
    lines: &[SessionLine],
) -> Result<SessionIds, WantOfMemory>
    requires { AreNamed lines.now }
    ensures { IfOk result (λ ids. ids ≡ host_ids read.now lines.now) }
{
    let mut ids = SessionIds::new(alloc);
    for line in lines {
        ids.push(host_id(read, line))?;
    }
    Ok(ids)
}

/// Whether an id is among these.
fn is_among(id: &SessionId, ids: &[SessionId]) -> bool
    ensures { result ≡ is_among id.now ids.now }
{
    for other in ids {
        if *other == *id {
            return true;
        }
    }
    false
}

/// Whether no two of these ids are the same.
fn are_apart(ids: &[SessionId]) -> bool
    ensures { result ≡ are_apart ids.now }
{
    for place in 0..ids.len() {
        if is_among(&ids[place], &ids[place + 1..]) {
            return false;
        }
    }
    true
}

/// The sessions that are to be hosted. The memory for their files is taken here, before anything listens.
fn hosting_of(
    alloc: Global,
    request: HostRequest,
    on_demand: bool,
    ids: SessionIds,
) -> Result<Hosting, WantOfMemory>
    requires words { IsBoundedHost request }
    requires ids { AreHosted ids }
    ensures plain { IfOk result (λ hosting. plain_hosting hosting ≡ hosting_of request on_demand ids) }
    ensures bounded { IfOk result IsBoundedHosting }
{
    let HostRequest {
        config: _,
        address,
        span,
        logs: prefix,
    } = request;
    Ok(Hosting {
        logs: log_places(alloc, &prefix, ids.as_slice())?,
        rooms: rooms_for(alloc, on_demand, ids.len())?,
        ids,
        on_demand,
        address,
        span,
        prefix,
    })
}

/// What comes of a host whose words and sessions are right.
fn ready(alloc: Global, request: HostRequest, on_demand: bool, ids: SessionIds) -> Next
    requires words { IsBoundedHost request }
    requires ids { AreHosted ids }
    ensures leads { Leads result (Free (OfHostReady (hosting_of request on_demand ids))) }
    ensures bounded { IsBoundedNext result }
    ensures fewer { reads_left result < 1 }
{
    match hosting_of(alloc, request, on_demand, ids) {
        Ok(hosting) => Next::Hosts(hosting),
        Err(WantOfMemory) => Next::WantOfMemory,
    }
}

/// What comes of a host whose sessions are known: its address is checked.
fn answer_address(
    alloc: Global,
    request: HostRequest,
    on_demand: bool,
    ids: SessionIds,
) -> Result<Next, WantOfMemory>
    requires words { IsBoundedHost request }
    requires ids { AreHosted ids }
    ensures leads { IfOk result (λ step.
        Leads step (Free (OfRight input.Address (is_address (encode_utf8_all request.address))
        (OfHostReady (hosting_of request on_demand ids))))) }
    ensures bounded { IfOk result IsBoundedNext }
    ensures fewer { IfOk result (λ step. reads_left step < 1) }
{
    if !is_address(alloc, request.address.as_str())? {
        return Ok(Next::Refuses(CommandRefusal::Input(Input::Address)));
    }
    Ok(ready(alloc, request, on_demand, ids))
}

/// What comes of a host whose ids are known: no two of them may be the same.
fn answer_ids(alloc: Global, request: HostRequest, on_demand: bool, ids: SessionIds) -> Next
    requires words { IsBoundedHost request }
    requires ids { AreHosted ids }
    ensures leads { Leads result (Free (OfHostIds request on_demand ids)) }
    ensures bounded { IsBoundedNext result }
    ensures fewer { reads_left result < 1 }
{
    if !are_apart(ids.as_slice()) {
        return Next::Refuses(CommandRefusal::Input(Input::Config));
    }
    match answer_address(alloc, request, on_demand, ids) {
        Ok(next) => next,
        Err(WantOfMemory) => Next::WantOfMemory,
    }
}

/// What comes of a host that has read its programs.
fn known(alloc: Global, request: HostRequest, config: &Config, read: &[ReadProgram]) -> Next
    requires words { IsBoundedHost request }
    requires named { AreNamed config.now.sessions }
    requires few { AreFew config.now.sessions }
    ensures leads { Leads result
        (Free (OfHostIds request config.now.on_demand (host_ids read.now config.now.sessions))) }
    ensures bounded { IsBoundedNext result }
    ensures fewer { reads_left result < 1 }
{
    match host_ids(alloc, read, config.sessions.as_slice()) {
        Ok(ids) => answer_ids(alloc, request, config.on_demand, ids),
        Err(WantOfMemory) => Next::WantOfMemory,
    }
}

/// What comes of a host that has read these programs, and reads the others.
fn next_program(
    alloc: Global,
    request: HostRequest,
    config: Config,
    read: ReadPrograms,
    mut names: VecDeque<Text>,
) -> Next
    requires words { IsBoundedHost request }
    requires named { AreNamed config.sessions }
    requires few { AreFew config.sessions }
    ensures leads { Leads result (Free (OfHostPrograms request config read names.items)) }
    ensures bounded { IsBoundedNext result }
    ensures fewer { reads_left result < length names.items + 1 }
{
    match names.pop_front() {
        Some(program) => Next::Reads(Waiting::Host(HostWait::Program(HostProgramWait {
            request,
            config,
            read,
            program,
            later: names,
        }))),
        None => known(alloc, request, &config, read.as_slice()),
    }
}

/// What comes of a program that was read and checked.
fn read_on(alloc: Global, wait: HostProgramWait, text: Blob) -> Next
    requires { IsBoundedWait (waiting.Host (host_wait.Program wait)) }
    ensures leads { Leads result
        (Free (OfHostPrograms wait.request wait.config (wait.read ++ record { name = wait.program; text = text }
        ∷ []) wait.later.items)) }
    ensures bounded { IsBoundedNext result }
    ensures fewer { reads_left result < length wait.later.items + 1 }
{
    let HostProgramWait {
        request,
        config,
        mut read,
        program,
        later,
    } = wait;
    let found = ReadProgram {
        name: program,
        text,
    };
    match read.push(found) {
        Ok(()) => next_program(alloc, request, config, read, later),
        Err(WantOfMemory) => Next::WantOfMemory,
    }
}

/// What comes of a program's text.
fn take_program(alloc: Global, wait: HostProgramWait, text: Blob) -> Next
    requires { IsBoundedWait (waiting.Host (host_wait.Program wait)) }
    ensures leads { Leads result
        (Free (OfProgram (λ tree. OfHostPrograms wait.request wait.config (wait.read ++ record {
          name = wait.program;
          text = text;
        } ∷ []) wait.later.items) text)) }
    ensures bounded { IsBoundedNext result }
    ensures fewer { reads_left result < length wait.later.items + 1 }
{
    match read_program(alloc, text.bytes()) {
        Ok(_) => read_on(alloc, wait, text),
        Err(ProgramFault::Refused { line }) => Next::Refuses(CommandRefusal::Program { line }),
        Err(ProgramFault::WantOfMemory) => Next::WantOfMemory,
    }
}

/// What comes of a host that has its configuration: the programs of its sessions are read.
fn begin(alloc: Global, request: HostRequest, config: Config) -> Next
    requires words { IsBoundedHost request }
    requires named { AreNamed config.sessions }
    requires few { AreFew config.sessions }
    ensures leads { Leads result (Free (OfHostPrograms request config [] (programs_of config.sessions))) }
    ensures bounded { IsBoundedNext result }
    ensures fewer { reads_left result < most_sessions + 1 }
{
    match programs_of(alloc, config.sessions.as_slice()) {
        Ok(names) => {
            let names = VecDeque::from(names.into_vec());
            next_program(alloc, request, config, ReadPrograms::new(alloc), names)
        }
        Err(WantOfMemory) => Next::WantOfMemory,
    }
}

/// What comes of the bytes of a configuration.
fn take_config(alloc: Global, request: HostRequest, bytes: &[u8]) -> Next
    requires { IsBoundedHost request }
    ensures leads { Leads result (Free (OfConfig request (config_of bytes.now))) }
    ensures bounded { IsBoundedNext result }
    ensures fewer { reads_left result < most_sessions + 1 }
{
    match read_config(alloc, bytes) {
        Ok(Some(config)) => begin(alloc, request, config),
        Ok(None) => Next::Refuses(CommandRefusal::Input(Input::Config)),
        Err(WantOfMemory) => Next::WantOfMemory,
    }
}

impl HostWait {
    /// The name of the file that it waits for.
    pub(crate) fn name(&self) -> &Text
        ensures { result.now ≡ file_of (waiting.Host self.now) }
    {
        match self {
            HostWait::Config(request) => &request.config,
            HostWait::Program(wait) => &wait.program,
        }
    }

    /// Which of its inputs the file is.
    pub(crate) fn input(&self) -> Input
        ensures { result ≡ input_of (waiting.Host self.now) }
    {
        match self {
            HostWait::Config(_) => Input::Config,
            HostWait::Program(_) => Input::Program,
        }
    }

    /// What comes of the bytes of its file.
    pub(crate) fn take(self, alloc: Global, bytes: Blob) -> Next
        requires { IsBoundedWait (waiting.Host self) }
        ensures leads { Leads result (Free (next_of (waiting.Host self) bytes)) }
        ensures bounded { IsBoundedNext result }
        ensures fewer { reads_left result < files_left (waiting.Host self) }
    {
        match self {
            HostWait::Config(request) => take_config(alloc, request, bytes.bytes()),
            HostWait::Program(wait) => take_program(alloc, wait, bytes),
        }
    }
}
