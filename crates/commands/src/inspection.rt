//! The moments of a recorded session: the command `inspect`.
ghost use Rattle.std.specs.Prelude.{◌≡◌, ◌≤◌, ◌<◌};
ghost use Rattle.model_solved.specs.Founding.{checked_tree, founding_of};
ghost use Rattle.model_value.specs.View.{plain};
ghost use Rattle.saved_value.specs.Saving.{CanBeSaved};
ghost use Rattle.command_inspect.specs.Queries.{queries_of};
ghost use Rattle.command_words.specs.Bounds.{IsBoundedInspect};
ghost use Rattle.commands.specs.Verdict.{Free, OfInspect, OfInspectedLog, OfJson, OfKeyframes, OfLog, OfProgram, OfQueries, OfOwn, OfTimeLine, Only, founded, inspect_verdict};
ghost use Rattle.commands.specs.Work.{IsBoundedNext, IsBoundedWait, Leads, MakesTimeLine, file_of, files_left, input_of, next_of, plain_named, plain_source, reads_left};
ghost use Rattle.commands.specs.declared.work.Waiting.TheVariants as waiting;

use crate::opening::{Source, names_no_other, read_log};
use crate::work::{Next, Waiting};
use command_inspect::{Queries, QueriesFault, inspect, parse_queries};
use command_outcome::{CommandRefusal, Input, Outcome, ProgramFault, Puts, read_program};
use command_replay::Recording;
use command_words::InspectRequest;
use model_solved::Checked;
use model_value::Value;
use persist_json::{JsonFault, from_json};
use session_log::LogFault;
use snapshot_codec::session_id;
use std::alloc::Global;
use std::sync::Arc;
use tea_base::{Blob, SessionId, Text, WantOfMemory};
use time_line::{LineFault, TimeLine};

/// An inspection that has read its program, and waits for its log.
#[derive(Drop)]
pub struct InspectLogWait {
    pub request: InspectRequest,
    pub program: Checked,
    /// The program's text.
    pub text: Blob,
}

/// An inspection that has read its program and its log.
#[derive(Drop)]
pub struct ReadInspection {
    pub request: InspectRequest,
    pub program: Checked,
    /// The program's text.
    pub text: Blob,
    /// What its log holds.
    pub source: Source,
}

/// An inspection that has read its program and its log, and waits for its persisted value.
#[derive(Drop)]
pub struct InspectValueWait {
    pub persisted: Text,
    pub read: ReadInspection,
}

/// An inspection that has its time line, and waits for its queries.
#[derive(Drop)]
pub struct QueriesWait {
    pub queries: Text,
    pub line: TimeLine,
}

/// An inspection that waits for a file.
#[derive(Drop)]
pub enum InspectWait {
    /// It has read nothing yet.
    Program(InspectRequest),
    /// It has read its program.
    Log(InspectLogWait),
    /// It has read its program and its log, and has a persisted value.
    Value(InspectValueWait),
    /// It has its time line.
    Queries(QueriesWait),
}

/// What queries print of a recorded session.
fn answer(alloc: Global, line: &TimeLine, queries: &Queries) -> Next
    ensures leads { Leads result
        (Free (Only (inspect_verdict (founding_of line.now.program) line.now.id line.now.entries queries.now))) }
    ensures bounded { IsBoundedNext result }
    ensures fewer { reads_left result < 1 }
{
    match inspect(alloc, line, queries) {
        Ok(text) => Next::Gives(Outcome {
            files: Puts::new(alloc),
            text: Blob::from_vec(text.into_bytes()),
        }),
        Err(WantOfMemory) => Next::WantOfMemory,
    }
}

/// What comes of the bytes of queries.
fn read_queries(alloc: Global, line: &TimeLine, bytes: &[u8]) -> Next
    ensures leads { Leads result
        (Free (OfQueries (founding_of line.now.program) line.now.id line.now.entries (queries_of bytes.now))) }
    ensures bounded { IsBoundedNext result }
    ensures fewer { reads_left result < 1 }
{
    match parse_queries(alloc, bytes) {
        Ok(queries) => answer(alloc, line, &queries),
        Err(QueriesFault::Bad) => Next::Refuses(CommandRefusal::Input(Input::Queries)),
        Err(QueriesFault::WantOfMemory) => Next::WantOfMemory,
    }
}

/// The same, of an inspection that waited for them.
fn take_queries(alloc: Global, wait: QueriesWait, bytes: &[u8]) -> Next
    ensures leads { Leads result
        (Free (OfQueries (founding_of wait.line.program) wait.line.id wait.line.entries (queries_of bytes.now))) }
    ensures bounded { IsBoundedNext result }
    ensures fewer { reads_left result < 1 }
{
    let QueriesWait { queries: _, line } = wait;
    read_queries(alloc, &line, bytes)
}

/// The time line of a recorded session.
fn time_line_of(alloc: Global, recording: Recording, every: u32) -> Result<TimeLine, LineFault>
    requires { 1 ≤ every }
    ensures { MakesTimeLine result recording every }
{
    let Recording { program, id, log } = recording;
    let Ok(program) = Arc::new(alloc, program) else {
        return Err(LineFault::WantOfMemory);
    };
    TimeLine::new(alloc, program, id, log, every)
}

/// What comes of a recorded session: its time line is made, and then its queries are read.
fn keep(alloc: Global, recording: Recording, every: u32, queries: Text) -> Next
    requires { 1 ≤ every }
    ensures leads { Leads result
        (Free (OfKeyframes every queries (founding_of recording.program) recording.id.0 recording.log.entries)) }
    ensures bounded { IsBoundedNext result }
    ensures fewer { reads_left result < 2 }
{
    match time_line_of(alloc, recording, every) {
        Ok(line) => Next::Reads(Waiting::Inspect(InspectWait::Queries(QueriesWait {
            queries,
            line,
        }))),
        Err(LineFault::TooMany { .. }) => Next::Refuses(CommandRefusal::Input(Input::Every)),
        Err(LineFault::WantOfMemory) => Next::WantOfMemory,
    }
}

/// The same, if its log names no other session.
fn keep_own(
    alloc: Global,
    recording: Recording,
    named: Option<SessionId>,
    every: u32,
    queries: Text,
) -> Next
    requires { 1 ≤ every }
    ensures leads { Leads result (Free (OfOwn (plain_named named) recording.id.0
        (OfKeyframes every queries (founding_of recording.program) recording.id.0 recording.log.entries))) }
    ensures bounded { IsBoundedNext result }
    ensures fewer { reads_left result < 2 }
{
    if !names_no_other(named, &recording.id) {
        return Next::Refuses(CommandRefusal::Input(Input::Journal));
    }
    keep(alloc, recording, every, queries)
}

/// What comes of an inspection whose persisted value is known.
fn found(alloc: Global, read: ReadInspection, persisted: Value) -> Next
    requires words { IsBoundedInspect read.request }
    requires fit { CanBeSaved (plain persisted) }
    ensures leads { Leads result
        (Free (OfTimeLine read.request read.text (plain_source read.source)
        (founded (checked_tree read.program) (plain persisted)))) }
    ensures bounded { IsBoundedNext result }
    ensures fewer { reads_left result < 2 }
{
    let ReadInspection {
        request,
        program,
        text,
        source,
    } = read;
    let Source { named, stored } = source;
    let id = session_id(&request.name, text.bytes(), &persisted);
    let recording = Recording {
        program: program.with_persisted(persisted),
        id,
        log: stored.log,
    };
    keep_own(alloc, recording, named, request.every, request.queries)
}

/// What comes of an inspection that has read its program and its log: its persisted value is read, where it has one.
fn record(alloc: Global, mut read: ReadInspection) -> Next
    requires { IsBoundedInspect read.request }
    ensures leads { Leads result
        (Free (OfInspectedLog read.request read.text (checked_tree read.program) (plain_source read.source))) }
    ensures bounded { IsBoundedNext result }
    ensures fewer { reads_left result < 3 }
{
    match read.request.persisted.take() {
        Some(persisted) => Next::Reads(Waiting::Inspect(InspectWait::Value(InspectValueWait {
            persisted,
            read,
        }))),
        None => found(alloc, read, Value::Nil),
    }
}

/// What comes of a program's text, of which an inspection is asked.
fn take_program(alloc: Global, request: InspectRequest, text: Blob) -> Next
    requires { IsBoundedInspect request }
    ensures leads { Leads result (Free (OfProgram (OfInspect request text) text)) }
    ensures bounded { IsBoundedNext result }
    ensures fewer { reads_left result < 4 }
{
    match read_program(alloc, text.bytes()) {
        Ok(program) => Next::Reads(Waiting::Inspect(InspectWait::Log(InspectLogWait {
            request,
            program,
            text,
        }))),
        Err(ProgramFault::Refused { line }) => Next::Refuses(CommandRefusal::Program { line }),
        Err(ProgramFault::WantOfMemory) => Next::WantOfMemory,
    }
}

/// What comes of a log's bytes.
fn take_log(alloc: Global, wait: InspectLogWait, bytes: &[u8]) -> Next
    requires { IsBoundedInspect wait.request }
    ensures leads { Leads result
        (Free (OfLog (OfInspectedLog wait.request wait.text (checked_tree wait.program)) bytes.now)) }
    ensures bounded { IsBoundedNext result }
    ensures fewer { reads_left result < 3 }
{
    let InspectLogWait {
        request,
        program,
        text,
    } = wait;
    match read_log(alloc, bytes) {
        Ok(source) => {
            let read = ReadInspection {
                request,
                program,
                text,
                source,
            };
            record(alloc, read)
        }
        Err(LogFault::BadLog) => Next::Refuses(CommandRefusal::Input(Input::Log)),
        Err(LogFault::WantOfMemory) => Next::WantOfMemory,
    }
}

/// What comes of the bytes of a persisted value.
fn take_value(alloc: Global, wait: InspectValueWait, bytes: &[u8]) -> Next
    requires { IsBoundedInspect wait.read.request }
    ensures leads { let read = wait.read in
        Leads result (Free (OfJson (λ v.
        OfTimeLine read.request read.text (plain_source read.source) (founded (checked_tree read.program) v))
        bytes.now)) }
    ensures bounded { IsBoundedNext result }
    ensures fewer { reads_left result < 2 }
{
    match from_json(alloc, bytes) {
        Ok(value) => found(alloc, wait.read, value),
        Err(JsonFault::BadJson) => Next::Refuses(CommandRefusal::Input(Input::Persisted)),
        Err(JsonFault::WantOfMemory) => Next::WantOfMemory,
    }
}

impl InspectWait {
    /// The name of the file that it waits for.
    pub(crate) fn name(&self) -> &Text
        ensures { result.now ≡ file_of (waiting.Inspect self.now) }
    {
        match self {
            InspectWait::Program(request) => &request.program,
            InspectWait::Log(wait) => &wait.request.log,
            InspectWait::Value(wait) => &wait.persisted,
            InspectWait::Queries(wait) => &wait.queries,
        }
    }

    /// Which of its inputs the file is.
    pub(crate) fn input(&self) -> Input
        ensures { result ≡ input_of (waiting.Inspect self.now) }
    {
        match self {
            InspectWait::Program(_) => Input::Program,
            InspectWait::Log(_) => Input::Log,
            InspectWait::Value(_) => Input::Persisted,
            InspectWait::Queries(_) => Input::Queries,
        }
    }

    /// What comes of the bytes of its file.
    pub(crate) fn take(self, alloc: Global, bytes: Blob) -> Next
        requires { IsBoundedWait (waiting.Inspect self) }
        ensures leads { Leads result (Free (next_of (waiting.Inspect self) bytes)) }
        ensures bounded { IsBoundedNext result }
        ensures fewer { reads_left result < files_left (waiting.Inspect self) }
    {
        match self {
            InspectWait::Program(request) => take_program(alloc, request, bytes),
            InspectWait::Log(wait) => take_log(alloc, wait, bytes.bytes()),
            InspectWait::Value(wait) => take_value(alloc, wait, bytes.bytes()),
            InspectWait::Queries(wait) => take_queries(alloc, wait, bytes.bytes()),
        }
    }
}
