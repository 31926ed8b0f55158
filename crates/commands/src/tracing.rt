//! What ran in a stretch of time of a recorded session: the command `trace`.
ghost use Rattle.std.specs.Prelude.{◌≡◌, ◌<◌};
ghost use Rattle.std.specs.Arc.{arc_value};
ghost use Rattle.tea_base.specs.Limits.{time_limit};
ghost use Rattle.model_solved.specs.Founding.{checked_tree, founding_of};
ghost use Rattle.model_value.specs.View.{plain};
ghost use Rattle.saved_value.specs.Saving.{CanBeSaved};
ghost use Rattle.command_words.specs.Bounds.{IsBoundedTrace};
ghost use Rattle.commands.specs.Verdict.{Free, OfJson, OfLog, OfProgram, OfOwn, OfTrace, OfTraced, OfTracedLog, Only, founded, trace_verdict};
ghost use Rattle.commands.specs.Work.{IsBoundedNext, IsBoundedWait, Leads, file_of, files_left, input_of, next_of, plain_named, plain_source, reads_left};
ghost use Rattle.commands.specs.declared.work.Waiting.TheVariants as waiting;

use crate::opening::{Source, names_no_other, read_log};
use crate::work::{Next, Waiting};
use command_outcome::{CommandRefusal, Input, Outcome, ProgramFault, Puts, read_program};
use command_replay::Recording;
use command_trace::{Stretch, trace};
use command_words::TraceRequest;
use model_solved::Checked;
use model_value::Value;
use persist_json::{JsonFault, from_json};
use session_log::{Log, LogFault};
use snapshot_codec::session_id;
use std::alloc::Global;
use std::sync::Arc;
use tea_base::{Blob, SessionId, Text, WantOfMemory};

/// A trace that has read its program, and waits for its log.
#[derive(Drop)]
pub struct TraceLogWait {
    pub request: TraceRequest,
    pub program: Checked,
    /// The program's text.
    pub text: Blob,
}

/// A trace that has read its program and its log.
#[derive(Drop)]
pub struct ReadTrace {
    pub request: TraceRequest,
    pub program: Checked,
    /// The program's text.
    pub text: Blob,
    /// What its log holds.
    pub source: Source,
}

/// A trace that has read its program and its log, and waits for its persisted value.
#[derive(Drop)]
pub struct TraceValueWait {
    pub persisted: Text,
    pub read: ReadTrace,
}

/// A trace that waits for a file.
#[derive(Drop)]
pub enum TraceWait {
    /// It has read nothing yet.
    Program(TraceRequest),
    /// It has read its program.
    Log(TraceLogWait),
    /// It has read its program and its log, and has a persisted value.
    Value(TraceValueWait),
}

/// What is printed of what ran in a recorded session.
fn answer(
    alloc: Global,
    program: Arc<Checked, Global>,
    id: SessionId,
    log: &Log,
    stretch: Stretch,
) -> Next
    requires { stretch.to < time_limit }
    ensures leads { Leads result
        (Free (Only (trace_verdict (founding_of (arc_value program)) id.0 log.now.entries stretch.from stretch.to))) }
    ensures bounded { IsBoundedNext result }
    ensures fewer { reads_left result < 1 }
{
    match trace(alloc, program, id, log, stretch) {
        Ok(text) => Next::Gives(Outcome {
            files: Puts::new(alloc),
            text: Blob::from_vec(text.into_bytes()),
        }),
        Err(WantOfMemory) => Next::WantOfMemory,
    }
}

/// What comes of a recorded session, whose program is shared from here on.
fn share(alloc: Global, recording: Recording, stretch: Stretch) -> Next
    requires { stretch.to < time_limit }
    ensures leads { Leads result
        (Free (Only (trace_verdict (founding_of recording.program) recording.id.0 recording.log.entries stretch.from
        stretch.to))) }
    ensures bounded { IsBoundedNext result }
    ensures fewer { reads_left result < 1 }
{
    let Recording { program, id, log } = recording;
    let Ok(program) = Arc::new(alloc, program) else {
        return Next::WantOfMemory;
    };
    answer(alloc, program, id, &log, stretch)
}

/// The same, if its log names no other session.
fn share_own(
    alloc: Global,
    recording: Recording,
    named: Option<SessionId>,
    stretch: Stretch,
) -> Next
    requires { stretch.to < time_limit }
    ensures leads { Leads result (Free (OfOwn (plain_named named) recording.id.0
        (Only (trace_verdict (founding_of recording.program) recording.id.0 recording.log.entries stretch.from
        stretch.to)))) }
    ensures bounded { IsBoundedNext result }
    ensures fewer { reads_left result < 1 }
{
    if !names_no_other(named, &recording.id) {
        return Next::Refuses(CommandRefusal::Input(Input::Journal));
    }
    share(alloc, recording, stretch)
}

/// What comes of a trace whose persisted value is known.
fn found(alloc: Global, read: ReadTrace, persisted: Value) -> Next
    requires words { IsBoundedTrace read.request }
    requires fit { CanBeSaved (plain persisted) }
    ensures leads { Leads result
        (Free (OfTraced read.request read.text (plain_source read.source)
        (founded (checked_tree read.program) (plain persisted)))) }
    ensures bounded { IsBoundedNext result }
    ensures fewer { reads_left result < 1 }
{
    let ReadTrace {
        request,
        program,
        text,
        source,
    } = read;
    let Source { named, stored } = source;
    let id = session_id(&request.name, text.bytes(), &persisted);
    let recording = Recording {
        program: program.with_persisted(persisted),
        id,
        log: stored.log,
    };
    let stretch = Stretch {
        from: request.from,
        to: request.to,
    };
    share_own(alloc, recording, named, stretch)
}

/// What comes of a trace that has read its program and its log: its persisted value is read, where it has one.
fn record(alloc: Global, mut read: ReadTrace) -> Next
    requires { IsBoundedTrace read.request }
    ensures leads { Leads result
        (Free (OfTracedLog read.request read.text (checked_tree read.program) (plain_source read.source))) }
    ensures bounded { IsBoundedNext result }
    ensures fewer { reads_left result < 2 }
{
    match read.request.persisted.take() {
        Some(persisted) => {
            Next::Reads(Waiting::Trace(TraceWait::Value(TraceValueWait { persisted, read })))
        },
        None => found(alloc, read, Value::Nil),
    }
}

/// What comes of a program's text, of which a trace is asked.
fn take_program(alloc: Global, request: TraceRequest, text: Blob) -> Next
    requires { IsBoundedTrace request }
    ensures leads { Leads result (Free (OfProgram (OfTrace request text) text)) }
    ensures bounded { IsBoundedNext result }
    ensures fewer { reads_left result < 3 }
{
    match read_program(alloc, text.bytes()) {
        Ok(program) => Next::Reads(Waiting::Trace(TraceWait::Log(TraceLogWait {
            request,
            program,
            text,
        }))),
        Err(ProgramFault::Refused { line }) => Next::Refuses(CommandRefusal::Program { line }),
        Err(ProgramFault::WantOfMemory) => Next::WantOfMemory,
    }
}

/// What comes of a log's bytes.
fn take_log(alloc: Global, wait: TraceLogWait, bytes: &[u8]) -> Next
    requires { IsBoundedTrace wait.request }
    ensures leads { Leads result
        (Free (OfLog (OfTracedLog wait.request wait.text (checked_tree wait.program)) bytes.now)) }
    ensures bounded { IsBoundedNext result }
    ensures fewer { reads_left result < 2 }
{
    let TraceLogWait {
        request,
        program,
        text,
    } = wait;
    match read_log(alloc, bytes) {
        Ok(source) => {
            let read = ReadTrace {
                request,
                program,
                text,
                source,
            };
            record(alloc, read)
        }
        Err(LogFault::BadLog) => Next::Refuses(CommandRefusal::Input(Input::Log)),
        Err(LogFault::WantOfMemory) => Next::WantOfMemory,
    }
}

/// What comes of the bytes of a persisted value.
fn take_value(alloc: Global, wait: TraceValueWait, bytes: &[u8]) -> Next
    requires { IsBoundedTrace wait.read.request }
    ensures leads { let read = wait.read in
        Leads result (Free (OfJson (λ v.
        OfTraced read.request read.text (plain_source read.source) (founded (checked_tree read.program) v))
        bytes.now)) }
    ensures bounded { IsBoundedNext result }
    ensures fewer { reads_left result < 1 }
{
    match from_json(alloc, bytes) {
        Ok(value) => found(alloc, wait.read, value),
        Err(JsonFault::BadJson) => Next::Refuses(CommandRefusal::Input(Input::Persisted)),
        Err(JsonFault::WantOfMemory) => Next::WantOfMemory,
    }
}

impl TraceWait {
    /// The name of the file that it waits for.
    pub(crate) fn name(&self) -> &Text
        ensures { result.now ≡ file_of (waiting.Trace self.now) }
    {
        match self {
            TraceWait::Program(request) => &request.program,
            TraceWait::Log(wait) => &wait.request.log,
            TraceWait::Value(wait) => &wait.persisted,
        }
    }

    /// Which of its inputs the file is.
    pub(crate) fn input(&self) -> Input
        ensures { result ≡ input_of (waiting.Trace self.now) }
    {
        match self {
            TraceWait::Program(_) => Input::Program,
            TraceWait::Log(_) => Input::Log,
            TraceWait::Value(_) => Input::Persisted,
        }
    }

    /// What comes of the bytes of its file.
    pub(crate) fn take(self, alloc: Global, bytes: Blob) -> Next
        requires { IsBoundedWait (waiting.Trace self) }
        ensures leads { Leads result (Free (next_of (waiting.Trace self) bytes)) }
        ensures bounded { IsBoundedNext result }
        ensures fewer { reads_left result < files_left (waiting.Trace self) }
    {
        match self {
            TraceWait::Program(request) => take_program(alloc, request, bytes),
            TraceWait::Log(wait) => take_log(alloc, wait, bytes.bytes()),
            TraceWait::Value(wait) => take_value(alloc, wait, bytes.bytes()),
        }
    }
}
