//! What a replay has read: a session's program and its log.
ghost use Rattle.std.specs.Prelude.{◌≡◌, ◌<◌, ◌≤◌, ◌++◌, IfOk, OnOk};
ghost use Rattle.std.specs.Option.{IfSome, option_map};
ghost use Rattle.model_solved.specs.Methods.{field_counts};
ghost use Rattle.model_solved.specs.Founding.{checked_tree, founding_of};
ghost use Rattle.tea_base.specs.Limits.{time_limit};
ghost use Rattle.model_value.specs.View.{plain};
ghost use Rattle.saved_value.specs.Saving.{CanBeSaved};
ghost use Rattle.world_plain.specs.Valid.{Valid};
ghost use Rattle.world_plain.specs.World.{world_record};
ghost use Rattle.command_words.specs.Bounds.{IsBounded};
ghost use Rattle.command_outcome.specs.Outcome.{optional_put, steps_of};
ghost use Rattle.commands.specs.Verdict.{Free, OfFounded, OfJson, OfProgram, OfLog, OfRecorded, OfOwn, OfSnapshot, OfTree, Only, Starts, fine, founded, resumed_verdict, world_verdict};
ghost use Rattle.command_replay.specs.Replays.{world_at};
ghost use Rattle.commands.specs.Work.{IsBoundedNext, IsBoundedWait, Leads, file_of, files_left, input_of, next_of, plain_named, plain_source, reads_left};
ghost use Rattle.commands.specs.declared.work.Waiting.TheVariants as waiting;

use crate::opening::{Source, names_no_other, read_log};
use crate::work::{Next, Waiting};
use command_outcome::{
    CommandRefusal, Input, Outcome, ProgramFault, Put, optional_put, read_program,
};
use command_replay::{Recording, tell_replay};
use command_words::ReplayRequest;
use model_solved::Checked;
use model_value::Value;
use persist_json::{JsonFault, from_json};
use session_log::LogFault;
use snapshot_codec::{SnapFault, session_id, unsnap};
use std::alloc::Global;
use tea_base::{Blob, List, SessionId, Text, WantOfMemory};
use world_plain::PlainWorld;

/// A replay that has read its program, and waits for its log.
#[derive(Drop)]
pub struct LogWait {
    pub request: ReplayRequest,
    pub program: Checked,
    /// The program's text.
    pub text: Blob,
}

/// A replay that has read its program and its log.
#[derive(Drop)]
pub struct ReadReplay {
    pub request: ReplayRequest,
    pub program: Checked,
    /// The program's text.
    pub text: Blob,
    /// What its log holds.
    pub source: Source,
}

/// A replay that has read its program and its log, and waits for its persisted value.
#[derive(Drop)]
pub struct ReplayValueWait {
    pub persisted: Text,
    pub read: ReadReplay,
}

/// A replay that has read its program and its log, and waits for the snapshot from which it begins.
#[derive(Drop)]
pub struct SnapshotWait {
    pub from: Text,
    pub request: ReplayRequest,
    pub recording: Recording,
}

/// A replay that waits for a file.
#[derive(Drop)]
pub enum ReplayWait {
    /// It has read nothing yet.
    Program(ReplayRequest),
    /// It has read its program.
    Log(LogWait),
    /// It has read its program and its log, and has a persisted value.
    Value(ReplayValueWait),
    /// It knows its session's id, and begins with a snapshot.
    Snapshot(SnapshotWait),
}

/// Adds a file that is put, if it has a name.
fn add_put(files: &mut List<Put>, name: Option<Text>, bytes: Blob) -> Result<(), WantOfMemory>
    ensures { OnOk result (files.new ≡ files.old ++ optional_put name bytes) }
{
    match name {
        Some(name) => files.push(Put { name, bytes }),
        None => Ok(()),
    }
}

/// What a replay puts and prints that begins with the first world of its session, or with one that is taken up.
fn tell(
    alloc: Global,
    request: ReplayRequest,
    recording: Recording,
    start: Option<PlainWorld>,
) -> Result<Outcome, WantOfMemory>
    requires time { request.time < time_limit }
    requires valid { IfSome start (λ world.
        Valid (field_counts (checked_tree recording.program)) (world_record world)) }
    requires early { IfSome start (λ world. world.time ≤ request.time) }
    ensures { IfOk result (λ outcome. fine (steps_of outcome.files outcome.text)
        ≡ world_verdict request (world_at recording request.time (option_map world_record start))) }
{
    let told = tell_replay(alloc, recording, start, request.time)?;
    let ReplayRequest {
        snapshot,
        saved,
        ..
    } = request;
    let mut files = optional_put(alloc, snapshot, told.snapshot)?;
    add_put(&mut files, saved, told.saved)?;
    Ok(Outcome {
        files,
        text: Blob::from_vec(told.line.into_bytes()),
    })
}

/// What comes of a replay that begins so.
fn finish(
    alloc: Global,
    request: ReplayRequest,
    recording: Recording,
    start: Option<PlainWorld>,
) -> Next
    requires time { request.time < time_limit }
    requires valid { IfSome start (λ world.
        Valid (field_counts (checked_tree recording.program)) (world_record world)) }
    requires early { IfSome start (λ world. world.time ≤ request.time) }
    ensures leads { Leads result
        (Free (Only (world_verdict request (world_at recording request.time (option_map world_record start))))) }
    ensures bounded { IsBoundedNext result }
    ensures fewer { reads_left result < 1 }
{
    match tell(alloc, request, recording, start) {
        Ok(outcome) => Next::Gives(outcome),
        Err(WantOfMemory) => Next::WantOfMemory,
    }
}

/// What comes of a program's text, of which a replay is asked.
fn take_program(alloc: Global, request: ReplayRequest, text: Blob) -> Next
    requires { IsBounded request }
    ensures leads { Leads result (Free (OfProgram (OfTree request text) text)) }
    ensures bounded { IsBoundedNext result }
    ensures fewer { reads_left result < 4 }
{
    match read_program(alloc, text.bytes()) {
        Ok(program) => Next::Reads(Waiting::Replay(ReplayWait::Log(LogWait {
            request,
            program,
            text,
        }))),
        Err(ProgramFault::Refused { line }) => Next::Refuses(CommandRefusal::Program { line }),
        Err(ProgramFault::WantOfMemory) => Next::WantOfMemory,
    }
}

/// How a replay begins that has read its program and its log.
fn start(alloc: Global, mut request: ReplayRequest, recording: Recording) -> Next
    requires { IsBounded request }
    ensures leads { Leads result
        (Free (Starts request.from request (founding_of recording.program) recording.id.0 recording.log.entries)) }
    ensures bounded { IsBoundedNext result }
    ensures fewer { reads_left result < 2 }
{
    match request.from.take() {
        Some(from) => Next::Reads(Waiting::Replay(ReplayWait::Snapshot(SnapshotWait {
            from,
            request,
            recording,
        }))),
        None => finish(alloc, request, recording, None),
    }
}

/// The same, if its log names no other session.
fn start_own(
    alloc: Global,
    request: ReplayRequest,
    recording: Recording,
    named: Option<SessionId>,
) -> Next
    requires { IsBounded request }
    ensures leads { Leads result (Free (OfOwn (plain_named named) recording.id.0
        (Starts request.from request (founding_of recording.program) recording.id.0 recording.log.entries))) }
    ensures bounded { IsBoundedNext result }
    ensures fewer { reads_left result < 2 }
{
    if !names_no_other(named, &recording.id) {
        return Next::Refuses(CommandRefusal::Input(Input::Journal));
    }
    start(alloc, request, recording)
}

/// How a replay begins, once its persisted value is known.
fn found(alloc: Global, read: ReadReplay, persisted: Value) -> Next
    requires words { IsBounded read.request }
    requires fit { CanBeSaved (plain persisted) }
    ensures leads { Leads result
        (Free (OfFounded read.request read.text (plain_source read.source)
        (founded (checked_tree read.program) (plain persisted)))) }
    ensures bounded { IsBoundedNext result }
    ensures fewer { reads_left result < 2 }
{
    let ReadReplay {
        request,
        program,
        text,
        source,
    } = read;
    let Source { named, stored } = source;
    let id = session_id(&request.name, text.bytes(), &persisted);
    let recording = Recording {
        program: program.with_persisted(persisted),
        id,
        log: stored.log,
    };
    start_own(alloc, request, recording, named)
}

/// What comes of a replay that has read its program and its log: its persisted value is read, where it has one.
fn record(alloc: Global, mut read: ReadReplay) -> Next
    requires { IsBounded read.request }
    ensures leads { Leads result
        (Free (OfRecorded read.request read.text (checked_tree read.program) (plain_source read.source))) }
    ensures bounded { IsBoundedNext result }
    ensures fewer { reads_left result < 3 }
{
    match read.request.persisted.take() {
        Some(persisted) => {
            Next::Reads(Waiting::Replay(ReplayWait::Value(ReplayValueWait { persisted, read })))
        },
        None => found(alloc, read, Value::Nil),
    }
}

/// What comes of a log's bytes.
fn take_log(alloc: Global, wait: LogWait, bytes: &[u8]) -> Next
    requires { IsBounded wait.request }
    ensures leads { Leads result
        (Free (OfLog (OfRecorded wait.request wait.text (checked_tree wait.program)) bytes.now)) }
    ensures bounded { IsBoundedNext result }
    ensures fewer { reads_left result < 3 }
{
    let LogWait {
        request,
        program,
        text,
    } = wait;
    match read_log(alloc, bytes) {
        Ok(source) => {
            let read = ReadReplay {
                request,
                program,
                text,
                source,
            };
            record(alloc, read)
        }
        Err(LogFault::BadLog) => Next::Refuses(CommandRefusal::Input(Input::Log)),
        Err(LogFault::WantOfMemory) => Next::WantOfMemory,
    }
}

/// What comes of the bytes of a persisted value.
fn take_value(alloc: Global, wait: ReplayValueWait, bytes: &[u8]) -> Next
    requires { IsBounded wait.read.request }
    ensures leads { let read = wait.read in
        Leads result (Free (OfJson (λ v.
        OfFounded read.request read.text (plain_source read.source) (founded (checked_tree read.program) v))
        bytes.now)) }
    ensures bounded { IsBoundedNext result }
    ensures fewer { reads_left result < 2 }
{
    match from_json(alloc, bytes) {
        Ok(value) => found(alloc, wait.read, value),
        Err(JsonFault::BadJson) => Next::Refuses(CommandRefusal::Input(Input::Persisted)),
        Err(JsonFault::WantOfMemory) => Next::WantOfMemory,
    }
}

/// What comes of a replay that goes on from a world that was read, if its time is not above the one that is asked for.
fn resume(alloc: Global, request: ReplayRequest, recording: Recording, world: PlainWorld) -> Next
    requires time { request.time < time_limit }
    requires valid { Valid (field_counts (checked_tree recording.program)) (world_record world) }
    ensures leads { Leads result
        (Free (Only (resumed_verdict request (checked_tree recording.program) recording.log.entries
        (world_record world)))) }
    ensures bounded { IsBoundedNext result }
    ensures fewer { reads_left result < 1 }
{
    if request.time < world.time {
        return Next::Refuses(CommandRefusal::Input(Input::Time));
    }
    finish(alloc, request, recording, Some(world))
}

/// What comes of a snapshot's bytes.
fn take_snapshot(alloc: Global, wait: SnapshotWait, bytes: &[u8]) -> Next
    requires { IsBounded wait.request }
    ensures leads { Leads result
        (Free (OfSnapshot wait.request
        (checked_tree wait.recording.program) wait.recording.id.0 wait.recording.log.entries bytes.now)) }
    ensures bounded { IsBoundedNext result }
    ensures fewer { reads_left result < 1 }
{
    let SnapshotWait {
        from: _,
        request,
        recording,
    } = wait;
    match unsnap(alloc, &recording.program, &recording.id, bytes) {
        Ok(world) => resume(alloc, request, recording, world),
        Err(SnapFault::OtherSession { .. }) => Next::Refuses(CommandRefusal::Input(
            Input::Snapshot,
        )),
        Err(SnapFault::Bad) => Next::Refuses(CommandRefusal::Input(Input::Snapshot)),
        Err(SnapFault::WantOfMemory) => Next::WantOfMemory,
    }
}

impl ReplayWait {
    /// The name of the file that it waits for.
    pub(crate) fn name(&self) -> &Text
        ensures { result.now ≡ file_of (waiting.Replay self.now) }
    {
        match self {
            ReplayWait::Program(request) => &request.program,
            ReplayWait::Log(wait) => &wait.request.log,
            ReplayWait::Value(wait) => &wait.persisted,
            ReplayWait::Snapshot(wait) => &wait.from,
        }
    }

    /// Which of its inputs the file is.
    pub(crate) fn input(&self) -> Input
        ensures { result ≡ input_of (waiting.Replay self.now) }
    {
        match self {
            ReplayWait::Program(_) => Input::Program,
            ReplayWait::Log(_) => Input::Log,
            ReplayWait::Value(_) => Input::Persisted,
            ReplayWait::Snapshot(_) => Input::Snapshot,
        }
    }

    /// What comes of the bytes of its file.
    pub(crate) fn take(self, alloc: Global, bytes: Blob) -> Next
        requires { IsBoundedWait (waiting.Replay self) }
        ensures leads { Leads result (Free (next_of (waiting.Replay self) bytes)) }
        ensures bounded { IsBoundedNext result }
        ensures fewer { reads_left result < files_left (waiting.Replay self) }
    {
        match self {
            ReplayWait::Program(request) => take_program(alloc, request, bytes),
            ReplayWait::Log(wait) => take_log(alloc, wait, bytes.bytes()),
            ReplayWait::Value(wait) => take_value(alloc, wait, bytes.bytes()),
            ReplayWait::Snapshot(wait) => take_snapshot(alloc, wait, bytes.bytes()),
        }
    }
}
