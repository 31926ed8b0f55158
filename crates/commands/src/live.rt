//! A view whose lines come to its run: the command `join` with `-` in the place of its script.
ghost use Rattle.std.specs.Prelude.{◌≡◌, ◌<◌, IfOk};
ghost use Rattle.model_value.specs.View.{plain};
ghost use Rattle.saved_value.specs.Saving.{CanBeSaved};
ghost use Rattle.model_solved.specs.Founding.{checked_tree};
ghost use Rattle.command_words.specs.Bounds.{IsBoundedLive};
ghost use Rattle.commands.specs.Verdict.{ByLive, Free, OfJson, OfLive, OfLiveBegun, OfProgram, Only, at_once, founded, live_of};
ghost use Rattle.commands.specs.Work.{IsBoundedNext, IsBoundedWait, Leads, file_of, files_left, input_of, next_of, reads_left};
ghost use Rattle.commands.specs.declared.work.Waiting.TheVariants as waiting;

use crate::work::{Next, Waiting};
use command_outcome::{CommandRefusal, Input, ProgramFault, read_program};
use command_words::{LiveRequest, is_address};
use model_solved::Checked;
use model_value::Value;
use persist_json::{JsonFault, from_json};
use snapshot_codec::session_id;
use std::alloc::Global;
use tea_base::{Blob, SessionId, Text, WantOfMemory};

/// A live view that has its program.
#[derive(Drop)]
pub struct LiveRead {
    pub request: LiveRequest,
    pub program: Checked,
    /// The program's text.
    pub text: Blob,
}

/// A live view that has its program, and waits for its persisted value.
#[derive(Drop)]
pub struct LiveValueWait {
    pub persisted: Text,
    pub read: LiveRead,
}

/// A live view that waits for a file.
#[derive(Drop)]
pub enum LiveWait {
    /// It has read nothing yet.
    Program(LiveRequest),
    /// It has read its program, and has a persisted value.
    Value(LiveValueWait),
}

/// What a live view takes part in.
#[derive(Drop)]
pub struct LiveStart {
    pub program: Checked,
    /// The id of the session.
    pub id: SessionId,
    /// The number of the view, from 1.
    pub view: u32,
    /// The address of the session's reflector.
    pub address: Text,
}

/// What a live view takes part in, once its persisted value is known.
fn take_part(read: LiveRead, persisted: Value) -> Next
    requires words { IsBoundedLive read.request }
    requires fit { CanBeSaved (plain persisted) }
    ensures leads { Leads result
        (Only (at_once (ByLive (live_of read.request read.text
        (founded (checked_tree read.program) (plain persisted)))))) }
    ensures bounded { IsBoundedNext result }
    ensures fewer { reads_left result < 1 }
{
    let LiveRead {
        request,
        program,
        text,
    } = read;
    let id = session_id(&request.name, text.bytes(), &persisted);
    Next::Lives(LiveStart {
        program: program.with_persisted(persisted),
        id,
        view: request.view,
        address: request.address,
    })
}

/// What comes of a live view that has its program and its address: its persisted value is read, where it has one.
fn begin(mut read: LiveRead) -> Next
    requires { IsBoundedLive read.request }
    ensures leads { Leads result (OfLiveBegun read.request read.text (checked_tree read.program)) }
    ensures bounded { IsBoundedNext result }
    ensures fewer { reads_left result < 2 }
{
    match read.request.persisted.take() {
        Some(persisted) => {
            Next::Reads(Waiting::Live(LiveWait::Value(LiveValueWait { persisted, read })))
        }
        None => take_part(read, Value::Nil),
    }
}

/// What comes of a live view that has its program: its address is checked.
fn answer_address(alloc: Global, read: LiveRead) -> Result<Next, WantOfMemory>
    requires { IsBoundedLive read.request }
    ensures leads { IfOk result (λ step. Leads step (OfLive read.request read.text (checked_tree read.program))) }
    ensures bounded { IfOk result IsBoundedNext }
    ensures fewer { IfOk result (λ step. reads_left step < 2) }
{
    if !is_address(alloc, read.request.address.as_str())? {
        return Ok(Next::Refuses(CommandRefusal::Input(Input::Address)));
    }
    Ok(begin(read))
}

/// The same, by what is done next where memory is wanted.
fn take_address(alloc: Global, read: LiveRead) -> Next
    requires { IsBoundedLive read.request }
    ensures leads { Leads result (Free (OfLive read.request read.text (checked_tree read.program))) }
    ensures bounded { IsBoundedNext result }
    ensures fewer { reads_left result < 2 }
{
    match answer_address(alloc, read) {
        Ok(next) => next,
        Err(WantOfMemory) => Next::WantOfMemory,
    }
}

/// What comes of a program's text, of which a live view is asked.
fn take_program(alloc: Global, request: LiveRequest, text: Blob) -> Next
    requires { IsBoundedLive request }
    ensures leads { Leads result (Free (OfProgram (OfLive request text) text)) }
    ensures bounded { IsBoundedNext result }
    ensures fewer { reads_left result < 2 }
{
    match read_program(alloc, text.bytes()) {
        Ok(program) => {
            let read = LiveRead {
                request,
                program,
                text,
            };
            take_address(alloc, read)
        }
        Err(ProgramFault::Refused { line }) => Next::Refuses(CommandRefusal::Program { line }),
        Err(ProgramFault::WantOfMemory) => Next::WantOfMemory,
    }
}

/// What comes of the bytes of a persisted value.
fn take_value(alloc: Global, wait: LiveValueWait, bytes: &[u8]) -> Next
    requires { IsBoundedLive wait.read.request }
    ensures leads { let read = wait.read in
        Leads result (Free (OfJson (λ v.
        Only (at_once (ByLive (live_of read.request read.text (founded (checked_tree read.program) v))))) bytes.now)) }
    ensures bounded { IsBoundedNext result }
    ensures fewer { reads_left result < 1 }
{
    match from_json(alloc, bytes) {
        Ok(value) => take_part(wait.read, value),
        Err(JsonFault::BadJson) => Next::Refuses(CommandRefusal::Input(Input::Persisted)),
        Err(JsonFault::WantOfMemory) => Next::WantOfMemory,
    }
}

impl LiveWait {
    /// The name of the file that it waits for.
    pub(crate) fn name(&self) -> &Text
        ensures { result.now ≡ file_of (waiting.Live self.now) }
    {
        match self {
            LiveWait::Program(request) => &request.program,
            LiveWait::Value(wait) => &wait.persisted,
        }
    }

    /// Which of its inputs the file is.
    pub(crate) fn input(&self) -> Input
        ensures { result ≡ input_of (waiting.Live self.now) }
    {
        match self {
            LiveWait::Program(_) => Input::Program,
            LiveWait::Value(_) => Input::Persisted,
        }
    }

    /// What comes of the bytes of its file.
    pub(crate) fn take(self, alloc: Global, bytes: Blob) -> Next
        requires { IsBoundedWait (waiting.Live self) }
        ensures leads { Leads result (Free (next_of (waiting.Live self) bytes)) }
        ensures bounded { IsBoundedNext result }
        ensures fewer { reads_left result < files_left (waiting.Live self) }
    {
        match self {
            LiveWait::Program(request) => take_program(alloc, request, bytes),
            LiveWait::Value(wait) => take_value(alloc, wait, bytes.bytes()),
        }
    }
}
