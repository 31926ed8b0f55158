//! The visit of a view to a session: the command `join`.
ghost use Rattle.std.specs.Prelude.{◌≡◌, ◌<◌, IfOk, Some};
ghost use Rattle.model_value.specs.View.{plain};
ghost use Rattle.saved_value.specs.Saving.{CanBeSaved};
ghost use Rattle.model_solved.specs.Founding.{checked_tree};
ghost use Rattle.view_script.specs.PlainLine.{plain_lines};
ghost use Rattle.view_script.specs.ViewScript.{view_script_of};
ghost use Rattle.command_words.specs.Bounds.{IsBoundedJoin};
ghost use Rattle.commands.specs.Verdict.{ByVisit, Free, OfJoin, OfJson, OfProgram, OfViewScript, Only, at_once, founded, visit_to};
ghost use Rattle.commands.specs.Work.{IsBoundedNext, IsBoundedWait, Leads, file_of, files_left, input_of, next_of, reads_left};
ghost use Rattle.commands.specs.declared.work.Waiting.TheVariants as waiting;

use crate::work::{Next, Waiting};
use command_outcome::{CommandRefusal, Input, ProgramFault, read_program};
use command_words::{JoinRequest, is_address};
use model_solved::Checked;
use model_value::Value;
use persist_json::{JsonFault, from_json};
use snapshot_codec::session_id;
use std::alloc::Global;
use tea_base::{Blob, SessionId, Text, WantOfMemory};
use view_script::{ScriptFault, ViewScript, parse_script};

/// A view that has its program, and waits for its script.
#[derive(Drop)]
pub struct ScriptWait {
    pub request: JoinRequest,
    pub program: Checked,
    /// The program's text.
    pub text: Blob,
}

/// A view that has its program and its script, and waits for its persisted value.
#[derive(Drop)]
pub struct JoinValueWait {
    pub persisted: Text,
    pub read: ScriptWait,
    pub script: ViewScript,
}

/// A view that waits for a file.
#[derive(Drop)]
pub enum JoinWait {
    /// It has read nothing yet.
    Program(JoinRequest),
    /// It has read its program.
    Script(ScriptWait),
    /// It has read its program and its script, and has a persisted value.
    Value(JoinValueWait),
}

/// The visit of a view to a session.
#[derive(Drop)]
pub struct VisitRequest {
    pub program: Checked,
    /// The id of the session.
    pub id: SessionId,
    /// The number of the view, from 1.
    pub view: u32,
    /// The address of the session's reflector.
    pub address: Text,
    /// What the view does.
    pub script: ViewScript,
}

/// What comes of a view that has its program: its address is checked, before its script is read.
fn answer_address(alloc: Global, read: ScriptWait) -> Result<Next, WantOfMemory>
    requires { IsBoundedJoin read.request }
    ensures leads { IfOk result (λ step. Leads step (OfJoin read.request read.text (checked_tree read.program))) }
    ensures bounded { IfOk result IsBoundedNext }
    ensures fewer { IfOk result (λ step. reads_left step < 3) }
{
    if !is_address(alloc, read.request.address.as_str())? {
        return Ok(Next::Refuses(CommandRefusal::Input(Input::Address)));
    }
    Ok(Next::Reads(Waiting::Join(JoinWait::Script(read))))
}

/// The same, by what is done next where memory is wanted.
fn take_address(alloc: Global, read: ScriptWait) -> Next
    requires { IsBoundedJoin read.request }
    ensures leads { Leads result (Free (OfJoin read.request read.text (checked_tree read.program))) }
    ensures bounded { IsBoundedNext result }
    ensures fewer { reads_left result < 3 }
{
    match answer_address(alloc, read) {
        Ok(next) => next,
        Err(WantOfMemory) => Next::WantOfMemory,
    }
}

/// What comes of a program's text, of which a visit is asked.
fn take_program(alloc: Global, request: JoinRequest, text: Blob) -> Next
    requires { IsBoundedJoin request }
    ensures leads { Leads result (Free (OfProgram (OfJoin request text) text)) }
    ensures bounded { IsBoundedNext result }
    ensures fewer { reads_left result < 3 }
{
    match read_program(alloc, text.bytes()) {
        Ok(program) => {
            let read = ScriptWait {
                request,
                program,
                text,
            };
            take_address(alloc, read)
        }
        Err(ProgramFault::Refused { line }) => Next::Refuses(CommandRefusal::Program { line }),
        Err(ProgramFault::WantOfMemory) => Next::WantOfMemory,
    }
}

/// The visit that is asked for, once its persisted value is known.
fn visit(read: ScriptWait, script: ViewScript, persisted: Value) -> Next
    requires words { IsBoundedJoin read.request }
    requires fit { CanBeSaved (plain persisted) }
    ensures leads { Leads result
        (Only (at_once (ByVisit (visit_to read.request read.text (plain_lines script)
        (founded (checked_tree read.program) (plain persisted)))))) }
    ensures bounded { IsBoundedNext result }
    ensures fewer { reads_left result < 1 }
{
    let ScriptWait {
        request,
        program,
        text,
    } = read;
    let id = session_id(&request.name, text.bytes(), &persisted);
    Next::Visits(VisitRequest {
        program: program.with_persisted(persisted),
        id,
        view: request.view,
        address: request.address,
        script,
    })
}

/// What comes of a view that has its script: its persisted value is read, where it has one.
fn begin(mut read: ScriptWait, script: ViewScript) -> Next
    requires { IsBoundedJoin read.request }
    ensures leads { Leads result
        (OfViewScript read.request read.text (checked_tree read.program) (Some (plain_lines script))) }
    ensures bounded { IsBoundedNext result }
    ensures fewer { reads_left result < 2 }
{
    match read.request.persisted.take() {
        Some(persisted) => Next::Reads(Waiting::Join(JoinWait::Value(JoinValueWait {
            persisted,
            read,
            script,
        }))),
        None => visit(read, script, Value::Nil),
    }
}

/// What comes of a script's bytes.
fn take_script(alloc: Global, read: ScriptWait, bytes: &[u8]) -> Next
    requires { IsBoundedJoin read.request }
    ensures leads { Leads result
        (Free (OfViewScript read.request read.text (checked_tree read.program) (view_script_of bytes.now))) }
    ensures bounded { IsBoundedNext result }
    ensures fewer { reads_left result < 2 }
{
    match parse_script(alloc, bytes) {
        Ok(script) => begin(read, script),
        Err(ScriptFault::Bad) => Next::Refuses(CommandRefusal::Input(Input::Script)),
        Err(ScriptFault::WantOfMemory) => Next::WantOfMemory,
    }
}

/// What comes of the bytes of a persisted value.
fn take_value(alloc: Global, wait: JoinValueWait, bytes: &[u8]) -> Next
    requires { IsBoundedJoin wait.read.request }
    ensures leads { let read = wait.read in
        Leads result (Free (OfJson (λ v.
        Only (at_once (ByVisit (visit_to read.request read.text (plain_lines wait.script)
        (founded (checked_tree read.program) v))))) bytes.now)) }
    ensures bounded { IsBoundedNext result }
    ensures fewer { reads_left result < 1 }
{
    match from_json(alloc, bytes) {
        Ok(value) => visit(wait.read, wait.script, value),
        Err(JsonFault::BadJson) => Next::Refuses(CommandRefusal::Input(Input::Persisted)),
        Err(JsonFault::WantOfMemory) => Next::WantOfMemory,
    }
}

impl JoinWait {
    /// The name of the file that it waits for.
    pub(crate) fn name(&self) -> &Text
        ensures { result.now ≡ file_of (waiting.Join self.now) }
    {
        match self {
            JoinWait::Program(request) => &request.program,
            JoinWait::Script(wait) => &wait.request.script,
            JoinWait::Value(wait) => &wait.persisted,
        }
    }

    /// Which of its inputs the file is.
    pub(crate) fn input(&self) -> Input
        ensures { result ≡ input_of (waiting.Join self.now) }
    {
        match self {
            JoinWait::Program(_) => Input::Program,
            JoinWait::Script(_) => Input::Script,
            JoinWait::Value(_) => Input::Persisted,
        }
    }

    /// What comes of the bytes of its file.
    pub(crate) fn take(self, alloc: Global, bytes: Blob) -> Next
        requires { IsBoundedWait (waiting.Join self) }
        ensures leads { Leads result (Free (next_of (waiting.Join self) bytes)) }
        ensures bounded { IsBoundedNext result }
        ensures fewer { reads_left result < files_left (waiting.Join self) }
    {
        match self {
            JoinWait::Program(request) => take_program(alloc, request, bytes),
            JoinWait::Script(wait) => take_script(alloc, wait, bytes.bytes()),
            JoinWait::Value(wait) => take_value(alloc, wait, bytes.bytes()),
        }
    }
}
