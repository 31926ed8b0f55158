//! What comes of the files that the command `reflect` reads, but for its journal.
ghost use Rattle.std.specs.Prelude.{◌≡◌, ◌<◌, IfOk};
ghost use Rattle.command_words.specs.Bounds.{IsBoundedReflect, IsBoundedSpan};
ghost use Rattle.model_value.specs.Plain.{InBounds};
ghost use Rattle.model_value.specs.View.{plain};
ghost use Rattle.session_log.specs.Stored.{IsStored, plain_stored};
ghost use Rattle.session_journal.specs.State.{founded as founded_session};
ghost use Rattle.commands.specs.Keeping.{OfFounding, OfFoundingLog, founded_with};
ghost use Rattle.commands.specs.Verdict.{ByKeeping, Free, OfJson, OfLog, OfPersisted, OfProgram, OfReady, OfReflect, OfReflected, OfServed, OfUnkept, Only, at_once, keeping_of, reflection_of, session_id_of};
ghost use Rattle.commands.specs.Work.{IsBoundedNext, IsBoundedWait, Leads, file_of, files_left, input_of, next_of, plain_keeping, plain_source, reads_left};
ghost use Rattle.commands.specs.declared.work.Waiting.TheVariants as waiting;

use crate::opening::{Source, names_no_other, read_log};
use crate::work::{Next, Waiting};
use command_outcome::{CommandRefusal, Input, ProgramFault, read_program};
use command_reflect::{Keeping, Reflection, log_place};
use command_words::{ReflectRequest, is_address};
use model_value::Value;
use persist_json::{JsonFault, from_json};
use reflector_core::Session;
use session_log::{Log, LogFault, Stored};
use snapshot_codec::session_id;
use std::alloc::Global;
use tea_base::{Blob, SessionId, Text, WantOfMemory};

/// A reflector that has its program and its address, and waits for its persisted value.
#[derive(Drop)]
pub struct ReflectValueWait {
    pub persisted: Text,
    pub request: ReflectRequest,
    /// The program's text.
    pub text: Blob,
}

/// A reflector that has its program, its address and its persisted value, and waits for the log of the session that goes on.
#[derive(Drop)]
pub struct ReflectLogWait {
    pub from: Text,
    pub request: ReflectRequest,
    /// The session's id.
    pub id: SessionId,
}

/// A reflector whose journal is not there, and that waits for the log of the session that goes on.
#[derive(Drop)]
pub struct FoundingWait {
    pub from: Text,
    pub keeping: Keeping,
}

/// A reflector that waits for a file.
#[derive(Drop)]
pub enum ReflectWait {
    /// It has read nothing yet.
    Program(ReflectRequest),
    /// It has read its program, and has a persisted value.
    Value(ReflectValueWait),
    /// It knows its session's id, and goes on from a log.
    Log(ReflectLogWait),
    /// Its journal is to be founded with a log.
    Founding(FoundingWait),
}

/// The session that is to be reflected. The memory for its log is taken here, before anything listens.
fn reflect(alloc: Global, request: ReflectRequest, id: SessionId, opening: Session) -> Next
    requires words { IsBoundedReflect request }
    ensures leads { Leads result (Free (OfReady (reflection_of request id.0 opening.plain))) }
    ensures bounded { IsBoundedNext result }
    ensures fewer { reads_left result < 1 }
{
    match log_place(alloc, request.log) {
        Ok(log) => Next::Reflects(Reflection {
            id,
            opening,
            address: request.address,
            span: request.span,
            log,
        }),
        Err(WantOfMemory) => Next::WantOfMemory,
    }
}

/// The session whose journal is to be opened. The memory for its log is taken here, before anything listens.
fn keep(alloc: Global, request: ReflectRequest, id: SessionId, journal: Text) -> Next
    requires words { IsBoundedReflect request }
    ensures leads { Leads result (Free (Only (at_once (ByKeeping (keeping_of request id.0 journal))))) }
    ensures bounded { IsBoundedNext result }
    ensures fewer { reads_left result < 1 }
{
    match log_place(alloc, request.log) {
        Ok(log) => Next::Keeps(Keeping {
            id,
            address: request.address,
            span: request.span,
            journal,
            from: request.from,
            opening: None,
            log,
        }),
        Err(WantOfMemory) => Next::WantOfMemory,
    }
}

/// What comes of a reflector without a journal: a first session begins, or the log of the one that goes on is read.
fn begin_session(alloc: Global, mut request: ReflectRequest, id: SessionId) -> Next
    requires { IsBoundedReflect request }
    ensures leads { Leads result (Free (OfUnkept request id.0)) }
    ensures bounded { IsBoundedNext result }
    ensures fewer { reads_left result < 2 }
{
    match request.from.take() {
        Some(from) => {
            Next::Reads(Waiting::Reflect(ReflectWait::Log(ReflectLogWait { from, request, id })))
        }
        None => reflect(alloc, request, id, Session::new(alloc)),
    }
}

/// What comes of a reflector that knows its session's id: its journal is opened, or the session begins.
fn open(alloc: Global, mut request: ReflectRequest, id: SessionId) -> Next
    requires { IsBoundedReflect request }
    ensures leads { Leads result (Free (OfServed request id.0)) }
    ensures bounded { IsBoundedNext result }
    ensures fewer { reads_left result < 2 }
{
    match request.journal.take() {
        Some(journal) => keep(alloc, request, id, journal),
        None => begin_session(alloc, request, id),
    }
}

/// The journal is to be founded with this.
fn found_with(mut keeping: Keeping, stored: Stored) -> Next
    requires span { IsBoundedSpan keeping.span }
    requires stored { IsStored (plain_stored stored) }
    ensures leads { Leads result
        (Only (at_once (ByKeeping (founded_with (plain_keeping keeping) (plain_stored stored))))) }
    ensures bounded { IsBoundedNext result }
    ensures fewer { reads_left result < 1 }
{
    keeping.from = None;
    keeping.opening = Some(stored);
    Next::Keeps(keeping)
}

/// What comes of a journal that is not there and was not founded: it is founded with a first session, or with the one of a log.
pub fn found_journal(alloc: Global, mut keeping: Keeping) -> Next
    requires { IsBoundedSpan keeping.span }
    ensures leads { Leads result (OfFounding keeping.from (plain_keeping keeping)) }
    ensures bounded { IsBoundedNext result }
    ensures fewer { reads_left result < 2 }
{
    match keeping.from.take() {
        Some(from) => {
            Next::Reads(Waiting::Reflect(ReflectWait::Founding(FoundingWait { from, keeping })))
        }
        None => found_with(keeping, first_stored(alloc)),
    }
}

/// What is stored of a first session. Takes no memory.
fn first_stored(alloc: Global) -> Stored
    ensures { plain_stored result ≡ founded_session }
{
    Stored {
        log: Log::new(alloc),
        horizon: 0,
        kept: None,
    }
}

/// What comes of a reflector whose persisted value is known.
fn found(alloc: Global, request: ReflectRequest, text: &Blob, persisted: &Value) -> Next
    requires words { IsBoundedReflect request }
    requires bounds { InBounds (plain persisted.now) }
    ensures leads { Leads result (Free (OfServed request (session_id_of request.name text.now (plain persisted.now)))) }
    ensures bounded { IsBoundedNext result }
    ensures fewer { reads_left result < 2 }
{
    let id = session_id(&request.name, text.bytes(), persisted);
    open(alloc, request, id)
}

/// What comes of a reflector that has its program and its address: its persisted value is read, where it has one.
fn begin(alloc: Global, mut request: ReflectRequest, text: Blob) -> Next
    requires { IsBoundedReflect request }
    ensures leads { Leads result
        (Free (OfPersisted request.persisted (λ v. OfServed request (session_id_of request.name text v)))) }
    ensures bounded { IsBoundedNext result }
    ensures fewer { reads_left result < 3 }
{
    match request.persisted.take() {
        Some(persisted) => Next::Reads(Waiting::Reflect(ReflectWait::Value(ReflectValueWait {
            persisted,
            request,
            text,
        }))),
        None => found(alloc, request, &text, &Value::Nil),
    }
}

/// What comes of a reflector that has its program: its address is checked.
fn answer_address(alloc: Global, request: ReflectRequest, text: Blob) -> Result<Next, WantOfMemory>
    requires { IsBoundedReflect request }
    ensures leads { IfOk result (λ step. Leads step (Free (OfReflect request text))) }
    ensures bounded { IfOk result IsBoundedNext }
    ensures fewer { IfOk result (λ step. reads_left step < 3) }
{
    if !is_address(alloc, request.address.as_str())? {
        return Ok(Next::Refuses(CommandRefusal::Input(Input::Address)));
    }
    Ok(begin(alloc, request, text))
}

/// The same, by what is done next where memory is wanted.
fn take_address(alloc: Global, request: ReflectRequest, text: Blob) -> Next
    requires { IsBoundedReflect request }
    ensures leads { Leads result (Free (OfReflect request text)) }
    ensures bounded { IsBoundedNext result }
    ensures fewer { reads_left result < 3 }
{
    match answer_address(alloc, request, text) {
        Ok(next) => next,
        Err(WantOfMemory) => Next::WantOfMemory,
    }
}

/// What comes of a program's text, of which a reflection is asked.
fn take_program(alloc: Global, request: ReflectRequest, text: Blob) -> Next
    requires { IsBoundedReflect request }
    ensures leads { Leads result (Free (OfProgram (λ tree. OfReflect request text) text)) }
    ensures bounded { IsBoundedNext result }
    ensures fewer { reads_left result < 3 }
{
    match read_program(alloc, text.bytes()) {
        Ok(_) => take_address(alloc, request, text),
        Err(ProgramFault::Refused { line }) => Next::Refuses(CommandRefusal::Program { line }),
        Err(ProgramFault::WantOfMemory) => Next::WantOfMemory,
    }
}

/// What comes of the bytes of a persisted value.
fn take_value(alloc: Global, wait: ReflectValueWait, bytes: &[u8]) -> Next
    requires { IsBoundedReflect wait.request }
    ensures leads { Leads result
        (Free (OfJson (λ v. OfServed wait.request (session_id_of wait.request.name wait.text v)) bytes.now)) }
    ensures bounded { IsBoundedNext result }
    ensures fewer { reads_left result < 2 }
{
    let ReflectValueWait {
        persisted: _,
        request,
        text,
    } = wait;
    match from_json(alloc, bytes) {
        Ok(value) => found(alloc, request, &text, &value),
        Err(JsonFault::BadJson) => Next::Refuses(CommandRefusal::Input(Input::Persisted)),
        Err(JsonFault::WantOfMemory) => Next::WantOfMemory,
    }
}

/// What comes of what a log holds: it is reflected, if it is of the session.
fn reflect_log(alloc: Global, request: ReflectRequest, id: SessionId, source: Source) -> Next
    requires words { IsBoundedReflect request }
    requires stored { IsStored (plain_stored source.stored) }
    ensures leads { Leads result (Free (OfReflected request id.0 (plain_source source))) }
    ensures bounded { IsBoundedNext result }
    ensures fewer { reads_left result < 1 }
{
    if !names_no_other(source.named, &id) {
        return Next::Refuses(CommandRefusal::Input(Input::Journal));
    }
    match Session::resume(alloc, source.stored) {
        Ok(opening) => reflect(alloc, request, id, opening),
        Err(WantOfMemory) => Next::WantOfMemory,
    }
}

/// What comes of the bytes of the log.
fn take_log(alloc: Global, wait: ReflectLogWait, bytes: &[u8]) -> Next
    requires { IsBoundedReflect wait.request }
    ensures leads { Leads result (Free (OfLog (OfReflected wait.request wait.id.0) bytes.now)) }
    ensures bounded { IsBoundedNext result }
    ensures fewer { reads_left result < 1 }
{
    match read_log(alloc, bytes) {
        Ok(source) => reflect_log(alloc, wait.request, wait.id, source),
        Err(LogFault::BadLog) => Next::Refuses(CommandRefusal::Input(Input::Log)),
        Err(LogFault::WantOfMemory) => Next::WantOfMemory,
    }
}

/// What comes of what a log holds: a journal is founded with it, if it is of the session.
fn found_log(keeping: Keeping, source: Source) -> Next
    requires span { IsBoundedSpan keeping.span }
    requires stored { IsStored (plain_stored source.stored) }
    ensures leads { Leads result (OfFoundingLog (plain_keeping keeping) (plain_source source)) }
    ensures bounded { IsBoundedNext result }
    ensures fewer { reads_left result < 1 }
{
    if !names_no_other(source.named, &keeping.id) {
        return Next::Refuses(CommandRefusal::Input(Input::Journal));
    }
    found_with(keeping, source.stored)
}

/// What comes of the bytes of the log with which a journal is founded.
fn take_founding(alloc: Global, wait: FoundingWait, bytes: &[u8]) -> Next
    requires { IsBoundedSpan wait.keeping.span }
    ensures leads { Leads result (Free (OfLog (OfFoundingLog (plain_keeping wait.keeping)) bytes.now)) }
    ensures bounded { IsBoundedNext result }
    ensures fewer { reads_left result < 1 }
{
    match read_log(alloc, bytes) {
        Ok(source) => found_log(wait.keeping, source),
        Err(LogFault::BadLog) => Next::Refuses(CommandRefusal::Input(Input::Log)),
        Err(LogFault::WantOfMemory) => Next::WantOfMemory,
    }
}

impl ReflectWait {
    /// The name of the file that it waits for.
    pub(crate) fn name(&self) -> &Text
        ensures { result.now ≡ file_of (waiting.Reflect self.now) }
    {
        match self {
            ReflectWait::Program(request) => &request.program,
            ReflectWait::Value(wait) => &wait.persisted,
            ReflectWait::Log(wait) => &wait.from,
            ReflectWait::Founding(wait) => &wait.from,
        }
    }

    /// Which of its inputs the file is.
    pub(crate) fn input(&self) -> Input
        ensures { result ≡ input_of (waiting.Reflect self.now) }
    {
        match self {
            ReflectWait::Program(_) => Input::Program,
            ReflectWait::Value(_) => Input::Persisted,
            ReflectWait::Log(_) => Input::Log,
            ReflectWait::Founding(_) => Input::Log,
        }
    }

    /// What comes of the bytes of its file.
    pub(crate) fn take(self, alloc: Global, bytes: Blob) -> Next
        requires { IsBoundedWait (waiting.Reflect self) }
        ensures leads { Leads result (Free (next_of (waiting.Reflect self) bytes)) }
        ensures bounded { IsBoundedNext result }
        ensures fewer { reads_left result < files_left (waiting.Reflect self) }
    {
        match self {
            ReflectWait::Program(request) => take_program(alloc, request, bytes),
            ReflectWait::Value(wait) => take_value(alloc, wait, bytes.bytes()),
            ReflectWait::Log(wait) => take_log(alloc, wait, bytes.bytes()),
            ReflectWait::Founding(wait) => take_founding(alloc, wait, bytes.bytes()),
        }
    }
}
