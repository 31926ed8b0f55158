//! The command `stamp`: a script's requests to a session, its replies, and the session as it is stored after them.
ghost use Rattle.std.specs.Prelude.{◌≡◌, ◌<◌, IfOk, Some};
ghost use Rattle.command_outcome.specs.Outcome.{steps_of};
ghost use Rattle.command_stamp.specs.Script.{script_of};
ghost use Rattle.reflector_core.specs.Stored.{session_of};
ghost use Rattle.session_log.specs.Stored.{IsStored, plain_stored};
ghost use Rattle.commands.specs.Verdict.{Free, OfLog, OfScript, Only, fine, stamp_verdict};
ghost use Rattle.commands.specs.Work.{IsBoundedNext, IsBoundedWait, Leads, file_of, files_left, input_of, next_of, reads_left};
ghost use Rattle.commands.specs.declared.work.Waiting.TheVariants as waiting;

use crate::opening::read_log;
use crate::work::{Next, Waiting};
use command_outcome::{CommandRefusal, Input, Outcome};
use command_stamp::{log_files, read_script, text};
use reflector_core::{Requests, Session, play};
use session_log::{LogFault, Stored};
use std::alloc::Global;
use tea_base::{Blob, Text, WantOfMemory};

/// A stamp that has read its script, and waits for the log of the session that goes on.
#[derive(Drop)]
pub struct StampLogWait {
    pub from: Text,
    pub requests: Requests,
    pub log: Option<Text>,
}

/// A stamp that waits for a file.
#[derive(Drop)]
pub enum StampWait {
    /// It has read nothing yet.
    Script {
        script: Text,
        from: Option<Text>,
        log: Option<Text>,
    },
    /// It has read its script, and goes on from a log.
    Log(StampLogWait),
}

/// What a stamp puts and prints: the session as it is stored, and its replies.
fn outcome_of(
    alloc: Global,
    opening: Session,
    requests: &Requests,
    log: Option<Text>,
) -> Result<Outcome, WantOfMemory>
    ensures { IfOk result (λ outcome. fine (steps_of outcome.files outcome.text)
        ≡ stamp_verdict opening.plain log requests.now) }
{
    let (session, replies) = play(alloc, opening, requests.as_slice())?;
    let text = text(alloc, replies.as_slice())?;
    let files = log_files(alloc, log, &session)?;
    Ok(Outcome {
        files,
        text: Blob::from_vec(text.into_bytes()),
    })
}

/// What comes of the requests to this session.
fn answer(alloc: Global, opening: Session, requests: &Requests, log: Option<Text>) -> Next
    ensures leads { Leads result (Free (Only (stamp_verdict opening.plain log requests.now))) }
    ensures bounded { IsBoundedNext result }
    ensures fewer { reads_left result < 1 }
{
    match outcome_of(alloc, opening, requests, log) {
        Ok(outcome) => Next::Gives(outcome),
        Err(WantOfMemory) => Next::WantOfMemory,
    }
}

/// What comes of the requests to the session that goes on from what was stored.
fn resume(alloc: Global, stored: Stored, requests: &Requests, log: Option<Text>) -> Next
    requires { IsStored (plain_stored stored) }
    ensures leads { Leads result (Free (Only (stamp_verdict (session_of (plain_stored stored)) log requests.now))) }
    ensures bounded { IsBoundedNext result }
    ensures fewer { reads_left result < 1 }
{
    match Session::resume(alloc, stored) {
        Ok(opening) => answer(alloc, opening, requests, log),
        Err(WantOfMemory) => Next::WantOfMemory,
    }
}

/// What comes of a script's requests: a first session answers them, or the log of the session that goes on is read.
fn begin(alloc: Global, from: Option<Text>, log: Option<Text>, requests: Requests) -> Next
    ensures leads { Leads result (Free (OfScript from log (Some requests))) }
    ensures bounded { IsBoundedNext result }
    ensures fewer { reads_left result < 2 }
{
    match from {
        Some(from) => Next::Reads(Waiting::Stamp(StampWait::Log(StampLogWait {
            from,
            requests,
            log,
        }))),
        None => answer(alloc, Session::new(alloc), &requests, log),
    }
}

/// `stamp SCRIPT [--from LOG] [--log FILE]`, once its script was read.
fn stamp(alloc: Global, from: Option<Text>, log: Option<Text>, script: &[u8]) -> Next
    ensures leads { Leads result (Free (OfScript from log (script_of script.now))) }
    ensures bounded { IsBoundedNext result }
    ensures fewer { reads_left result < 2 }
{
    match read_script(alloc, script) {
        Ok(Some(requests)) => begin(alloc, from, log, requests),
        Ok(None) => Next::Refuses(CommandRefusal::Input(Input::Script)),
        Err(WantOfMemory) => Next::WantOfMemory,
    }
}

/// What comes of the bytes of the log.
fn take_log(alloc: Global, wait: StampLogWait, bytes: &[u8]) -> Next
    ensures leads { Leads result
        (Free (OfLog (λ source. Only (stamp_verdict (session_of source.stored) wait.log wait.requests)) bytes.now)) }
    ensures bounded { IsBoundedNext result }
    ensures fewer { reads_left result < 1 }
{
    let StampLogWait {
        from: _,
        requests,
        log,
    } = wait;
    match read_log(alloc, bytes) {
        Ok(source) => resume(alloc, source.stored, &requests, log),
        Err(LogFault::BadLog) => Next::Refuses(CommandRefusal::Input(Input::Log)),
        Err(LogFault::WantOfMemory) => Next::WantOfMemory,
    }
}

impl StampWait {
    /// The name of the file that it waits for.
    pub(crate) fn name(&self) -> &Text
        ensures { result.now ≡ file_of (waiting.Stamp self.now) }
    {
        match self {
            StampWait::Script { script, .. } => script,
            StampWait::Log(wait) => &wait.from,
        }
    }

    /// Which of its inputs the file is.
    pub(crate) fn input(&self) -> Input
        ensures { result ≡ input_of (waiting.Stamp self.now) }
    {
        match self {
            StampWait::Script { .. } => Input::Script,
            StampWait::Log(_) => Input::Log,
        }
    }

    /// What comes of the bytes of its file.
    pub(crate) fn take(self, alloc: Global, bytes: Blob) -> Next
        requires { IsBoundedWait (waiting.Stamp self) }
        ensures leads { Leads result (Free (next_of (waiting.Stamp self) bytes)) }
        ensures bounded { IsBoundedNext result }
        ensures fewer { reads_left result < files_left (waiting.Stamp self) }
    {
        match self {
            StampWait::Script {
                script: _script,
                from,
                log,
            } => stamp(alloc, from, log, bytes.bytes()),
            StampWait::Log(wait) => take_log(alloc, wait, bytes.bytes()),
        }
    }
}
