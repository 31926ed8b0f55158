//! A command at work: it waits for a file, or it has come to its end.
ghost use Rattle.std.specs.Prelude.{◌≡◌, ◌<◌};
ghost use Rattle.std.specs.Option.{IfSome};
ghost use Rattle.command_words.specs.Bounds.{IsWithinBounds};
ghost use Rattle.run_steps.specs.Steps.{Loads};
ghost use Rattle.commands.specs.Verdict.{Free, OfWords, Verdict, before};
ghost use Rattle.commands.specs.Work.{ComesNext, IsBoundedNext, IsBoundedWait, Leads, Remains, ask_of, files_left, input_of, next_of, reads_left};
ghost use Rattle.command_outcome.specs.declared.outcome.CommandRefusal.TheVariants as refusal;
ghost use Rattle.commands.specs.declared.work.Next.TheVariants as next;

use crate::check::check;
use crate::hosting::HostWait;
use crate::hub::hub;
use crate::inspection::InspectWait;
use crate::live::{LiveStart, LiveWait};
use crate::recording::ReplayWait;
use crate::reflection::ReflectWait;
use crate::stamp::StampWait;
use crate::tracing::TraceWait;
use crate::visit::{JoinWait, VisitRequest};
use crate::votes::votes;
use command_host::Hosting;
use command_outcome::{CommandRefusal, Input, Outcome};
use command_reflect::{Keeping, Reflection};
use command_words::{Command, DrillRequest};
use model_lang::MOST_PROGRAM_BYTES;
use persist_json::MOST_JSON;
use std::alloc::Global;
use tea_base::{Blob, MOST_SNAPSHOT, Text};

/// A command that waits for the bytes of a file.
#[derive(Drop)]
pub enum Waiting {
    Stamp(StampWait),
    /// A check that has read nothing yet.
    Check { program: Text },
    Replay(ReplayWait),
    Inspect(InspectWait),
    Trace(TraceWait),
    /// A count of votes that has read nothing yet.
    Votes { log: Text },
    /// A hub that has read nothing yet.
    Hub { script: Text, logs: Option<Text> },
    Join(JoinWait),
    Live(LiveWait),
    Reflect(ReflectWait),
    Host(HostWait),
}

/// What a command does next.
#[derive(Drop)]
pub enum Next {
    /// It reads a file.
    Reads(Waiting),
    /// It is refused.
    Refuses(CommandRefusal),
    /// It puts files and prints a text.
    Gives(Outcome),
    /// It goes on as a view's run.
    Visits(VisitRequest),
    /// It goes on as a live view's run.
    Lives(LiveStart),
    /// It goes on as a reflector's run.
    Reflects(Reflection),
    /// Its journal is to be opened.
    Keeps(Keeping),
    /// It goes on as a host's run.
    Hosts(Hosting),
    /// It goes on as a drill.
    Drills(DrillRequest),
    WantOfMemory,
}

/// The most bytes of a script.
const MOST_SCRIPT: u64 = 16_777_216;

/// The most bytes of a log.
const MOST_LOG: u64 = 268_435_456;

/// The most bytes of queries.
const MOST_QUERIES: u64 = 65_536;

/// The most bytes of a configuration.
const MOST_CONFIG: u64 = 65_536;

impl Next {
    /// What a command does first, or the refusal of words that ask for none.
    pub fn of_command(command: Option<Command>) -> Next
        requires { IfSome command IsWithinBounds }
        ensures leads { Leads result (OfWords command) }
        ensures bounded { IsBoundedNext result }
    {
        match command {
            Some(Command::Stamp { script, from, log }) => {
                Next::Reads(Waiting::Stamp(StampWait::Script { script, from, log }))
            }
            Some(Command::Check { program }) => Next::Reads(Waiting::Check { program }),
            Some(Command::Replay(request)) => {
                Next::Reads(Waiting::Replay(ReplayWait::Program(request)))
            }
            Some(Command::Inspect(request)) => {
                Next::Reads(Waiting::Inspect(InspectWait::Program(request)))
            }
            Some(Command::Trace(request)) => {
                Next::Reads(Waiting::Trace(TraceWait::Program(request)))
            }
            Some(Command::Votes { log }) => Next::Reads(Waiting::Votes { log }),
            Some(Command::Hub { script, logs }) => Next::Reads(Waiting::Hub { script, logs }),
            Some(Command::Join(request)) => Next::Reads(Waiting::Join(JoinWait::Program(request))),
            Some(Command::Live(request)) => Next::Reads(Waiting::Live(LiveWait::Program(request))),
            Some(Command::Reflect(request)) => {
                Next::Reads(Waiting::Reflect(ReflectWait::Program(request)))
            }
            Some(Command::Host(request)) => Next::Reads(Waiting::Host(HostWait::Config(request))),
            Some(Command::Drill(request)) => Next::Drills(request),
            None => Next::Refuses(CommandRefusal::Usage),
        }
    }
}

impl Waiting {
    /// The name of the file that it waits for.
    pub fn name(&self) -> &Text
        ensures { result.now ≡ (ask_of self.now).name }
    {
        match self {
            Waiting::Stamp(wait) => wait.name(),
            Waiting::Check { program } => program,
            Waiting::Replay(wait) => wait.name(),
            Waiting::Inspect(wait) => wait.name(),
            Waiting::Trace(wait) => wait.name(),
            Waiting::Votes { log } => log,
            Waiting::Hub { script, .. } => script,
            Waiting::Join(wait) => wait.name(),
            Waiting::Live(wait) => wait.name(),
            Waiting::Reflect(wait) => wait.name(),
            Waiting::Host(wait) => wait.name(),
        }
    }

    /// Which of its inputs the file is.
    pub fn input(&self) -> Input
        ensures { result ≡ input_of self.now }
    {
        match self {
            Waiting::Stamp(wait) => wait.input(),
            Waiting::Check { .. } => Input::Program,
            Waiting::Replay(wait) => wait.input(),
            Waiting::Inspect(wait) => wait.input(),
            Waiting::Trace(wait) => wait.input(),
            Waiting::Votes { .. } => Input::Log,
            Waiting::Hub { .. } => Input::Script,
            Waiting::Join(wait) => wait.input(),
            Waiting::Live(wait) => wait.input(),
            Waiting::Reflect(wait) => wait.input(),
            Waiting::Host(wait) => wait.input(),
        }
    }

    /// How many bytes it may have at most.
    pub fn limit(&self) -> u64
        ensures { result ≡ (ask_of self.now).limit }
    {
        match self.input() {
            Input::Script => MOST_SCRIPT,
            Input::Program => MOST_PROGRAM_BYTES as u64,
            Input::Log => MOST_LOG,
            Input::Snapshot => MOST_SNAPSHOT as u64,
            Input::Persisted => MOST_JSON as u64,
            Input::Queries => MOST_QUERIES,
            Input::Config => MOST_CONFIG,
            Input::Time => 0,
            Input::Address => 0,
            Input::Every => 0,
            Input::Journal => 0,
        }
    }

    /// What comes of the bytes of its file.
    fn take(self, alloc: Global, bytes: Blob) -> Next
        requires { IsBoundedWait self }
        ensures leads { Leads result (Free (next_of self bytes)) }
        ensures bounded { IsBoundedNext result }
        ensures fewer { reads_left result < files_left self }
    {
        match self {
            Waiting::Stamp(wait) => wait.take(alloc, bytes),
            Waiting::Check { program: _program } => check(alloc, bytes.bytes()),
            Waiting::Replay(wait) => wait.take(alloc, bytes),
            Waiting::Inspect(wait) => wait.take(alloc, bytes),
            Waiting::Trace(wait) => wait.take(alloc, bytes),
            Waiting::Votes { log: _log } => votes(alloc, bytes.bytes()),
            Waiting::Hub {
                script: _script,
                logs,
            } => hub(alloc, logs, bytes.bytes()),
            Waiting::Join(wait) => wait.take(alloc, bytes),
            Waiting::Live(wait) => wait.take(alloc, bytes),
            Waiting::Reflect(wait) => wait.take(alloc, bytes),
            Waiting::Host(wait) => wait.take(alloc, bytes),
        }
    }

    /// What comes of a file that is above its limit.
    fn refuse(self) -> Next
        ensures { result ≡ next.Refuses (refusal.Input (input_of self)) }
    {
        let input = self.input();
        drop(self); // for the prover
        Next::Refuses(CommandRefusal::Input(input))
    }

    /// Goes on with the file's bytes, or with none where it is above its limit.
    pub fn hand(self, alloc: Global, given: Option<Blob>) -> Next
        requires { IsBoundedWait self }
        ensures leads { (rest : Verdict) → ComesNext result rest
            → Remains self (before (Loads (ask_of self) given) rest) }
        ensures bounded { IsBoundedNext result }
        ensures fewer { reads_left result < files_left self }
    {
        match given {
            Some(bytes) => self.take(alloc, bytes),
            None => self.refuse(),
        }
    }
}
