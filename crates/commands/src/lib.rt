//! The commands as functions: from the bytes of the files that a command reads to what it puts and prints, or to its one
//! refusal. No file and no output is touched here.
//!
//! [`Next::of_command`] begins the work of a command that was read, and [`Waiting::hand`] goes on with the bytes of each file that it waits for,
//! until it is refused, or gives what it puts and prints, or goes on as a view's run, a live view's, a reflector's, a host's, or a drill.
//!
//! The words of commands stand in `command_words`, what comes of them in `command_outcome`, and what each of them gives in a crate of its own:
//! `command_stamp`, `command_replay`, `command_inspect`, `command_trace`, `command_votes`, `command_hub`, `command_reflect`, `command_host` and
//! `command_drill`.
#![tactic(auto)]

mod check;
mod hosting;
mod hub;
mod inspection;
mod laws;
mod live;
mod opening;
mod recording;
mod reflection;
mod stamp;
mod tracing;
mod visit;
mod votes;
mod work;

pub use hosting::{HostProgramWait, HostWait, ReadProgram, ReadPrograms};
pub use inspection::{InspectLogWait, InspectValueWait, InspectWait, QueriesWait, ReadInspection};
pub use laws::{logs_tell_their_events, one_verdict, snapshots_agree, some_verdict};
pub use live::{LiveRead, LiveStart, LiveValueWait, LiveWait};
pub use recording::{LogWait, ReadReplay, ReplayValueWait, ReplayWait, SnapshotWait};
pub use reflection::{FoundingWait, ReflectLogWait, ReflectValueWait, ReflectWait, found_journal};
pub use stamp::{StampLogWait, StampWait};
pub use tracing::{ReadTrace, TraceLogWait, TraceValueWait, TraceWait};
pub use visit::{JoinValueWait, JoinWait, ScriptWait, VisitRequest};
pub use work::{Next, Waiting};
