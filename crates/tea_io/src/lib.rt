//! What the program sees of the outside: files and a sink, a clock, links and a net, and a gate;
//! what they tell, how often they failed, and their forms in memory.
#![tactic(auto)]

mod calls;
mod clock;
mod files;
mod gate;
mod link;
mod mem_files;
mod mem_link;
mod mem_net;
mod mem_sink;
mod net;
mod no_net;
mod sink;

pub use clock::{Clock, FixedClock, ListClock, Times};
pub use files::{FileCall, FileFault, Files};
pub use gate::{Gate, OpenGate};
pub use link::{Heard, Link, LinkFault, MOST_QUIETS};
pub use mem_files::{MemFiles, NamedBlob, NamedBlobs};
pub use mem_link::{Blobs, MemLink, MemLinks};
pub use mem_net::MemNet;
pub use mem_sink::MemSink;
pub use net::{Net, NetCall, NetFault};
pub use no_net::{NoLink, NoNet};
pub use sink::{Sink, SinkFault};
