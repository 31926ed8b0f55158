//! Shares of a net, which give links to threads beside each other, and what stops these threads; and their forms in memory.
#![tactic(auto)]

mod calls;
mod file_stop;
mod list_stop;
mod mem_share;
mod mem_shared_net;
mod mem_signs;
mod plan;
mod returned;
mod share;
mod shared_net;
mod signs;
mod stop;

pub use file_stop::FileStop;
pub use list_stop::{Answers, ListStop};
pub use mem_share::MemShare;
pub use mem_shared_net::MemSharedNet;
pub use mem_signs::MemSigns;
pub use plan::{SharePlan, SharePlans};
pub use returned::Returned;
pub use share::Share;
pub use shared_net::SharedNet;
pub use signs::Signs;
pub use stop::Stop;
