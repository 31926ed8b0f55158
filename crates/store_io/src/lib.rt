//! One file that grows at its end, and that an end of the program may tear: what it tells, and its forms in memory.
#![tactic(auto)]

mod blown;
mod calls;
mod laws;
mod mem_store;
mod mem_stores;
mod store;
mod stores;

pub use blown::Blown;
pub use laws::a_kill_leaves_what_is_safe;
pub use mem_store::MemStore;
pub use mem_stores::MemStores;
pub use store::{Store, StoreFault};
pub use stores::{Opened, Stores};
