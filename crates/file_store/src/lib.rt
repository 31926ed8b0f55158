//! Files of the system that grow at their end, and are made safe. They tell no content, only how often a call was not done.
#![tactic(auto)]

mod counting;
mod laws;
mod opening;
mod placing;
mod signs;
mod store;
mod stores;

pub use laws::file_store_crosses_threads;
pub use placing::{look_beside, put_over};
pub use signs::FileSigns;
pub use store::FileStore;
pub use stores::FileStores;
