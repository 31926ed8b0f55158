//! A view while it runs.
use model_solved::Checked;
use replica::Replica;
use std::alloc::Global;
use std::sync::Arc;
use tea_base::SessionId;
use view_bridge::ViewTopics;

/// A view while it runs: its program and its session, its number, its replica, how many events it published, what it watches, how often it
/// heard its link since it sent a frame, and how often the link was quiet in a row.
#[derive(Drop)]
pub struct Watcher {
    pub alloc: Global,
    pub program: Arc<Checked, Global>,
    pub id: SessionId,
    pub view: u32,
    pub replica: Replica,
    pub published: u32,
    pub topics: ViewTopics,
    pub receives: u32,
    pub quiets: u32,
}
