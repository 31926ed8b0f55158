//! A session as it was recorded.
use model_solved::Checked;
use session_log::Log;
use tea_base::SessionId;

/// A session as it was recorded: its program, its id and its log.
#[derive(Drop)]
pub struct Recording {
    pub program: Checked,
    pub id: SessionId,
    pub log: Log,
}
