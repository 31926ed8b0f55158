//! What has come of a drill.
use reflector_core::Session;
use replica::Replica;
use tea_base::List;

/// Replicas, by their views.
pub type Replicas = List<Replica>;

/// What has come of a drill.
#[derive(Drop)]
pub struct DrillReport {
    /// The session, as it was closed.
    pub session: Session,
    /// The replica of each view, from view 1 on.
    pub replicas: Replicas,
    /// The field `total` of Root in the world of view 1.
    pub total: i64,
    /// How many views have the snapshot of view 1.
    pub agree: u32,
}
