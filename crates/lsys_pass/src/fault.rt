//! Faults of a level.

use lsys_forest::NodeId;
use lsys_rewrite::FaultKind;

/// A node whose module can't be replaced.
#[derive(Clone, Copy, Drop)]
pub struct Faulted {
    pub node: NodeId,
    pub kind: FaultKind,
}
