//! Which rule is chosen.
use lsys_rewrite::FaultKind;

/// The choice among the rules of a group.
#[derive(Clone, Copy, Drop)]
pub enum Choice {
    /// None applies, or none is picked.
    NoRule,
    /// The rule at this place of the group.
    Chosen(u8),
    /// What the fault is.
    Failed(FaultKind),
}
