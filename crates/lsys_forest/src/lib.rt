//! A forest: nodes under one root, each with its children, its symbol, its key and the answer that it keeps.
//!
//! Changes are journaled, so that [`Forest::rollback`] gives back the forest of the last rest and [`Forest::commit`] gives
//! back what is reached no more, both at the cost of what changed. What contracts see of a forest stands in
//! `specs/Groves.antt`, and its levels in `specs/Rows.antt`.
#![tactic(auto)]

mod around;
mod forest;
mod journal;
mod kept;
mod law;
mod link;
mod lists;
mod loose;
mod node;
mod note;
mod pairs;
mod runs;
mod seen;
mod stock;
mod sweep;
mod table;
mod undo;
mod walk;

pub use around::Around;
pub use forest::Forest;
pub use kept::Kept;
pub use law::law_of_spots;
pub use node::NodeId;
