//! The children of a level of a forest: what the successors of the level above want, each with its number and its key, matched
//! by their numbers with the children that are there, counted before anything changes, and made; and the law of the next level:
//! where the children of the nodes are those that are wanted, the nodes are the levels up to t + 1.
#![tactic(auto)]

mod anew;
mod births;
mod brood;
mod changes;
mod child;
mod copied;
mod count;
mod few;
mod first;
mod law;
mod listing;
mod make;
mod need;
mod number;
mod numbers;
mod opens;
mod parent;
mod renew;
mod source;
mod walk;
mod wanted;

pub use brood::Brood;
pub use changes::Changes;
pub use count::{ChildCount, count_children};
pub use first::{count_first, make_first};
pub use law::law_of_made_levels;
pub use listing::list_level;
pub use make::make_children;
pub use need::Need;
pub use opens::is_open;
pub use parent::Parent;
pub use walk::walk_parents;
pub use wanted::Wanted;
