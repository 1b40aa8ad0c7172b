//! Who has to be asked on a level of a forest that is being repaired, and what differs on it and below it.
//!
//! A node's question may be another one than before where the node does not stand on the level as it stood, where one that
//! its old answer read does not, or where its module has other rules. The first are found among the nodes that were looked
//! at, by their seats, and beside those whose symbol changed; the second by who read what. So no level is walked where the
//! rules are the same. What is known of such a level stands in `specs/Repairs.antt` and `specs/Found.antt`, and
//! [`law_of_candidates`] says which of its nodes they are.
//!
//! What differs on a level is its [`Front`]: which nodes came, which are gone, which have another symbol or lost their answer,
//! and which turned. It tells whose children may be others, and with what became of these children it tells the front of the
//! next level. A last level has neither answers nor children: [`end_level`] takes them, and [`drop_below`] those after it.
#![tactic(auto)]

mod asks;
mod candidates;
mod changes;
mod ends;
mod filters;
mod finds;
mod first;
mod front;
mod gather;
mod looks;
mod lost;
mod module_key;
mod next;
mod order;
mod others;
mod parents;
mod questioned;
mod turn;

pub use asks::Found;
pub use candidates::law_of_candidates;
pub use changes::LevelChanges;
pub use ends::{add_answered, add_children, drop_below, end_level};
pub use front::Front;
pub use lost::law_of_forests;
pub use others::{LevelRules, add_others};
pub use parents::{any_opens, count_kids};
pub use questioned::has_question;
