//! The pass in place: the levels of a forest, which an edit repairs one after the other.
//!
//! What a contract sees of a pass, and what holds of it between calls, stands in `specs/Passes.antt`; what its calls do in
//! `specs/Moves.antt`.
//!
//! An edit is worked on by lists of nodes. They have one name each, here and in the crates below. Of the level that was made last:
//!
//! | list | the nodes that .. |
//! |---|---|
//! | `came`, `gone`, `changed` | are new on the level; are no more on it; have another symbol than at the last rest |
//! | `turned` | stayed, but stand beside others, or have another mate |
//! | `bare` | had an answer, and have no question any more |
//! | `pending` | are still to be asked |
//!
//! And of all levels so far, until the edit is kept or abandoned:
//!
//! | list | the nodes that .. |
//! |---|---|
//! | `renewed` | have another answer than at the last rest (`born` counts those that had none then) |
//! | `dropped` | had an answer, and are gone or have none any more |
//! | `moved` | came or turned: their seats are set anew when the edit is kept |
//!
//! A *seat* is what a node stood beside when the last edit was kept: its neighbours and its mate then, where only they are asked for.
#![tactic(auto)]

mod asked;
mod beginning;
mod derivation;
mod edit;
mod ending;
mod fault;
mod keep;
mod key;
mod level;
mod listing;
mod next_level;
mod outcome;
mod parents;
mod pass;
mod posed;
mod queue;
mod read;
mod refusal;
mod rest;
mod room;
mod seating;
mod sizes;
mod state;
mod symbols;
mod turning;
mod work;

pub use derivation::{ForestDerivation, Held};
pub use fault::Faulted;
pub use lsys_reads::KeptAnswer;
pub use pass::Pass;
pub use sizes::Size;
pub use state::PassState;
