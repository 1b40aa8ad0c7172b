//! Laws above the definitions: what ties them together, and what would notice a change of them; and what an edit disturbs, on which
//! a pass stands that repairs the levels of an old derivation one after the other.
//!
//! The functions here have empty bodies: the contract is a law about the definitions of `lsys_syntax` and `lsys_spec`.
//! `specs/` has what the laws speak of besides, and examples that the checker computes.
#![tactic(auto)]

pub mod candidates;
pub mod children;
pub mod counts;
pub mod edits;
pub mod faults;
pub mod mates;
pub mod needs;
pub mod nodes;
pub mod pictures;
pub mod replies;
pub mod scripts;
pub mod seams;
pub mod seats;
mod seeds;
pub mod sessions;
pub mod strings;

pub use seeds::{law_of_plain_seeds, law_of_seeds};
