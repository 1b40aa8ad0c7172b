//! What a derivation means: the definitions that the contracts of the crates above cite.
//!
//! They stand in `specs/`. The functions here have empty bodies: the contract is a law about the definitions.
#![tactic(auto)]

pub mod costs;
pub mod derivations;
pub mod draws;
pub mod former;
pub mod lattices;
pub mod levels;
pub mod numbers;
pub mod questions;
pub mod replies;
pub mod shown;
