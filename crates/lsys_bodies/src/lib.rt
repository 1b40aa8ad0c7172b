//! Rules whole: how they are written, their bodies, which copies of a system share, and what refuses a rule by itself: an unknown
//! name, a formal that repeats, a limit that is passed; each with the token at which it does.
//!
//! `FormalNames::of` takes memory, once for a rule; the three checks take none. All are linear in the rule's tokens but
//! for the logarithm of a search among its formals.
#![tactic(auto)]

mod access;
mod body;
mod building;
mod constant;
mod counter;
mod counting;
mod filter;
mod formals;
mod many;
mod patterns;
mod rule;
mod same;
mod unknown;

pub use body::{Body, Item, Pattern, SharedBody, Template};
pub use building::{build_hom_rule, build_rule};
pub use filter::Filter;
pub use formals::FormalNames;
pub use many::first_many;
pub use rule::{HomRule, Rule};
pub use same::same_name;
pub use unknown::unknown_name;
