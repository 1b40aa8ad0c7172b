//! Scripts with their replies, for the tests of all that answers scripts.
#![tactic(auto)]

mod drawing;
mod editing;
mod generated;
mod growing;
mod limits;
mod refusing;
mod stepping;
mod versioned;

pub use drawing::{bounds_and_places, pictures};
pub use editing::edits;
pub use generated::{long_lines, script_of_images};
pub use growing::growths;
pub use limits::{algae, limited};
pub use refusing::{hostile_lines, refusals};
pub use stepping::steps;
pub use versioned::versions;

/// A script, and what is written for it.
#[derive(Clone, Copy)]
pub struct Script {
    /// What it shows.
    pub name: &'static str,
    /// Its lines.
    pub text: &'static str,
    /// The replies to them.
    pub replies: &'static str,
}
