//! Parallel rewriting by parts: what a module is replaced by, what a cut leaves of a string, and why a derivation is
//! refused.
#![tactic(auto)]

mod count;
mod cutting;
mod filling;
mod refusal;

pub use count::EditCount;
pub use cutting::{cut, next_cutting, stays};
pub use filling::{fill, fill_into, fill_template};
pub use refusal::{DeriveRefusal, FaultKind, FillRefusal};
