//! Expressions of rules: how far tokens are one, read from tokens into a tree, and evaluated.
#![tactic(auto)]

mod arith;
mod build;
mod constant;
mod evaluation;
mod expr;
mod frames;
mod levels;
mod names;
mod operators;
mod roles;
mod scan;
mod tree;

pub use arith::Arith;
pub use build::build_expr;
pub use evaluation::{eval, holds};
pub use expr::{Expr, same_expr};
pub use names::{check_names, is_formal};
pub use scan::scan_expr;
