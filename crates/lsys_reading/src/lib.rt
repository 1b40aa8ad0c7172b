//! The lines of a script, read as commands with the exact place of what refuses them.
#![tactic(auto)]

mod command;
mod commands;
mod form;
mod formals;
mod glyph;
mod head;
mod heading;
mod images;
mod line_tokens;
mod parse;
mod parts;
mod patterns;
mod places;
mod refusal;
mod rule;
mod span;
mod word;
mod words;

pub use command::{CommandKind, ReadCommand};
pub use images::{ImageModule, ImageSymbol};
pub use parse::parse_command;
pub use parts::{CommandParts, LabeledRule, LatticeName, Lineage, ListKind, OwnNames};
pub use patterns::{PatternModule, PatternSymbol};
pub use refusal::ReadingRefusal;
pub use rule::RuleLine;
pub use span::ExprSpan;
