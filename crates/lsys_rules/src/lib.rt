//! Systems, the commands that edit them, and what an edit makes of a system.
#![tactic(auto)]

mod changes;
mod checking;
mod command;
mod command_faults;
mod edit;
mod edit_faults;
mod faults;
mod groups;
mod hom_table;
mod labelled;
mod limits;
mod names;
mod own_list;
mod own_table;
mod parts;
mod refusal;
mod rule_faults;
mod rule_table;
mod script;
mod shared_group;
mod show_rules;
mod system;

pub use checking::check;
pub use command::{Command, parse_command};
pub use edit::apply;
pub use hom_table::HomTable;
pub use lsys_bodies::{Body, Filter, HomRule, Item, Pattern, Rule, SharedBody, Template};
pub use lsys_reading::{CommandKind, LatticeName as LatticeKind, Lineage, ListKind};
pub use own_list::OwnList;
pub use own_table::OwnTable;
pub use refusal::Refusal;
pub use rule_table::RuleTable;
pub use script::show;
pub use shared_group::SharedGroup;
pub use system::System;
