//! Which modules a group of rules is for.

use lsys_text::Name;

/// What the modules of a group have in common: the name, and the number of parameters.
#[derive(Clone, Copy, PartialEq, Eq, Hash)]
pub(crate) struct ModuleKey {
    pub name: Name,
    pub arity: usize,
}
