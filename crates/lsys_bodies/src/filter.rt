//! What contexts pass over.
ghost use Rattle.std.specs.Prelude.{◌≡◌, map};
ghost use Rattle.lsys_spec.specs.Meaning.{ignored_by, ignores};
ghost use Rattle.lsys_module.specs.Views.{module_name};
ghost use Rattle.lsys_bodies.specs.Filters.{filter_of};

use crate::same::same_name;
use lsys_reading::ListKind;
use lsys_text::Name;

/// The names by which contexts pass over modules of a level: those that a table ignores, or those that it considers.
#[derive(Clone, Copy)]
pub struct Filter<'a> {
    pub kind: ListKind,
    pub names: &'a [Name],
}

impl Filter<'_> {
    /// Whether contexts pass over modules of this name: it is one of the names to ignore, or none of those to consider.
    pub fn ignores(&self, name: Name) -> bool
        ensures { result ≡ ignored_by (filter_of self.now) (module_name name) }
    {
        let listed = is_among(self.names, name);
        match self.kind {
            ListKind::Ignore => listed,
            ListKind::Consider => !listed,
        }
    }
}

// The name is one of these.
fn is_among(names: &[Name], name: Name) -> bool
    ensures { result ≡ ignores (map module_name names.now) (module_name name) }
{
    names.iter().any(|other| same_name(*other, name))
}
