//! Whether a module fits a pattern.
ghost use Rattle.std.specs.Prelude.{◌≡◌};
ghost use Rattle.lsys_module.specs.Views.{module_name};
ghost use Rattle.lsys_walks.specs.Patterns.{fits_pattern};

use lsys_bodies::{Pattern, same_name};
use lsys_text::Name;

/// The module with this name and these parameters fits the pattern.
pub(crate) fn fits(pattern: &Pattern, name: Name, params: &[i64]) -> bool
    ensures { result ≡ fits_pattern pattern.now name params.now }
{
    same_name(pattern.name, name) && pattern.formals.len() == params.len()
}
