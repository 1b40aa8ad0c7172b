//! Names among names, and the order of words.
ghost use Rattle.std.specs.Prelude.{◌≡◌, map};
ghost use Rattle.lsys_spec.specs.Meaning.{ignores};
ghost use Rattle.lsys_spec.specs.Systems.{comes_before};
ghost use Rattle.lsys_module.specs.Views.{module_name};

use lsys_bodies::same_name;
use lsys_text::{Name, Word};

// Whether a name is among these.
pub(crate) fn is_among(names: &[Name], name: Name) -> bool
    ensures { result ≡ ignores (map module_name names.now) (module_name name) }
{
    names.iter().any(|other| same_name(*other, name))
}

// Whether a word comes before another one in the order of their bytes.
pub(crate) fn comes_before(one: Word, other: Word) -> bool
    ensures { result ≡ comes_before one other }
{
    one.text().as_bytes() < other.text().as_bytes()
}
