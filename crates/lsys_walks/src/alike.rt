//! Whether the same was read.
ghost use Rattle.std.specs.Prelude.{◌≡◌, ◌↔◌, IsTrue};
ghost use Rattle.lsys_module.specs.Views.{module_name};
ghost use Rattle.lsys_walks.specs.Views.{noted_of};

use crate::entry::{Entry, EntryKind};
use lsys_text::Name;

/// The two names are the same, as names of modules.
fn is_named_alike(one: Name, other: Name) -> bool
    ensures { IsTrue result ↔ (module_name one ≡ module_name other) }
{
    one == other
}

/// The kinds, the marks, the tags and the modules are the same; what a kind doesn't carry isn't compared.
pub(crate) fn is_alike(one: &Entry, ones: &[i64], other: &Entry, others: &[i64]) -> bool
    ensures { IsTrue result ↔ (noted_of one.now ones.now ≡ noted_of other.now others.now) }
{
    if one.kind() != other.kind()
        || one.rule() != other.rule()
        || one.depth() != other.depth()
        || one.tag() != other.tag()
    {
        return false;
    }
    match one.kind() {
        EntryKind::Out => true,
        EntryKind::Branch => one.mate() == other.mate(),
        _ => is_named_alike(one.name(), other.name()) && ones == others,
    }
}
