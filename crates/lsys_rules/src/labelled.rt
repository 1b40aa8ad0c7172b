//! Rules looked for by label.
ghost use Rattle.std.specs.Prelude.{◌≡◌, map, bytes_eq};
ghost use Rattle.lsys_spec.specs.Systems.{any};
ghost use Rattle.lsys_bodies.specs.Views.{as_production, homomorphism_of};

use lsys_bodies::{HomRule, Rule};
use lsys_text::Word;

// Whether some production has this label.
pub(crate) fn has_rule(rules: &[Rule], label: Word) -> bool
    ensures { result ≡ any (λ q. bytes_eq q.label label) (map as_production rules.now) }
{
    rules.iter().any(|rule| rule.label == label)
}

// Whether some rule of the homomorphism has this label.
pub(crate) fn has_hom_rule(rules: &[HomRule], label: Word) -> bool
    ensures { result ≡ any (λ h. bytes_eq h.label label) (map homomorphism_of rules.now) }
{
    rules.iter().any(|rule| rule.label == label)
}
