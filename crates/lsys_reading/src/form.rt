//! The two forms of rule.
ghost use Rattle.std.specs.Prelude.{◌≡◌};
ghost use Rattle.lsys_syntax.specs.RuleMachine.{at_first};
ghost use Rattle.lsys_reading.specs.Heads.{form_in, takes_left, takes_right, takes_weight};
ghost use Rattle.lsys_reading.specs.Patterns.{IsSection};

use crate::glyph::RuleGlyph;
use crate::patterns::Section;

/// The form of a rule. A homomorphism rule has no contexts, no weight and no cut.
#[derive(Clone, Copy, PartialEq, Eq, Debug)]
pub(crate) enum Form {
    Production,
    Homomorphism,
}

impl Form {
    // What a rule begins with.
    pub(crate) fn first_section(self) -> Section
        ensures { IsSection result (form_in self) at_first }
    {
        match self {
            Form::Production => Section::First,
            Form::Homomorphism => Section::Alone,
        }
    }

    // Whether what was read is a left context, by the token after it.
    pub(crate) fn takes_left(self, is_empty: bool, glyph: RuleGlyph) -> bool
        ensures { result ≡ takes_left self is_empty glyph }
    {
        match (self, glyph) {
            (Form::Production, RuleGlyph::Less) => !is_empty,
            _ => false,
        }
    }

    // Whether a right context stands after a predecessor, by the token after that.
    pub(crate) fn takes_right(self, glyph: RuleGlyph) -> bool
        ensures { result ≡ takes_right self glyph }
    {
        match (self, glyph) {
            (Form::Production, RuleGlyph::Greater) => true,
            _ => false,
        }
    }

    // Whether a weight stands there, by its first token.
    pub(crate) fn takes_weight(self, glyph: RuleGlyph) -> bool
        ensures { result ≡ takes_weight self glyph }
    {
        match (self, glyph) {
            (Form::Production, RuleGlyph::At) => true,
            _ => false,
        }
    }
}
