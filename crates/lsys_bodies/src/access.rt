//! The parts of a body, as the definitions have them of the rule that is written.
ghost use Rattle.std.specs.Prelude.{◌≡◌, map, IfSome};
ghost use Rattle.std.specs.Option.{option_map};
ghost use Rattle.lsys_spec.specs.Bodies.{innermost, body_of};
ghost use Rattle.lsys_syntax.specs.Smalls.{HaveFewParams};
ghost use Rattle.lsys_bodies.specs.Constants.{constant_of, IsConstant};
ghost use Rattle.lsys_bodies.specs.Views.{as_pattern, nest, template_symbol, template_of, as_rule};

use crate::body::{Item, Pattern, SharedBody, Template};
use lsys_expr::Expr;
use lsys_module::SymbolList;

impl Pattern {
    /// How many parameters a module has that fits: at most 8 where the pattern is one of a body.
    pub fn arity(&self) -> usize
        ensures { result ≡ (as_pattern self.now).arity }
    {
        self.formals.len()
    }
}

impl SharedBody {
    /// The patterns of the left context, at most 8, the nearest one last.
    pub fn left(&self) -> &[Pattern]
        ensures { map as_pattern result.now ≡ (body_of (as_rule self.now)).left }
    {
        &self.get().left
    }

    /// The pattern of what is replaced.
    pub fn predecessor(&self) -> &Pattern
        ensures { as_pattern result.now ≡ (body_of (as_rule self.now)).own }
    {
        &self.get().predecessor
    }

    /// The items of the right context, at most 16 and balanced, the nearest one first.
    pub fn right(&self) -> &[Item]
        ensures { innermost (nest result.now) ≡ (body_of (as_rule self.now)).right }
    {
        &self.get().right
    }

    /// The condition, where there is one.
    pub fn condition(&self) -> Option<&Expr>
        ensures { option_map (λ e. e.now.tree) result ≡ (body_of (as_rule self.now)).condition }
    {
        self.get().condition.as_ref()
    }

    /// The weight, where there is one.
    pub fn weight(&self) -> Option<&Expr>
        ensures { option_map (λ e. e.now.tree) result ≡ (body_of (as_rule self.now)).weight }
    {
        self.get().weight.as_ref()
    }

    /// The templates of the successor, at most 128 and balanced; each has at most 8 parameters.
    pub fn successor(&self) -> &[Template]
        ensures means { map template_of result.now ≡ (body_of (as_rule self.now)).successor }
        ensures few { HaveFewParams (map template_symbol result.now) }
    {
        &self.get().successor
    }

    /// The symbols of the successor, where none of its templates has parameters: what it becomes, whatever the values of
    /// the rule's formals are. They stand in the body once, and copies of it share them.
    pub fn constant(&self) -> Option<&SymbolList>
        ensures symbols { option_map (λ s. s.now) result ≡ constant_of self.now.successor.items }
        ensures filled { IfSome result (λ s. IsConstant self.now s.now) }
    {
        self.parts.constant.as_ref()
    }
}
