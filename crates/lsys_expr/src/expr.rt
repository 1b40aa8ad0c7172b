//! Expressions.
ghost use Rattle.std.specs.Prelude.{◌≡◌, map};
ghost use Rattle.lsys_syntax.specs.Expressions.{expr_kinds};
ghost use Rattle.lsys_spec.specs.Equalities.{same_tree};
ghost use Rattle.lsys_text.specs.Tokens.{kind_of};
ghost use Rattle.lsys_expr.specs.InsideExpr.{expression_spelled};
ghost use Rattle.lsys_expr.specs.Trees.{tree_of};

use crate::tree::Tree;
use lsys_text::TokenKind;
use std::marker::Model;

/// An expression of a rule: the kinds of its tokens, and a tree with its formals by place.
#[derive(Drop)]
pub struct Expr {
    kinds: Vec<TokenKind>,
    tree: Tree,
}

impl Model for Expr {
    ghost use Rattle.lsys_expr.specs.Expression.{Expression};
    ghost use Rattle.lsys_expr.specs.Codes.{expression_code};

    ghost Value = { Expression };

    ghost coded = { expression_code };

    ghost use Rattle.lsys_expr.specs.InsideExpr.{expression_of, SpellsExpression};

    ghost view = { expression_of };

    ghost invariant = { SpellsExpression };
}

impl Expr {
    pub(crate) fn new(kinds: Vec<TokenKind>, tree: Tree) -> Expr
        requires { expr_kinds (expression_spelled kinds.items) ≡ map kind_of kinds.items }
        ensures spelled { result.spelled ≡ expression_spelled kinds.items }
        ensures tree { result.tree ≡ tree_of tree }
    {
        Expr { kinds, tree }
    }

    /// The kinds of its tokens, in order.
    pub fn kinds(&self) -> &[TokenKind]
        ensures { map kind_of result.now ≡ expr_kinds self.now.spelled }
    {
        self.kinds.as_slice()
    }

    pub(crate) fn tree(&self) -> &Tree
        ensures { tree_of result.now ≡ self.now.tree }
    {
        &self.tree
    }
}

/// Whether both expressions compute the same tree: parentheses and the names of formals don't matter. It stops at the first
/// difference.
pub fn same_expr(one: &Expr, other: &Expr) -> bool
    ensures { result ≡ same_tree one.now.tree other.now.tree }
{
    one.tree().same(other.tree())
}
