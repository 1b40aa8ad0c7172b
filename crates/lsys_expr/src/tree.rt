//! Trees of evaluation.
ghost use Rattle.std.specs.Prelude.{◌≡◌};
ghost use Rattle.lsys_spec.specs.Equalities.{same_tree};
ghost use Rattle.lsys_expr.specs.Trees.{tree_of};

use crate::constant::Constant;
use crate::operators::Operator;

/// An expression without its parentheses, its formals by place.
#[derive(Drop)]
pub(crate) enum Tree {
    Constant(Constant),
    Formal(u8),
    Negation(Box<Tree>),
    Inversion(Box<Tree>),
    Binary(Operator, Box<Tree>, Box<Tree>),
    Both(Box<Tree>, Box<Tree>),
    Either(Box<Tree>, Box<Tree>),
}

impl Tree {
    /// Whether both are the same tree. It stops at the first difference, and recurses as evaluation does.
    pub(crate) fn same(&self, other: &Tree) -> bool
        ensures { result ≡ same_tree (tree_of self.now) (tree_of other.now) }
    {
        match (self, other) {
            (Tree::Constant(one), Tree::Constant(another)) => one.value() == another.value(),
            (Tree::Formal(one), Tree::Formal(another)) => one == another,
            (Tree::Negation(one), Tree::Negation(another)) => one.same(another),
            (Tree::Inversion(one), Tree::Inversion(another)) => one.same(another),
            (Tree::Binary(one, x, y), Tree::Binary(another, z, w)) => {
                one.same(*another) && x.same(z) && y.same(w)
            }
            (Tree::Both(x, y), Tree::Both(z, w)) => x.same(z) && y.same(w),
            (Tree::Either(x, y), Tree::Either(z, w)) => x.same(z) && y.same(w),
            _ => false,
        }
    }
}
