//! Values of expressions.
ghost use Rattle.std.specs.Prelude.{◌≡◌, Some};
ghost use Rattle.lsys_spec.specs.Values.{value, judged};
ghost use Rattle.lsys_expr.specs.Answers.{as_meant};
ghost use Rattle.lsys_expr.specs.Trees.{tree_of};

use crate::arith::Arith;
use crate::expr::Expr;
use crate::operators::truth;
use crate::tree::Tree;

/// The value of an expression, where the formals have the values `bound`, by place. A formal without
/// a value counts as 0.
///
/// # Errors
///
/// The first fault that is met. Operands are evaluated from left to right, and the right side of `&&`
/// and `||` only where the left doesn't decide.
pub fn eval(expr: &Expr, bound: &[i64]) -> Result<i64, Arith>
    ensures { as_meant result ≡ value expr.now.tree bound.now }
{
    tree_value(expr.tree(), bound)
}

/// Whether the value of an expression is other than 0.
///
/// # Errors
///
/// As `eval`.
pub fn holds(expr: &Expr, bound: &[i64]) -> Result<bool, Arith>
    ensures { as_meant result ≡ judged (Some expr.now.tree) bound.now }
{
    Ok(eval(expr, bound)? != 0)
}

fn tree_value(tree: &Tree, bound: &[i64]) -> Result<i64, Arith>
    ensures { as_meant result ≡ value (tree_of tree.now) bound.now }
{
    match tree {
        Tree::Constant(number) => Ok(number.value()),
        Tree::Formal(place) => Ok(bound.get(usize::from(*place)).copied().unwrap_or(0)),
        Tree::Negation(operand) => tree_value(operand, bound)?
            .checked_neg()
            .ok_or(Arith::Overflow),
        Tree::Inversion(operand) => Ok(truth(tree_value(operand, bound)? == 0)),
        Tree::Binary(operator, left, right) => {
            let x = tree_value(left, bound)?;
            let y = tree_value(right, bound)?;
            operator.apply(x, y)
        }
        Tree::Both(left, right) => {
            if tree_value(left, bound)? == 0 {
                return Ok(0);
            }
            Ok(truth(tree_value(right, bound)? != 0))
        }
        Tree::Either(left, right) => {
            if tree_value(left, bound)? != 0 {
                return Ok(1);
            }
            Ok(truth(tree_value(right, bound)? != 0))
        }
    }
}
