//! Operators with two operands.
ghost use Rattle.std.specs.Prelude.{◌≡◌, ℤ, pos, negsuc, Ok, ◌≤ℤ◌, unsigned_abs};
ghost use Rattle.std.specs.Int.{int_pow};
ghost use Rattle.lsys_syntax.specs.Expressions.{add, subtract, multiply, divide, remainder, equal, unequal, less, at_most, greater, at_least};
ghost use Rattle.lsys_spec.specs.Values.{applied, exact, power, power_of, product_of, sum_of, comparison, relates, truth, is_zero, int_same};
ghost use Rattle.lsys_spec.specs.Equalities.{same_operator};
ghost use Rattle.lsys_expr.specs.Answers.{as_meant};
ghost use Rattle.lsys_expr.specs.Trees.{operator_of};

use crate::arith::Arith;

/// An operator whose operands are both evaluated.
#[derive(Clone, Copy, PartialEq, Eq, Debug)]
pub(crate) enum Operator {
    Add,
    Subtract,
    Multiply,
    Divide,
    Remainder,
    Power,
    Equal,
    Unequal,
    Less,
    AtMost,
    Greater,
    AtLeast,
}

impl Operator {
    /// Whether both are the same operator.
    pub(crate) fn same(self, other: Operator) -> bool
        ensures { result ≡ same_operator (operator_of self) (operator_of other) }
    {
        self == other
    }

    /// The operator's result on two values, or its fault.
    pub(crate) fn apply(self, x: i64, y: i64) -> Result<i64, Arith>
        ensures { as_meant result ≡ applied (operator_of self) x y }
    {
        match self {
            Operator::Add => x.checked_add(y).ok_or(Arith::Overflow),
            Operator::Subtract => x.checked_sub(y).ok_or(Arith::Overflow),
            Operator::Multiply => x.checked_mul(y).ok_or(Arith::Overflow),
            Operator::Divide => quotient(x, y),
            Operator::Remainder => remainder(x, y),
            Operator::Power => raised(x, y),
            Operator::Equal => Ok(truth(equals(x, y))),
            Operator::Unequal => Ok(truth(!equals(x, y))),
            Operator::Less => Ok(truth(x < y)),
            Operator::AtMost => Ok(truth(x <= y)),
            Operator::Greater => Ok(truth(x > y)),
            Operator::AtLeast => Ok(truth(x >= y)),
        }
    }
}

/// 1 for true, 0 for false.
pub(crate) fn truth(holds: bool) -> i64
    ensures { result ≡ truth holds }
{
    if holds { 1 } else { 0 }
}

fn equals(x: i64, y: i64) -> bool
    ensures { result ≡ int_same x y }
{
    x == y
}

fn quotient(x: i64, y: i64) -> Result<i64, Arith>
    ensures { as_meant result ≡ applied (product_of divide) x y }
{
    if y == 0 {
        return Err(Arith::DivideByZero);
    }
    x.checked_div(y).ok_or(Arith::Overflow)
}

fn remainder(x: i64, y: i64) -> Result<i64, Arith>
    ensures { as_meant result ≡ applied (product_of remainder) x y }
{
    if y == 0 {
        return Err(Arith::DivideByZero);
    }
    x.checked_rem(y).ok_or(Arith::Overflow)
}

fn raised(x: i64, y: i64) -> Result<i64, Arith>
    ensures { as_meant result ≡ power x y }
{
    if y < 0 {
        return Err(Arith::NegativePower);
    }
    if y < 64 {
        return x.checked_pow(y as u32).ok_or(Arith::Overflow);
    }
    raised_high(x, y)
}

// From 64 on, the powers of 0, 1 and -1 alone fit.
fn raised_high(x: i64, y: i64) -> Result<i64, Arith>
    requires { pos 64 ≤ℤ y }
    ensures { as_meant result ≡ power x y }
{
    if x == 0 || x == 1 {
        return Ok(x);
    }
    if x == -1 {
        return Ok(if y % 2 == 0 { 1 } else { -1 });
    }
    Err(Arith::Overflow)
}
