//! Laws of faults: which one is told.

ghost use Rattle.lsys_laws.specs.FirstFaults.{ParametersFailByTheFirst, SuccessorsFailByTheFirstParameter, NegationsFailByTheirOperand, InversionsFailByTheirOperand, OperatorsFailAfterTheirOperands, TheRightOfBothCountsOnlyWhereTheLeftHolds, TheRightOfEitherCountsOnlyWhereTheLeftFails, ManyIsToldAtTheLeastPlace, ManyIsToldOnlyPastALimit, ProductionsAreManyAtTheLeastPlace};

/// Parameters fail by the first of them, from the left, that has no value; and a successor by the first of all its
/// parameters. Where none fails, there is no fault.
pub fn law_of_first_faults()
    ensures parameters { ParametersFailByTheFirst }
    ensures successor { SuccessorsFailByTheFirstParameter }
{}

/// A value fails by the first fault from the left: that of the left operand, else that of the right one, else that of
/// the operator at the two values. The right side of `&&` counts only where the left is not 0, and that of `||` only
/// where it is.
pub fn law_of_value_faults()
    ensures negation { NegationsFailByTheirOperand }
    ensures inversion { InversionsFailByTheirOperand }
    ensures binary { OperatorsFailAfterTheirOperands }
    ensures both { TheRightOfBothCountsOnlyWhereTheLeftHolds }
    ensures either { TheRightOfEitherCountsOnlyWhereTheLeftFails }
{}

/// The place of a `many` is the least at which any limit is passed: in the tokens of a rule or of an axiom, and in the
/// whole line of a production, by its table's word, its label or its own tokens. None is told where no limit is passed.
pub fn law_of_first_many()
    ensures told { ManyIsToldAtTheLeastPlace }
    ensures none { ManyIsToldOnlyPastALimit }
    ensures production { ProductionsAreManyAtTheLeastPlace }
{}
