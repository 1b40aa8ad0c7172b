//! Laws of growth: what the counts of letters in the levels of a system are, and of the numbers and matrices that tell them.
//!
//! Its functions are laws with empty bodies.

ghost use Rattle.std.specs.Prelude.{◌≡◌, ◌+◌, ◌*◌, ℕ};
ghost use Rattle.lsys_spec.specs.Systems.{System};
ghost use Rattle.lsys_growth.specs.Capped.{capped};
ghost use Rattle.lsys_growth.specs.Growth.{letters};
ghost use Rattle.lsys_growth.specs.Counts.{AreLetters};
ghost use Rattle.lsys_growth.specs.CountedGrowth.{CountsGrowByTheMatricesOfTheSteps, LevelsOfTheDepthAreTheMeaning, LettersAndBranchesMakeTheLength};
ghost use Rattle.lsys_growth.specs.Turns.{WholeTurnsArePowers};

/// In the class each level is there, however deep, and its counts are those of the axiom by the matrices of the steps.
pub fn law_of_growth()
    ensures { CountsGrowByTheMatricesOfTheSteps }
{}

/// The letters of a system stand among them, each once.
pub fn law_of_letters()
    ensures { (s : System) → AreLetters s (letters s) }
{}

/// The levels go on past the depth: within it they are those of the system's meaning.
pub fn law_of_depth()
    ensures { LevelsOfTheDepthAreTheMeaning }
{}

/// The length of a balanced string is the sum of its letters' counts and twice that of its branches.
pub fn law_of_lengths()
    ensures { LettersAndBranchesMakeTheLength }
{}

/// Where the matrices come round again after n steps, whole turns are powers of the matrix of one turn.
pub fn law_of_turns()
    ensures { WholeTurnsArePowers }
{}

/// A sum or a product that stops at 2^128 may stop at any step of it.
pub fn law_of_stopping()
    ensures sum { (x y : ℕ) → capped (x + y) ≡ capped (capped x + capped y) }
    ensures product { (x y : ℕ) → capped (x * y) ≡ capped (capped x * capped y) }
{}
