//! Laws of derivations, step by step.
ghost use Rattle.std.specs.Prelude.{◌≤◌, ℕ, List, [], length};
ghost use Rattle.lsys_syntax.specs.Limits.{most_axiom_symbols};
ghost use Rattle.lsys_spec.specs.Systems.{System, WellFormed};
ghost use Rattle.lsys_spec.specs.Levels.{LevelSymbol};
ghost use Rattle.lsys_flat.specs.Steps.{ReplacedTo};
ghost use Rattle.lsys_flat.specs.Laws.{StepsGoOnByChildren, StepsEndAtTheFirstFault, StepsEndWithTheCut, DerivationsBeginWithTheFirstLevel, FirstLevelsOverTheLimitAreRefused, DerivationsGoOnWithinTheLimit, NextLevelsOverTheLimitAreRefused, DerivationsEndAtTheFirstRefusal, ReplacementsAreShort};

/// A derivation step goes symbol by symbol: each is replaced by its children, the first fault is that of the level, with
/// the number of its module, and where all are replaced the cut leaves the next level.
pub fn law_of_next_levels()
    ensures begins { (s : System) (t : ℕ) (x : List LevelSymbol) → ReplacedTo s t x 0 0 [] }
    ensures goes_on { StepsGoOnByChildren }
    ensures fault { StepsEndAtTheFirstFault }
    ensures ends { StepsEndWithTheCut }
{}

/// A derivation goes level by level, while the lengths sum to no more than the limit; a fault of a level comes before
/// the limit at the next.
pub fn law_of_meanings()
    ensures begins { DerivationsBeginWithTheFirstLevel }
    ensures begins_over { FirstLevelsOverTheLimitAreRefused }
    ensures goes_on { DerivationsGoOnWithinTheLimit }
    ensures goes_over { NextLevelsOverTheLimitAreRefused }
    ensures refused { DerivationsEndAtTheFirstRefusal }
{}

/// A law of lengths: the axiom of a well-formed system, and what replaces a symbol in it, are as short as its lines.
pub fn law_of_short_strings()
    ensures axioms { (s : System) → WellFormed s → length s.axiom_string ≤ most_axiom_symbols }
    ensures replacements { ReplacementsAreShort }
{}
