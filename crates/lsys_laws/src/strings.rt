//! Laws of strings: at which token one ends or stops.

ghost use Rattle.std.specs.Prelude.{◌≡◌, List};
ghost use Rattle.lsys_syntax.specs.Tokens.{Kind};
ghost use Rattle.lsys_syntax.specs.LineMachine.{stops};
ghost use Rattle.lsys_laws.specs.StringPlaces.{axiom_verdict};
ghost use Rattle.lsys_laws.specs.ReadStrings.{StringsAreRead, WhatIsReadIsAString, SomeStringBeginsBeforeTheStop, NoStringGoesOnAtTheStop, NoStringStopsAtItsEnd, NoStringIsTooDeep};

/// The places of a string in terms of strings. After the word `axiom` the tokens of a string are read as that string,
/// and nothing else is. Else the verdict names a token after the word: some string begins with the tokens between, and
/// none goes on with the token there; or, at the end, they are no whole string. None is ever nested too deep.
pub fn law_of_string_places()
    ensures read { StringsAreRead }
    ensures told { WhatIsReadIsAString }
    ensures before { SomeStringBeginsBeforeTheStop }
    ensures none_goes_on { NoStringGoesOnAtTheStop }
    ensures at_the_end { NoStringStopsAtItsEnd }
    ensures never_first { (ks : List Kind) → axiom_verdict ks ≡ stops 0 → ⊥ }
    ensures never_deep { NoStringIsTooDeep }
{}
