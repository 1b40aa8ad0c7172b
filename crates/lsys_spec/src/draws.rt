//! Laws of keys, draws and picks.

ghost use Rattle.std.specs.Prelude.{◌≡◌, ◌^◌, [], ◌∷◌, ◌-◌, Some, None};
ghost use Rattle.lsys_spec.specs.Draws.{word, pick_of};
ghost use Rattle.lsys_spec.specs.KeysAndPicks.{ChildKeysAreMadeFromTheirParents, TwoRulesFixEveryKey, KeysBelowAreThoseOfAnOwnAxiom, NumbersByPlaceAreOneWordPast, NumbersByNameAreTwoWordsPast, NextSeedsHaveTheseKeysOnePlaceEarlier, OnlyTheComputedPickIsAllowed, WeightZeroIsNeverPicked, GreaterDrawsNeverPickEarlierPlaces, SplitWeightsArePickedTogether};

/// Known values: the word of SplitMix64's reference, and picks at the ends of the weights' shares.
pub fn law_of_known_draws()
    ensures first_word { word 0 ≡ 0xE220A8397B1DCDAF }
    ensures first_half { pick_of (2 ^ 63 - 1) (1 ∷ 1 ∷ []) ≡ Some 0 }
    ensures second_half { pick_of (2 ^ 63) (1 ∷ 1 ∷ []) ≡ Some 1 }
    ensures past_zero { pick_of 0 (0 ∷ 5 ∷ []) ≡ Some 1 }
    ensures greatest { pick_of (2 ^ 64 - 1) (0 ∷ 5 ∷ []) ≡ Some 1 }
    ensures nothing { pick_of 77 (0 ∷ 0 ∷ []) ≡ None }
{}

/// A symbol's key is made from its parent's key and its place alone.
pub fn law_of_child_keys()
    ensures { ChildKeysAreMadeFromTheirParents }
{}

/// The rule of the axiom and the rule of children fix every key: keys depend on seed and lineage alone.
pub fn law_of_unique_keys()
    ensures { TwoRulesFixEveryKey }
{}

/// What stands below a symbol has the keys that it would have in an axiom of its own, under a seed that is the
/// symbol's key.
pub fn law_of_keys_below()
    ensures { KeysBelowAreThoseOfAnOwnAxiom }
{}

/// A number by places is one word past its key. A number by names, of a code that isn't 0, is one word past the word of the
/// code, by its count.
pub fn law_of_number_keys()
    ensures by_place { NumbersByPlaceAreOneWordPast }
    ensures by_name { NumbersByNameAreTwoWordsPast }
{}

/// The next seed has the same keys in the axiom, one place earlier, where it is numbered by places.
pub fn law_of_next_seed()
    ensures { NextSeedsHaveTheseKeysOnePlaceEarlier }
{}

/// The computed pick is the one pick that the relation allows.
pub fn law_of_picks()
    ensures { OnlyTheComputedPickIsAllowed }
{}

/// A rule of weight 0 is never picked.
pub fn law_of_weight_zero()
    ensures { WeightZeroIsNeverPicked }
{}

/// A greater draw never picks an earlier place.
pub fn law_of_greater_draws()
    ensures { GreaterDrawsNeverPickEarlierPlaces }
{}

/// Where a rule is split into two that share its weight, each draw picks what it picked before, or one of the two.
pub fn law_of_split_weights()
    ensures { SplitWeightsArePickedTogether }
{}
