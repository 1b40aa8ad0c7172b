//! Laws of the cut, and of levels.

ghost use Rattle.std.specs.Prelude.{◌≡◌, ℕ, true, List, map, ◌↔◌};
ghost use Rattle.lsys_spec.specs.Systems.{System, WellSpelled};
ghost use Rattle.lsys_spec.specs.Levels.{LevelSymbol, level_balanced, IsLevel};
ghost use Rattle.lsys_spec.specs.Cuts.{Raw, Plain, raw_balanced, cut, IsCutOff, is_cut_off, kept, Distinct};
ghost use Rattle.lsys_spec.specs.LevelLaws.{HasBalance, AtEachLevel};
ghost use Rattle.lsys_spec.specs.EachLevel.{LineagesRiseByPlaces, LineagesAreAsLongAsTheirLevelIsDeep, ModulesHaveNamesOfTheLanguage};

/// What a cut leaves of a balanced string is balanced.
pub fn law_of_balanced_cuts()
    ensures { (x : List Raw) → raw_balanced 0 x ≡ true → level_balanced 0 (cut x) ≡ true }
{}

/// A string without cuts stays as it is, so cutting twice is cutting once.
pub fn law_of_repeated_cuts()
    ensures without_cuts { (y : List LevelSymbol) → cut (map Plain y) ≡ y }
    ensures twice { (x : List Raw) → cut (map Plain (cut x)) ≡ cut x }
{}

/// The one pass of the cut leaves exactly the symbols that no cut cuts off, judged place by place.
pub fn law_of_cut_places()
    ensures cut_off { (x : List Raw) (p : ℕ) → IsCutOff x p ↔ (is_cut_off x p ≡ true) }
    ensures leaves { (x : List Raw) → kept (is_cut_off x) x ≡ cut x }
{}

/// In a balanced string of distinct lineages each bracket has its mate.
pub fn law_of_mates()
    ensures { (x : List LevelSymbol) → level_balanced 0 x ≡ true → Distinct x → IsLevel x }
{}

/// Where the axiom and the successors are balanced and short, each level is balanced; each of its lineages stands there
/// once, and those of level t have t + 1 numbers. Where symbols are numbered by places the lineages rise. In a well-spelled
/// system each module has a name of the language.
pub fn law_of_levels()
    ensures spelled { (s : System) → WellSpelled s → HasBalance s }
    ensures balance { (s : System) → HasBalance s → AtEachLevel s (λ t x. level_balanced 0 x ≡ true) }
    ensures rise { LineagesRiseByPlaces }
    ensures distinct { (s : System) → HasBalance s → AtEachLevel s (λ t x. Distinct x) }
    ensures mates { (s : System) → HasBalance s → AtEachLevel s (λ t x. IsLevel x) }
    ensures generations { LineagesAreAsLongAsTheirLevelIsDeep }
    ensures names { ModulesHaveNamesOfTheLanguage }
{}
