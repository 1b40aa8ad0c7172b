//! Laws of seeds.

ghost use Rattle.std.specs.Prelude.{ℕ};
ghost use Rattle.lsys_spec.specs.Systems.{System};
ghost use Rattle.lsys_laws.specs.Seeds.{AskAlike, HasNoWeights, KeysTellTheirSeeds, reseeded};

/// No lineage has one key under two seeds: each step of SplitMix64 can be taken back (Steele, Lea and Flood). So a module with
/// weights has another key exactly where the seed is another one.
pub fn law_of_seeds()
    ensures { KeysTellTheirSeeds }
{}

/// Where no rule has a weight, another seed changes the keys of the levels' symbols and nothing else: the system has the same
/// levels or the same refusal, asks the same questions, chooses the same rules, and an edit from it or to it disturbs the same
/// questions and reads the same.
pub fn law_of_plain_seeds()
    ensures { (s : System) → HasNoWeights s → (seed : ℕ) → AskAlike s (reseeded seed s) }
{}
