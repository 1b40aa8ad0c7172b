//! The trait that each representation of levels meets.
ghost use Rattle.std.specs.Prelude.{◌≡◌, ℕ, List, ◌<◌, length};
ghost use Rattle.lsys_level.specs.Spots.{Spotted, IsSpot};
ghost use Rattle.lsys_level.specs.Tags.{HasOwnTags};
ghost use Rattle.lsys_level.specs.Views.{HasFewParams};
ghost use Rattle.lsys_level.specs.ViewAnswers.{IsFirstSpot, IsLeftOf, IsRightOf, HasBracket, IsMateOf, ShowsAt, IsTagAt, IsKeyAt};

use crate::sight::Sight;
use crate::tag::Tag;

/// Levels, each a list of symbols with their lineages and keys. A tag stands for a level and a lineage.
///
/// A spot stands for a level and a place in it. No call takes memory.
pub trait LevelView {
    type Spot: Copy;

    ghost levels: { Self → List (List Spotted) };

    // the number of the level on which a spot is, and its place there
    ghost level_of: { Self → Self.Spot → ℕ };

    ghost place_of: { Self → Self.Spot → ℕ };

    /// The leftmost spot of a level; none where it is empty.
    fn first(&self, level: u32) -> Option<Self::Spot>
        requires { level < length (levels self.now) }
        ensures { IsFirstSpot (levels self.now) (level_of self.now) (place_of self.now) level result };

    /// The spot to the left; none at the left end.
    fn left(&self, spot: Self::Spot) -> Option<Self::Spot>
        requires { IsSpot (levels self.now) (level_of self.now spot) (place_of self.now spot) }
        ensures { IsLeftOf (level_of self.now) (place_of self.now) spot result };

    /// The spot to the right; none at the right end.
    fn right(&self, spot: Self::Spot) -> Option<Self::Spot>
        requires { IsSpot (levels self.now) (level_of self.now spot) (place_of self.now spot) }
        ensures { IsRightOf (levels self.now) (level_of self.now) (place_of self.now) spot result };

    /// The bracket that ends or begins the same branch.
    fn mate(&self, spot: Self::Spot) -> Self::Spot
        requires spot { IsSpot (levels self.now) (level_of self.now spot) (place_of self.now spot) }
        requires bracket { HasBracket (levels self.now) (level_of self.now spot) (place_of self.now spot) }
        ensures level { level_of self.now result ≡ level_of self.now spot }
        ensures mate { IsMateOf (levels self.now) (level_of self.now) (place_of self.now) spot result };

    /// The symbol. A module has at most eight parameters.
    fn sight(&self, spot: Self::Spot) -> Sight<'_>
        requires { IsSpot (levels self.now) (level_of self.now spot) (place_of self.now spot) }
        ensures few { HasFewParams result }
        ensures seen { ShowsAt (levels self.now) (level_of self.now spot) (place_of self.now spot) result };

    /// The symbol's tag, which no other spot has.
    fn tag(&self, spot: Self::Spot) -> Tag
        requires { IsSpot (levels self.now) (level_of self.now spot) (place_of self.now spot) }
        ensures tag { IsTagAt (levels self.now) (level_of self.now spot) (place_of self.now spot) result }
        ensures own { HasOwnTags (levels self.now) };

    /// The symbol's key.
    fn key(&self, spot: Self::Spot) -> u64
        requires { IsSpot (levels self.now) (level_of self.now spot) (place_of self.now spot) }
        ensures { IsKeyAt (levels self.now) (level_of self.now spot) (place_of self.now spot) result };
}
