//! Laws of lattices: their turns and their frames.

ghost use Rattle.std.specs.Prelude.{◌≡◌, ◌≢◌, pos, negsuc, List, [], ◌∷◌, length, AllPairs};
ghost use Rattle.lsys_spec.specs.Lattices.{Lattice, hexagonal, square, cubic, vector, Turn, pitch_down, IsUpright, frame_after, frames};
ghost use Rattle.lsys_spec.specs.TurnsAndFrames.{InverseTurnsGiveTheFrameBack, FullTurnsGiveTheFrameBack, CountedTurnsAreThatManyTurns, NegativeCountsTurnTheOtherWay, TurnsLeadToKnownFrames, LeftTurnsGoRoundAHexagon, PitchingUpUndoesPitchingDown};

/// A turn and its inverse give the frame back.
pub fn law_of_inverse_turns()
    ensures { InverseTurnsGiveTheFrameBack }
{}

/// A full turn gives the frame back, whichever way it goes.
pub fn law_of_full_turns()
    ensures { FullTurnsGiveTheFrameBack }
{}

/// A turn by a count is as many turns, one after another.
pub fn law_of_counted_turns()
    ensures { CountedTurnsAreThatManyTurns }
{}

/// A turn by a negative count is the inverse turn.
pub fn law_of_negative_counts()
    ensures { NegativeCountsTurnTheOtherWay }
{}

/// What stands above a turtle is the product of where it heads and what is on its left, whatever the turns.
pub fn law_of_upright_frames()
    ensures { (lattice : Lattice) (turns : List Turn) → IsUpright (frame_after lattice turns) }
{}

/// There are 4, 6 and 24 frames, no two the same, and no turns lead out of them.
pub fn law_of_frames()
    ensures square_count { length (frames square) ≡ 4 }
    ensures hexagonal_count { length (frames hexagonal) ≡ 6 }
    ensures cubic_count { length (frames cubic) ≡ 24 }
    ensures distinct { (lattice : Lattice) → AllPairs (λ a b. a ≢ b) (frames lattice) }
    ensures closed { TurnsLeadToKnownFrames }
{}

/// Known headings: left turns go round a hexagon, and in space a turtle pitches down and up again.
pub fn law_of_known_headings()
    ensures hexagon { LeftTurnsGoRoundAHexagon }
    ensures down { (frame_after cubic (pitch_down ∷ [])).heading ≡ vector (pos 0) (pos 0) (negsuc 0) }
    ensures up_again { PitchingUpUndoesPitchingDown }
{}
