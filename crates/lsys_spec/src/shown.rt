//! The law of `show`.

ghost use Rattle.lsys_spec.specs.Systems.{System, WellFormed, WellSpelled};
ghost use Rattle.lsys_spec.specs.ReadBack.{IsReadBack, ShownLinesArePlain};
ghost use Rattle.lsys_spec.specs.ShownSample.{full_system};

/// The law of `show`: for each well-formed and well-spelled system, the lines that `show` prints, read as tokens, parsed and applied
/// in order from the opening system, are all accepted, and give the same system. A session reads them as they stand:
/// none ends with a CR, is blank or is a comment. A system with every part is well formed, so the law speaks of
/// something.
///
/// It speaks of the lines themselves. That a line has at most 65,536 bytes and a whole script at most 16,777,216 is
/// asked by the reader of lines alone, and is no part of this law.
pub fn law_of_show()
    ensures read_back { (system : System) → WellFormed system → WellSpelled system → IsReadBack system }
    ensures plain { ShownLinesArePlain }
    ensures example { WellFormed full_system × WellSpelled full_system }
{}
