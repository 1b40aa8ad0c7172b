//! Laws of the lines of a script.

ghost use Rattle.std.specs.Prelude.{ℕ, List};
ghost use Rattle.lsys_syntax.specs.Lines.{lines_of};
ghost use Rattle.lsys_spec.specs.Systems.{Each};
ghost use Rattle.lsys_spec.specs.Output.{IsFront, whole_lines};
ghost use Rattle.lsys_laws.specs.Scripts.{HasNoFeed};
ghost use Rattle.lsys_laws.specs.ScriptLines.{LinesJoinedAreTheScript, WholeLinesAreAnsweredFirst};

/// No line of a script has an LF, and the lines with an LF between each and the next are its bytes, but for an LF at
/// the end. The whole lines, up to the last LF, are a front of the bytes, and their lines are lines of the script, the
/// first of them.
pub fn law_of_lines()
    ensures no_feed { (bytes : List ℕ) → Each HasNoFeed (lines_of bytes) }
    ensures joined { LinesJoinedAreTheScript }
    ensures whole { (bytes : List ℕ) → IsFront (whole_lines bytes) bytes }
    ensures among { (bytes : List ℕ) → IsFront (lines_of (whole_lines bytes)) (lines_of bytes) }
{}

/// Take any front of a script's bytes, and any set of lines that are refused for lack of memory: the replies to the
/// front's whole lines are a front of the replies to the script.
pub fn law_of_whole_lines()
    ensures { WholeLinesAreAnsweredFirst }
{}
