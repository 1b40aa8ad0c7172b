//! Laws of version 1: what a system of it does is what it did before there was another.

ghost use Rattle.std.specs.Prelude.{◌≡◌};
ghost use Rattle.lsys_syntax.specs.Commands.{by_place};
ghost use Rattle.lsys_spec.specs.Systems.{System, WellFormed, opening};
ghost use Rattle.lsys_spec.specs.FormerCommands.{FormerCommandsKeepTheVersion, FormerCommandsKeepOwnLists, FormerCommandsKeepTheNumbering, FormerCommandsAreRefusedAsBefore, FormerSystemsIgnoreByNameAlone, FormerSystemsAreShownAsBefore};
ghost use Rattle.lsys_spec.specs.KeysAndPicks.{NumbersByPlaceAreOneWordPast};

/// The opening system is of version 1. A command of version 1 leaves the version and what comes with it, and a system of
/// version 1 refuses it for what version 1 refused it for. In such a system a module is ignored exactly where its name is
/// among the ignored names, its symbols are numbered by places, and `show` prints what it printed. A number by places is
/// less than 4,096 and has the key that it had. So a script in which no line begins with a word of version 2 keeps its
/// replies.
pub fn law_of_former_systems()
    ensures opens { opening.version ≡ 1 }
    ensures stays { FormerCommandsKeepTheVersion }
    ensures keeps_own { FormerCommandsKeepOwnLists }
    ensures keeps_numbering { FormerCommandsKeepTheNumbering }
    ensures refuses { FormerCommandsAreRefusedAsBefore }
    ensures ignores { FormerSystemsIgnoreByNameAlone }
    ensures numbers { (s : System) → WellFormed s → s.version ≡ 1 → s.numbering ≡ by_place }
    ensures shows { FormerSystemsAreShownAsBefore }
    ensures keys { NumbersByPlaceAreOneWordPast }
{}
