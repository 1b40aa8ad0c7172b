//! The law of tags.
ghost use Rattle.lsys_level.specs.Tags.{OwnTagsTell, ShownLevelsAreNamed};
ghost use Rattle.lsys_level.specs.Places.{SpotsShowTheSymbols};

/// A law of tags: two tags of a view are equal exactly where level and lineage are, by any naming of the tags that makes
/// levels of its lists; and where the strings are those of some levels, one naming makes the lists those levels. The
/// string of a level is that of the symbols which were pushed.
pub fn law_of_tags()
    ensures tell { OwnTagsTell }
    ensures named { ShownLevelsAreNamed }
    ensures strings { SpotsShowTheSymbols }
{}
