//! The law of revisions.
ghost use Rattle.lsys_flat.specs.Laws.{RevisionsGiveOldLevels, RevisionsKeepTags, RevisionsAreNamedTogether, RevisionsAreKeyed};

/// A law of revisions: the new levels are such as the old ones were, so that the next revision can be made beside them; and
/// a tag of an old symbol is that of a new one exactly where level and lineage are equal. One naming of the tags makes
/// levels of what is seen of both, and by it each module has the key of its lineage.
pub fn law_of_revisions()
    ensures next { RevisionsGiveOldLevels }
    ensures tags { RevisionsKeepTags }
    ensures named { RevisionsAreNamedTogether }
    ensures keys { RevisionsAreKeyed }
{}
