//! Laws of mates, and of the tags that are given.
ghost use Rattle.lsys_flat.specs.Laws.{GivenTagsAgreeWithOldOnes, GivenTagsAgree, TagsThatAgreeStandOnce, MatesAreTakenOnce};

/// A law of the tags that are given level by level beside old levels: if among the old symbols, all of whose tags are in
/// use, tags are equal exactly where level and lineage are, then also between the old symbols and the new ones, and
/// among the new ones. So no tag stands twice in the new levels.
pub fn law_of_given_tags()
    ensures across { GivenTagsAgreeWithOldOnes }
    ensures among { GivenTagsAgree }
    ensures own { TagsThatAgreeStandOnce }
{}

/// A law of mates: no two symbols of a new level, in which each lineage stands once, have the same old one. So what
/// is taken over to some of them from their mates' places is taken from each place once.
pub fn law_of_mates()
    ensures { MatesAreTakenOnce }
{}
