//! Laws of neighbours: whose are others, level by level.

ghost use Rattle.lsys_laws.specs.Neighbours.{RightNeighboursStayAwayFromSeams, LeftNeighboursStayAwayFromSeams, RightNeighboursStandAfter, LeftNeighboursStandBefore};

/// A node's neighbour on the next level, on either side, is the one from before, or the node is at a seam: so it is
/// enough to look at the nodes there. In whatever order children stand, this holds.
pub fn law_of_seams()
    ensures right { RightNeighboursStayAwayFromSeams }
    ensures left { LeftNeighboursStayAwayFromSeams }
{}

/// The neighbours of a node that stands in a level once, told by its number, are those at the places beside its own.
pub fn law_of_neighbours()
    ensures right { RightNeighboursStandAfter }
    ensures left { LeftNeighboursStandBefore }
{}
