//! Laws of the lineages of nodes.

ghost use Rattle.lsys_laws.specs.NodeNames.{ChildrenAreNamedBelowTheirParents, NodesOfOneLevelHaveTheirOwnNames, LivingNodesKeepTheirNames, NodesAreOneByLevelAndName};

/// A node's lineage is its parent's and its own number, whatever numbers tell the children of a parent apart: their places,
/// or their names and how many have them. On one level two nodes have one lineage only if they are one; and a node that
/// still lives keeps its lineage, whatever else comes. So one naming of nodes serves for old levels and for new ones, and
/// between them the numbers of nodes, as tags, are equal exactly where level and lineage are.
pub fn law_of_node_lineages()
    ensures child { ChildrenAreNamedBelowTheirParents }
    ensures apart { NodesOfOneLevelHaveTheirOwnNames }
    ensures stays { LivingNodesKeepTheirNames }
    ensures tags { NodesAreOneByLevelAndName }
{}
