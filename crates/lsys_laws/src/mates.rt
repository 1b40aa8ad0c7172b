//! Laws of mates: which bracket is whose, level by level.

ghost use Rattle.lsys_laws.specs.KeptMates.{MatesAreToldByKinds, BranchesEndAmongBalancedNodes, MatesHaveMatesBelow, MatesComeFromOneModuleOrTwoMates, MatesOfOneModuleStayMates, MatesOfTwoBracketsStayMates};

/// Which bracket ends a branch is told by the kinds of the nodes alone. The mate of a bracket stands among the children of
/// the same module, and is the same while these and their kinds are, whatever stands after them; and that of a bracket's
/// child is the child of the bracket's mate, whatever is cut off between them.
pub fn law_of_mates_below()
    ensures levels { MatesAreToldByKinds }
    ensures modules { BranchesEndAmongBalancedNodes }
    ensures brackets { MatesHaveMatesBelow }
{}

/// Mates of a level are children of one module of the level above it, or of two mates. So brackets that were mates still
/// are, where they are there: as children of a module, while its children and their kinds are the same; and as children of
/// two brackets, while these are mates and their children are the same.
pub fn law_of_same_mates()
    ensures from { MatesComeFromOneModuleOrTwoMates }
    ensures modules { MatesOfOneModuleStayMates }
    ensures brackets { MatesOfTwoBracketsStayMates }
{}
