//! The image of the last level is taken, part by part, as the nodes of a forest group it.
ghost use Rattle.std.specs.Prelude.{IfOk, ◌≡◌, [], None};
ghost use Rattle.lsys_forest.specs.Groves.{IsLive};
ghost use Rattle.lsys_motion.specs.Going.{IsGoing, GoesOn, GoesOnAlong};

use crate::keeper::Keeper;
use lsys_forest::{Forest, Kept, NodeId};
use lsys_hom::Walk;
use lsys_lattice::Lattice;
use lsys_level::{LevelView, Sight};
use std::alloc::AllocError;

/// Takes the image of the symbol of the level that is next, if there is one.
fn take_next<T: Lattice, W: LevelView>(
    walk: &mut Walk<'_, W>,
    keeper: &mut Keeper<T>,
) -> Result<(), AllocError>
    requires { IsGoing T.shape walk.old.coming keeper.old }
    ensures { IfOk result (λ _. GoesOn T.shape walk.old.coming keeper.old
        walk.new.coming keeper.new) }
{
    match walk.pass() {
        Ok(Some(mut part)) => keeper.take_part(&mut part),
        Ok(None) => Ok(()),
        Err(_) => unreachable!(),
    }
}

/// How many children of a node are grouped in one piece, where it has more.
const GROUP: usize = 64;

/// Takes the images of the last level's symbols below a node, which is so many levels above it: a
/// piece for each module on the way, and for each group of a long row of children.
///
/// The nodes only group the symbols. Which these are, the level tells.
pub(crate) fn take_below<T: Lattice, A: Kept>(
    forest: &Forest<A>,
    node: NodeId,
    levels: u32,
    walk: &mut Walk<'_, Forest<A>>,
    keeper: &mut Keeper<T>,
) -> Result<(), AllocError>
    requires lives { IsLive forest.now node }
    requires going { IsGoing T.shape walk.old.coming keeper.old }
    ensures { IfOk result (λ _. GoesOn T.shape walk.old.coming keeper.old
        walk.new.coming keeper.new) }
{
    if levels == 0 {
        return take_next(walk, keeper);
    }
    let kids = forest.children(node);
    let long = kids.len() > GROUP;
    let wanted = matches!(forest.symbol(node), Sight::Module { .. });
    let depth = keeper.depth();
    keeper.begin_where(wanted)?;
    let inside = keeper.depth();
    'kids: for (place, kid) in kids.iter().enumerate() {
        keeper.next_where(long && place % GROUP == 0, inside)?;
        take_below(forest, *kid, levels - 1, walk, keeper)?;
    }
    keeper.end_where(wanted || long, depth);
    Ok(())
}

/// Takes the images of all symbols of the level that are left.
pub(crate) fn take_rest<T: Lattice, W: LevelView>(
    walk: &mut Walk<'_, W>,
    keeper: &mut Keeper<T>,
) -> Result<(), AllocError>
    requires { IsGoing T.shape walk.old.coming keeper.old }
    ensures goes { IfOk result (λ _. GoesOnAlong T.shape walk.old keeper.old walk.new keeper.new) }
    ensures all { IfOk result (λ _. walk.new.coming.symbols ≡ []) }
{
    'parts: loop {
        match walk.pass() {
            Ok(Some(mut part)) => keeper.take_part(&mut part)?,
            Ok(None) => return Ok(()),
            Err(_) => unreachable!(),
        }
    }
}
