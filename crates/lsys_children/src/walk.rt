//! The nodes of a level as parents, from the left.
ghost use Rattle.std.specs.Prelude.{◌≡◌, ◌≤◌, ◌<◌, ◌+◌, ◌^◌, ℕ, true, false, if◌then◌else◌, None, IfOk, IfSome, OnOk, length};
ghost use Rattle.lsys_spec.specs.Rows.{In};
ghost use Rattle.lsys_laws.specs.Kinds.{stays, reached};
ghost use Rattle.lsys_level.specs.Views.{seen_of};
ghost use Rattle.lsys_forest.specs.Groves.{now_of, IsLive};
ghost use Rattle.lsys_children.specs.Children.{bracket_kind};
ghost use Rattle.lsys_children.specs.WalkedParents.{HaveShortSuccessors, AreWalked, NoneReaches};

use crate::opens::is_open;
use crate::parent::Parent;
use lsys_forest::{Forest, NodeId};
use lsys_level::Sight;
use lsys_reads::KeptAnswer;
use std::alloc::AllocError;
use std::sync::ledger::Ledger;

/// Adds the nodes of a level as parents, and tells of each whether a cut before it cuts its children off. The answer tells
/// whether a cut among the children of one of them reaches what stands after it.
///
/// # Errors
///
/// Out of memory.
pub fn walk_parents<L: Ledger>(
    forest: &Forest<KeptAnswer<L>>,
    nodes: &[NodeId],
    parents: &mut Vec<Parent>,
) -> Result<bool, AllocError>
    requires lives { (k : ℕ) → In k nodes.now → IsLive forest.now k }
    requires short { HaveShortSuccessors (now_of forest.now) nodes.now }
    requires few { length nodes.now < 2 ^ 32 }
    ensures parents { OnOk result (AreWalked forest.now nodes.now parents.old parents.new) }
    ensures closed { IfOk result (λ opens. opens ≡ false → NoneReaches (now_of forest.now) nodes.now) }
{
    let mut any_opens = false;
    let mut cutting = None;
    for node in nodes {
        let opens = is_open(forest, *node);
        let sight = forest.symbol(*node);
        let is_cut = !stays(cutting, &sight);
        cutting = reached(cutting, &sight, opens);
        parents.push(Parent {
            node: *node,
            is_cut,
        })?;
        any_opens = either(any_opens, opens);
    }
    Ok(any_opens)
}

/// One or the other.
fn either(one: bool, other: bool) -> bool
    ensures { result ≡ (if one then true else other) }
{
    one || other
}

/// Whether a symbol stays, where a branch is being cut off in which so many others are open, or none is.
fn stays(cutting: Option<u32>, symbol: &Sight<'_>) -> bool
    ensures { result ≡ stays cutting (bracket_kind (seen_of symbol.now)) }
{
    match (cutting, symbol) {
        (None, _) => true,
        (Some(0), Sight::Pop) => true,
        _ => false,
    }
}

/// After a symbol, whether a branch is being cut off and how many others are open in it.
fn reached(cutting: Option<u32>, symbol: &Sight<'_>, opens: bool) -> Option<u32>
    requires { IfSome cutting (λ branches. branches + 1 < 2 ^ 32) }
    ensures reached { result ≡ reached cutting (bracket_kind (seen_of symbol.now)) opens }
    ensures few { IfSome result (λ branches. IfSome cutting (λ before. branches ≤ before + 1)) }
    ensures first { cutting ≡ None → IfSome result (λ branches. branches ≡ 0) }
{
    match (cutting, symbol) {
        (None, Sight::Module { .. }) if opens => Some(0),
        (None, _) => None,
        (Some(branches), Sight::Push) => Some(branches + 1),
        (Some(branches), Sight::Pop) => branches.checked_sub(1),
        (cutting, _) => cutting,
    }
}
