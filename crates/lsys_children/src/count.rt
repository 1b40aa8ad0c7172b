//! What the steps for some parents take.
ghost use Rattle.std.specs.Prelude.{◌≡◌, ◌≤◌, ◌^◌, length, IfOk};
ghost use Rattle.lsys_spec.specs.Draws.{number_base};
ghost use Rattle.lsys_forest.specs.Groves.{now_of, IsLive};
ghost use Rattle.lsys_reading.specs.Commands.{numbering_of};
ghost use Rattle.lsys_children.specs.Answers.{kept_successors};
ghost use Rattle.lsys_children.specs.Parents.{nodes_in, HasParents};
ghost use Rattle.lsys_children.specs.Needs.{IsBoundedCount, with_count, had_by_all};
ghost use Rattle.lsys_children.specs.Counts.{CountsAll, IsSmallFor, CountsOne, AreAddable};

use crate::anew::count_anew;
use crate::brood::Brood;
use crate::need::Need;
use crate::parent::{Parent, fill_for};
use crate::wanted::Wanted;
use lsys_forest::Forest;
use lsys_reading::Lineage;
use lsys_reads::KeptAnswer;
use std::alloc::AllocError;
use std::sync::ledger::Ledger;

/// What the steps for some parents take together, how many children are wanted of them, and how many they have.
#[derive(Clone, Copy, Debug, Drop)]
pub struct ChildCount {
    pub need: Need,
    pub wanted: usize,
    pub had: usize,
}

/// Counts what the steps for these parents take, how many children are wanted of them, and how many they have. The forest is
/// only read.
///
/// # Errors
///
/// Out of memory.
pub fn count_children<L: Ledger>(
    forest: &Forest<KeptAnswer<L>>,
    numbering: Lineage,
    parents: &[Parent],
    wanted: &mut Wanted,
    brood: &mut Brood,
) -> Result<ChildCount, AllocError>
    requires parents { HasParents (now_of forest.now) forest.now.root (nodes_in parents.now) }
    requires few { length parents.now ≤ 2 ^ 32 }
    requires had { had_by_all (now_of forest.now) parents.now ≤ 2 ^ 32 }
    ensures count { IfOk result (CountsAll (numbering_of numbering) (now_of forest.now) parents.now) }
    ensures few { IfOk result (IsSmallFor (now_of forest.now) parents.now) }
{
    let mut count = NONE;
    for parent in parents {
        let one = count_one(forest, numbering, *parent, wanted, brood)?;
        count = both(&count, &one);
    }
    Ok(count)
}

/// Counts these of one parent.
fn count_one<L: Ledger>(
    forest: &Forest<KeptAnswer<L>>,
    numbering: Lineage,
    parent: Parent,
    wanted: &mut Wanted,
    brood: &mut Brood,
) -> Result<ChildCount, AllocError>
    requires lives { IsLive forest.now parent.node }
    requires short { length (kept_successors (now_of forest.now) parent.node) ≤ number_base }
    ensures count { IfOk result (CountsOne (numbering_of numbering) (now_of forest.now) parent) }
    ensures few { IfOk result (λ count. IsBoundedCount 1 count.had count) }
{
    let node = parent.node;
    if forest.children(node).is_empty() {
        return Ok(count_anew(forest, parent));
    }
    fill_for(wanted, forest, numbering, parent)?;
    let children = wanted.children();
    let need = brood.count(forest, node, children)?;
    Ok(ChildCount {
        need,
        wanted: children.len(),
        had: forest.children(node).len(),
    })
}

/// Nothing.
const NONE: ChildCount = ChildCount {
    need: Need {
        nodes: 0,
        params: 0,
        kids: 0,
        notes: 0,
        told: 0,
    },
    wanted: 0,
    had: 0,
};

/// Both together.
fn both(one: &ChildCount, more: &ChildCount) -> ChildCount
    requires { AreAddable one.now more.now }
    ensures { result ≡ with_count one.now more.now }
{
    ChildCount {
        need: Need {
            nodes: one.need.nodes + more.need.nodes,
            params: one.need.params + more.need.params,
            kids: one.need.kids + more.need.kids,
            notes: one.need.notes + more.need.notes,
            told: one.need.told + more.need.told,
        },
        wanted: one.wanted + more.wanted,
        had: one.had + more.had,
    }
}
