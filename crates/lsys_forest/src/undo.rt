//! The undoing of changes.
ghost use Rattle.std.specs.Prelude.{◌≡◌, ◌≤◌, [], IsTrue, false};
ghost use Rattle.lsys_forest.specs.Slots.{live_slots};
ghost use Rattle.lsys_forest.specs.Changes.{undone};
ghost use Rattle.lsys_forest.specs.Stocks.{nodes_of, changes_of, KeepsRoom};
ghost use Rattle.lsys_forest.specs.Answers.{LiveApart};
ghost use Rattle.lsys_forest.specs.Groves.{AreSound};
ghost use Rattle.lsys_forest.specs.Ranks.{AreRanked, AreLinked};
ghost use Rattle.lsys_forest.specs.LastChange.{answers_in, StaysUnchanged, UndoDropsMade, GoesBack, StoreFollows};

use crate::kept::Kept;
use crate::node::NodeId;
use crate::stock::Parts;

/// Undoes each change, the last first.
pub(crate) fn undo_all<A: Kept>(
    parts: &mut Parts<A>,
    root: NodeId,
    linked: &mut u32,
    store: &mut A::Store,
)
    requires sound { AreSound root (changes_of parts.old) (nodes_of parts.old) }
    requires ranked { AreRanked (nodes_of parts.old) parts.old.footings }
    requires linked { AreLinked (nodes_of parts.old) root parts.old.footings linked.old }
    requires made { LiveApart A.run_at A.Holds store.old (answers_in parts.old) }
    ensures nodes { nodes_of parts.new ≡ undone (changes_of parts.old) (nodes_of parts.old) }
    ensures empty { changes_of parts.new ≡ [] }
    ensures live { live_slots parts.new.slots ≤ live_slots parts.old.slots }
    ensures room { KeepsRoom parts.old parts.new }
    ensures ranked { AreRanked (nodes_of parts.new) parts.new.footings }
    ensures linked { AreLinked (nodes_of parts.new) root parts.new.footings linked.new }
    ensures made { LiveApart A.run_at A.Holds store.new (answers_in parts.new) }
    ensures freed { StoreFollows A.run_at A.Holds parts.old store.old parts.new store.new }
{
    while undo_one(parts, root, linked, store) {}
}

/// Undoes the last change, and tells whether there was one.
fn undo_one<A: Kept>(
    parts: &mut Parts<A>,
    root: NodeId,
    linked: &mut u32,
    store: &mut A::Store,
) -> bool
    requires sound { AreSound root (changes_of parts.old) (nodes_of parts.old) }
    requires ranked { AreRanked (nodes_of parts.old) parts.old.footings }
    requires linked { AreLinked (nodes_of parts.old) root parts.old.footings linked.old }
    requires made { UndoDropsMade A.run_at A.Holds parts.old store.old }
    ensures undone { IsTrue result → GoesBack A.run_at A.Holds parts.old parts.new store.old store.new }
    ensures none { result ≡ false → StaysUnchanged parts.old parts.new store.old store.new }
    ensures ranked { AreRanked (nodes_of parts.new) parts.new.footings }
    ensures linked { AreLinked (nodes_of parts.new) root parts.new.footings linked.new }
{
    let family = parts.last_family();
    if !parts.undo_last(store) {
        return false;
    }
    if let Some(node) = family {
        parts.rerank(node);
        *linked = (*linked).min(parts.depth(node));
    }
    true
}
