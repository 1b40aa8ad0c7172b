//! The removal of nodes that are reached no more.
ghost use Rattle.std.specs.Prelude.{◌≡◌, ◌↔◌, slice_get, ◌+◌, ◌≤◌, [], length, false, Some, IsSome, IsTrue};
ghost use Rattle.lsys_spec.specs.Rows.{In};
ghost use Rattle.lsys_forest.specs.Slots.{live_slots};
ghost use Rattle.lsys_forest.specs.Nodes.{Node};
ghost use Rattle.lsys_forest.specs.Answers.{LiveApart, Lives, old_answer};
ghost use Rattle.lsys_forest.specs.Stocks.{nodes_of, changes_of, named_by, KeepsRoom, KeepsFootings};
ghost use Rattle.lsys_forest.specs.Groves.{IsRooted};
ghost use Rattle.lsys_forest.specs.Ranks.{AreRanked};
ghost use Rattle.lsys_forest.specs.Sweeps.{IsSwept, SweepsLeft, KeepsPlaces, SweepsOne, IsLooseIf, IsFastUnless, LacksKidUnless};
ghost use Rattle.lsys_forest.specs.Loosened.{AreLoose};
ghost use Rattle.lsys_forest.specs.LastChange.{answers_in, StoreFollows, ForLastChange, StaysUnchanged, ForgetsOne};

use crate::kept::Kept;
use crate::loose::is_none;
use crate::node::NodeId;
use crate::note::Look;
use crate::stock::Parts;
use crate::walk::kid_at;

/// Whether the node lives, and is not among the children of its parent.
pub(crate) fn is_loose<A: Kept>(parts: &Parts<A>, node: NodeId) -> bool
    ensures lives { IsTrue result → IsSome (nodes_of parts.now node) }
    ensures apart { IsLooseIf result parts.now node }
    ensures linked { IsFastUnless result parts.now node }
{
    match parts.get(node) {
        Some(found) => !has_kid(parts, found.parent, node),
        None => false,
    }
}

/// Whether the first node lives, and has the second among its children.
fn has_kid<A: Kept>(parts: &Parts<A>, parent: NodeId, node: NodeId) -> bool
    ensures has { IsTrue result → (p : Node A) × (nodes_of parts.now parent ≡ Some p) × In node p.kids }
    ensures lacks { LacksKidUnless result parts.now parent node }
{
    match parts.get(parent) {
        Some(_) => stands_at(parts.kids(parent), node, parts.rank(node)),
        None => false,
    }
}

/// Whether the node stands at this place among these.
fn stands_at(kids: &[NodeId], node: NodeId, place: usize) -> bool
    ensures { IsTrue result ↔ (slice_get kids.now place ≡ Some node) }
{
    match kid_at(kids, place) {
        Some(kid) => kid == node,
        None => false,
    }
}

/// Removes the node if it is loose, and notes its children.
fn sweep<A: Kept>(parts: &mut Parts<A>, root: NodeId, node: NodeId, store: &mut A::Store)
    requires places { live_slots parts.old.slots ≤ parts.old.note_room }
    requires made { LiveApart A.run_at A.Holds store.old (answers_in parts.old) }
    ensures swept { SweepsOne root parts.old parts.new node }
    ensures keeps { KeepsPlaces parts.old parts.new }
    ensures made { LiveApart A.run_at A.Holds store.new (answers_in parts.new) }
    ensures freed { StoreFollows A.run_at A.Holds parts.old store.old parts.new store.new }
{
    if node != root && is_loose(parts, node) {
        parts.remove(node, store);
    }
}

/// Sweeps the children in hand.
fn sweep_hand<A: Kept>(parts: &mut Parts<A>, root: NodeId, store: &mut A::Store)
    requires places { live_slots parts.old.slots ≤ parts.old.note_room }
    requires made { LiveApart A.run_at A.Holds store.old (answers_in parts.old) }
    ensures swept { SweepsLeft root parts.old parts.new parts.old.hand }
    ensures keeps { KeepsPlaces parts.old parts.new }
    ensures made { LiveApart A.run_at A.Holds store.new (answers_in parts.new) }
    ensures freed { StoreFollows A.run_at A.Holds parts.old store.old parts.new store.new }
{
    for place in 0..parts.in_hand().len() {
        let kid = parts.in_hand()[place];
        sweep(parts, root, kid, store);
    }
}

/// Sweeps the nodes that a change names.
fn sweep_looked<A: Kept>(parts: &mut Parts<A>, root: NodeId, look: Look, store: &mut A::Store)
    requires places { live_slots parts.old.slots ≤ parts.old.note_room }
    requires made { LiveApart A.run_at A.Holds store.old (answers_in parts.old) }
    ensures swept { SweepsLeft root parts.old parts.new (named_by look parts.old.hand) }
    ensures keeps { KeepsPlaces parts.old parts.new }
    ensures made { LiveApart A.run_at A.Holds store.new (answers_in parts.new) }
    ensures freed { StoreFollows A.run_at A.Holds parts.old store.old parts.new store.new }
{
    match look {
        Look::Node(node) => sweep(parts, root, node, store),
        Look::Hand => sweep_hand(parts, root, store),
        Look::Nothing => {}
    }
}

/// Removes each node that is not reached from the root, where at most so many are among no children. Where none is, none is looked at.
pub(crate) fn sweep_all<A: Kept>(
    parts: &mut Parts<A>,
    root: NodeId,
    loose: Option<usize>,
    store: &mut A::Store,
)
    requires places { live_slots parts.old.slots ≤ parts.old.note_room }
    requires sound { IsRooted root (changes_of parts.old) (nodes_of parts.old) }
    requires ranked { AreRanked (nodes_of parts.old) parts.old.footings }
    requires loose { AreLoose loose (nodes_of parts.old) root }
    requires made { LiveApart A.run_at A.Holds store.old (answers_in parts.old) }
    ensures swept { IsSwept (nodes_of parts.old) root (nodes_of parts.new) [] [] }
    ensures footings { KeepsFootings (nodes_of parts.new) parts.old parts.new }
    ensures ranked { AreRanked (nodes_of parts.new) parts.new.footings }
    ensures empty { changes_of parts.new ≡ [] }
    ensures live { live_slots parts.new.slots ≤ live_slots parts.old.slots }
    ensures room { KeepsRoom parts.old parts.new }
    ensures made { LiveApart A.run_at A.Holds store.new (answers_in parts.new) }
    ensures freed { StoreFollows A.run_at A.Holds parts.old store.old parts.new store.new }
{
    if is_none(loose) {
        forget_all(parts, store);
    } else {
        sweep_named(parts, root, store);
    }
}

/// Takes up each change, and removes no node.
fn forget_all<A: Kept>(parts: &mut Parts<A>, store: &mut A::Store)
    requires { LiveApart A.run_at A.Holds store.old (answers_in parts.old) }
    ensures nodes { nodes_of parts.new ≡ nodes_of parts.old }
    ensures footings { parts.new.footings ≡ parts.old.footings }
    ensures empty { changes_of parts.new ≡ [] }
    ensures live { live_slots parts.new.slots ≡ live_slots parts.old.slots }
    ensures room { KeepsRoom parts.old parts.new }
    ensures made { LiveApart A.run_at A.Holds store.new (answers_in parts.new) }
    ensures freed { StoreFollows A.run_at A.Holds parts.old store.old parts.new store.new }
{
    while forget_one(parts, store) {}
    parts.put_down();
}

/// Takes up the last change, and tells whether there was one.
#[inline]
fn forget_one<A: Kept>(parts: &mut Parts<A>, store: &mut A::Store) -> bool
    requires { ForLastChange parts.old (λ c. Lives A.run_at A.Holds store.old (old_answer c)) }
    ensures one { IsTrue result → ForgetsOne A.run_at A.Holds parts.old parts.new store.old store.new }
    ensures none { result ≡ false → StaysUnchanged parts.old parts.new store.old store.new }
{
    parts.take_last(store).is_some()
}

/// Removes each node that is not reached from the root, by a look at those that a change names.
fn sweep_named<A: Kept>(parts: &mut Parts<A>, root: NodeId, store: &mut A::Store)
    requires places { live_slots parts.old.slots ≤ parts.old.note_room }
    requires sound { IsRooted root (changes_of parts.old) (nodes_of parts.old) }
    requires ranked { AreRanked (nodes_of parts.old) parts.old.footings }
    requires made { LiveApart A.run_at A.Holds store.old (answers_in parts.old) }
    ensures swept { IsSwept (nodes_of parts.old) root (nodes_of parts.new) [] [] }
    ensures footings { KeepsFootings (nodes_of parts.new) parts.old parts.new }
    ensures ranked { AreRanked (nodes_of parts.new) parts.new.footings }
    ensures empty { changes_of parts.new ≡ [] }
    ensures live { live_slots parts.new.slots ≤ live_slots parts.old.slots }
    ensures room { KeepsRoom parts.old parts.new }
    ensures made { LiveApart A.run_at A.Holds store.new (answers_in parts.new) }
    ensures freed { StoreFollows A.run_at A.Holds parts.old store.old parts.new store.new }
{
    while let Some(look) = parts.take_last(store) {
        sweep_looked(parts, root, look, store);
    }
    parts.put_down();
}
