//! The lists that nodes have: their runs stand at the nodes.
ghost use Rattle.std.specs.Prelude.{◌≡◌, ◌≢◌, ◌+◌, ◌<◌, ◌≤◌, ◌^◌, ℕ, [], length, IsSome, None, Some, slice_get, slice_set};
ghost use Rattle.lsys_spec.specs.Rows.{In, AreApart};
ghost use Rattle.lsys_region.specs.Rooms.{list_room};
ghost use Rattle.lsys_forest.specs.Shelves.{IsOwner};
ghost use Rattle.lsys_forest.specs.Slots.{slot_at, rank_at, no_footing, live_slots};
ghost use Rattle.lsys_forest.specs.Answers.{Lives, Releases};
ghost use Rattle.lsys_forest.specs.Stocks.{Inserts, Swaps, Clears};
ghost use Rattle.lsys_forest.specs.Ranks.{Joins, LinksRow, KeepsOtherRanks, KeepsLinks, KeepsMates, IsApartFrom};
ghost use Rattle.lsys_forest.specs.NodeLists.{OnParams, OnKids, RestoresAt, kept_answer};
ghost use Rattle.lsys_forest.specs.SlotChanges.{KeepsOtherFootings};

use crate::kept::{Kept, release_one};
use crate::lists::Lists;
use crate::node::{NodeEntry, NodeId, Stored, nowhere};
use crate::table::NodeTable;

/// Gives a node these parameters, and puts those that it had after the past ones. It takes no memory.
pub(crate) fn swap_params<A: Drop>(
    table: &mut NodeTable<A>,
    lists: &mut Lists<i64>,
    node: NodeId,
    list: &[i64],
)
    requires owned { IsOwner lists.old table.old.param_runs }
    requires lives { IsSome (slot_at table.old.slots node) }
    requires room { list_room list.now ≤ lists.old.pool.spare }
    requires place { length lists.old.past < lists.old.past_places }
    ensures owned { IsOwner lists.new table.new.param_runs }
    ensures swapped { OnParams (Swaps node list.now) lists.old table.old lists.new table.new }
    ensures table { table.new ≡ record table.old { param_runs = table.new.param_runs } }
{
    let run = lists.place(list);
    let before = table.swap_params(node, run);
    lists.push(before);
}

/// Gives a node these children, and puts those that it had after the past ones. It takes no memory.
pub(crate) fn swap_kids<A: Drop>(
    table: &mut NodeTable<A>,
    lists: &mut Lists<NodeId>,
    node: NodeId,
    list: &[NodeId],
)
    requires owned { IsOwner lists.old table.old.kid_runs }
    requires lives { IsSome (slot_at table.old.slots node) }
    requires room { list_room list.now ≤ lists.old.pool.spare }
    requires place { length lists.old.past < lists.old.past_places }
    ensures owned { IsOwner lists.new table.new.kid_runs }
    ensures swapped { OnKids (Swaps node list.now) lists.old table.old lists.new table.new }
    ensures table { table.new ≡ record table.old { kid_runs = table.new.kid_runs } }
{
    let run = lists.place(list);
    let before = table.swap_kids(node, run);
    lists.push(before);
}

/// Gives a node the last of the past parameters, and frees those that it has. It takes no memory.
pub(crate) fn restore_params<A: Drop>(
    table: &mut NodeTable<A>,
    lists: &mut Lists<i64>,
    node: NodeId,
)
    requires owned { IsOwner lists.old table.old.param_runs }
    ensures owned { IsOwner lists.new table.new.param_runs }
    ensures restored { OnParams (RestoresAt table.old node) lists.old table.old lists.new table.new }
    ensures table { table.new ≡ record table.old { param_runs = table.new.param_runs } }
{
    if let Some(run) = lists.pop() {
        let displaced = table.swap_params(node, run);
        lists.free(displaced);
    }
}

/// Gives a node the last of the past lists of children, and frees the one that it has. It takes no memory.
pub(crate) fn restore_kids<A: Drop>(
    table: &mut NodeTable<A>,
    lists: &mut Lists<NodeId>,
    node: NodeId,
)
    requires owned { IsOwner lists.old table.old.kid_runs }
    ensures owned { IsOwner lists.new table.new.kid_runs }
    ensures restored { OnKids (RestoresAt table.old node) lists.old table.old lists.new table.new }
    ensures table { table.new ≡ record table.old { kid_runs = table.new.kid_runs } }
{
    if let Some(run) = lists.pop() {
        let displaced = table.swap_kids(node, run);
        lists.free(displaced);
    }
}

/// Adds a node with these parameters and no children, and answers its number. It takes no memory.
pub(crate) fn insert<A: Drop>(
    table: &mut NodeTable<A>,
    params: &mut Lists<i64>,
    kids: &mut Lists<NodeId>,
    node: Stored<A>,
    list: &[i64],
) -> NodeId
    requires params { IsOwner params.old table.old.param_runs }
    requires kids { IsOwner kids.old table.old.kid_runs }
    requires capacity { live_slots table.old.slots < table.old.capacity }
    requires numbers { table.old.capacity ≤ 2 ^ 32 }
    requires room { list_room list.now ≤ params.old.pool.spare }
    ensures next { result ≡ table.old.next }
    ensures vacant { slot_at table.old.slots result ≡ None }
    ensures here { slot_at table.new.slots result ≡ Some node }
    ensures others { (j : ℕ) → j ≢ result → slot_at table.new.slots j ≡ slot_at table.old.slots j }
    ensures footings { KeepsOtherFootings result table.old.footings table.new.footings }
    ensures live { live_slots table.new.slots ≡ live_slots table.old.slots + 1 }
    ensures capacity { table.new.capacity ≡ table.old.capacity }
    ensures params { IsOwner params.new table.new.param_runs }
    ensures kids { IsOwner kids.new table.new.kid_runs }
    ensures has_params { OnParams (Inserts result list.now) params.old table.old params.new table.new }
    ensures no_kids { OnKids (Inserts result []) kids.old table.old kids.new table.new }
{
    let entry = NodeEntry {
        node,
        params: params.place(list),
        kids: kids.place(&[]),
        footing: nowhere(),
    };
    table.insert(entry)
}

/// Removes a node that lives, frees its parameters, and puts its children after the past ones. It takes no memory.
pub(crate) fn take_out<A: Drop>(
    table: &mut NodeTable<A>,
    params: &mut Lists<i64>,
    kids: &mut Lists<NodeId>,
    node: NodeId,
) -> Stored<A>
    requires params { IsOwner params.old table.old.param_runs }
    requires kids { IsOwner kids.old table.old.kid_runs }
    requires lives { IsSome (slot_at table.old.slots node) }
    requires place { length kids.old.past < kids.old.past_places }
    ensures was { slot_at table.old.slots node ≡ Some result }
    ensures slots { table.new.slots ≡ slice_set table.old.slots node None }
    ensures footings { table.new.footings ≡ slice_set table.old.footings node no_footing }
    ensures capacity { table.new.capacity ≡ table.old.capacity }
    ensures params { IsOwner params.new table.new.param_runs }
    ensures kids { IsOwner kids.new table.new.kid_runs }
    ensures no_params { OnParams (Clears node) params.old table.old params.new table.new }
    ensures no_kids { OnKids (Swaps node []) kids.old table.old kids.new table.new }
{
    let Some(removed) = table.remove(node) else {
        unreachable!()
    };
    params.free(removed.params);
    kids.push(removed.kids);
    removed.node
}

/// Removes a node, if it lives, frees its lists and releases its answer. It takes no memory.
pub(crate) fn clear<A: Kept>(
    table: &mut NodeTable<A>,
    params: &mut Lists<i64>,
    kids: &mut Lists<NodeId>,
    node: NodeId,
    store: &mut A::Store,
)
    requires params { IsOwner params.old table.old.param_runs }
    requires kids { IsOwner kids.old table.old.kid_runs }
    requires made { Lives A.run_at A.Holds store.old (kept_answer table.old node) }
    ensures slots { table.new.slots ≡ slice_set table.old.slots node None }
    ensures footings { table.new.footings ≡ slice_set table.old.footings node no_footing }
    ensures capacity { table.new.capacity ≡ table.old.capacity }
    ensures params { IsOwner params.new table.new.param_runs }
    ensures kids { IsOwner kids.new table.new.kid_runs }
    ensures no_params { OnParams (Clears node) params.old table.old params.new table.new }
    ensures no_kids { OnKids (Clears node) kids.old table.old kids.new table.new }
    ensures released { Releases A.run_at A.Holds (kept_answer table.old node) store.old store.new }
{
    if let Some(entry) = table.remove(node) {
        params.free(entry.params);
        kids.free(entry.kids);
        release_one(entry.node.answer, store);
    }
}

/// Gives each of these nodes its place among them as its rank.
pub(crate) fn number<A: Drop>(table: &mut NodeTable<A>, kids: &[NodeId])
    requires apart { AreApart kids.now }
    requires live { (k : ℕ) → In k kids.now → IsSome (slot_at table.old.slots k) }
    ensures stands { (i k : ℕ) → slice_get kids.now i ≡ Some k → rank_at table.new.footings k ≡ i }
    ensures others { KeepsOtherRanks kids.now table.old.footings table.new.footings }
    ensures links { KeepsLinks table.old.footings table.new.footings }
    ensures mates { KeepsMates table.old.footings table.new.footings }
    ensures table { table.new ≡ record table.old { footings = table.new.footings } }
{
    for place in 0..kids.len() {
        table.set_rank(kids[place], place);
    }
}

/// Links these nodes to one another, the first of them after this one, and answers the last.
pub(crate) fn link_row<A: Drop>(
    table: &mut NodeTable<A>,
    kids: &[NodeId],
    before: Option<NodeId>,
) -> Option<NodeId>
    requires apart { AreApart kids.now }
    requires live { (k : ℕ) → In k kids.now → IsSome (slot_at table.old.slots k) }
    requires before { IsApartFrom (slot_at table.old.slots) kids.now before }
    ensures row { LinksRow table.old.footings table.new.footings before kids.now result }
    ensures table { table.new ≡ record table.old { footings = table.new.footings } }
{
    let mut last = before;
    for place in 0..kids.len() {
        let kid = kids[place];
        join(table, last, kid);
        last = Some(kid);
    }
    last
}

/// Links a node after the last one, if there is one.
fn join<A: Drop>(table: &mut NodeTable<A>, last: Option<NodeId>, kid: NodeId)
    requires lives { IsSome (slot_at table.old.slots kid) }
    requires last { (k : ℕ) → last ≡ Some k → IsSome (slot_at table.old.slots k) × (k ≢ kid) }
    ensures joins { Joins table.old.footings table.new.footings last kid }
    ensures table { table.new ≡ record table.old { footings = table.new.footings } }
{
    match last {
        Some(node) => {
            table.set_right(node, Some(kid));
            table.set_links(kid, Some(node), None);
        }
        None => table.set_links(kid, None, None),
    }
}
