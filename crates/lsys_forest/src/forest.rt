//! The forest.
ghost use Rattle.std.specs.Prelude.{◌↔◌, ◌≡◌, ◌≢◌, ◌+◌, ◌<◌, ◌≤◌, ◌^◌, ℕ, [], None, Some, IfOk, IfSome, OnOk, IsTrue, option_copied, length, max, List, ℤ};
ghost use Rattle.lsys_module.specs.declared.symbol.Symbol.TheVariants.{Cut};
ghost use Rattle.lsys_level.specs.Places.{seen_in, params_in};
ghost use Rattle.lsys_level.specs.Views.{seen_of, HasFewParams};
ghost use Rattle.lsys_region.specs.Rooms.{list_room};
ghost use Rattle.lsys_forest.specs.Nodes.{Node, root_node, with_seen, with_key, with_kids, with_answer, ForNode};
ghost use Rattle.lsys_forest.specs.Slots.{live_slots};
ghost use Rattle.lsys_forest.specs.Stocks.{nodes_of};
ghost use Rattle.lsys_forest.specs.Answers.{LiveApart};
ghost use Rattle.lsys_forest.specs.Rows.{oriented, complete_levels, level_of_node, place_of_node, IsAtSpot, level_with};
ghost use Rattle.lsys_forest.specs.Ranks.{AreRanked, AreLinked};
ghost use Rattle.lsys_forest.specs.Groves.{now_of, rest_of, IsAtRest, IsLive, live_nodes, numbers_in, spare_params, spare_kids, kept_in, changes_in, IsRooted, AreSound, Reached, AreKids, Spends, KeepsSpares, Alters, AddsNode, NotesAnswer, KeepsReached, FreesAllBesides};
ghost use Rattle.lsys_forest.specs.Regions.{ParamsStandIn, KidsStandIn, HasNoPastLists};
ghost use Rattle.lsys_forest.specs.Neighbours.{IsNextIn, IsChildFrom, IsFirstBelow, IsLastBelow, IsLeftNode, IsRightNode, IsMateNode};

use crate::around::{Around, linked_around};
use crate::kept::Kept;
use crate::link::link_levels;
use crate::loose::{loose_beside, loose_with_one};
use crate::node::{NodeId, NodeKind};
use crate::pairs::{branches_with, find_mates, mated_still, way_to_mate};
use crate::seen::is_seen;
use crate::stock::Parts;
use crate::sweep::sweep_all;
use crate::undo::undo_all;
use crate::walk::{Way, comes_before, first_at, first_child, mate_of, next_beside};
use lsys_level::{LevelView, Sight, Tag};
use lsys_module::Symbol;
use lsys_region::Region;
use std::alloc::{AllocError, Global};
use std::marker::Model;

/// Nodes under one root, each with its children, and a journal of what they were at the last rest.
#[derive(Drop)]
pub struct Forest<A> {
    parts: Parts<A>,
    root: NodeId,
    /// How many levels, from the first one on, have their nodes linked to their neighbours.
    linked: u32,
    /// On how many levels, from the first one on, the mates of brackets stand at them.
    mated: u32,
    /// Whether there are brackets among the nodes, or were before.
    branches: bool,
    /// At most how many nodes, but for the root, are among no children; none where it isn't known.
    loose: Option<usize>,
    spare_nodes: usize,
    spare_notes: usize,
}

impl<A> Model for Forest<A> {
    ghost use Rattle.lsys_forest.specs.Groves.{Grove, IsGrove};
    ghost use Rattle.lsys_forest.specs.Ranks.{AreRanked, AreLinked};
    ghost use Rattle.lsys_forest.specs.Pairs.{AreMated, AreModulesUnless};
    ghost use Rattle.lsys_forest.specs.Loosened.{AreLoose};
    ghost use Rattle.lsys_forest.specs.Stocks.{nodes_of};

    ghost Value = { Grove A };

    ghost view = { λ a. record { stock = a.parts; root = a.root; spare_nodes = a.spare_nodes; spare_notes = a.spare_notes } };

    ghost invariant = { λ a. record {
      grove : IsGrove a.parts a.root a.spare_nodes a.spare_notes;
      ranked : AreRanked (nodes_of a.parts) a.parts.footings;
      linked : AreLinked (nodes_of a.parts) a.root a.parts.footings a.linked;
      mated : AreMated (nodes_of a.parts) a.root a.parts.footings a.mated;
      branches : AreModulesUnless a.branches a.parts a.root;
      loose : AreLoose a.loose (nodes_of a.parts) a.root;
    } };
}

/// Room is made for so many notes at least, so that it is seldom made where it is asked for one after the other.
const SOME_NOTES: usize = 64;

impl<A: Kept> Forest<A> {
    /// A forest of the root alone, at rest.
    ///
    /// # Errors
    ///
    /// Out of memory.
    pub fn new(alloc: Global) -> Result<Forest<A>, AllocError>
        ensures root { IfOk result (λ f. (k : ℕ) → k ≢ f.root → now_of f k ≡ None) }
        ensures alone { IfOk result (λ f. now_of f f.root ≡ Some (root_node f.root)) }
        ensures rest { IfOk result (λ f. IsAtRest f) }
        ensures live { IfOk result (λ f. live_nodes f ≡ 1) }
    {
        let parts = Parts::of_root(alloc)?;
        Ok(Forest {
            parts,
            root: NodeId(0),
            linked: 0,
            mated: 0,
            branches: false,
            loose: Some(0),
            spare_nodes: 0,
            spare_notes: 0,
        })
    }

    /// Makes room for so many nodes, parameters in their rooms, children in their rooms, and changes more: after it the
    /// spares are at least so much. The forest stays. It costs a few steps where there is room for nodes and changes already, and no
    /// room is asked for in the others.
    ///
    /// # Errors
    ///
    /// Out of memory; the other spares are then no less than they were. Room is never asked for more than 2^32 nodes, as many
    /// as have numbers.
    pub fn reserve(
        &mut self,
        nodes: usize,
        params: usize,
        kids: usize,
        notes: usize,
    ) -> Result<(), AllocError>
        requires numbers { live_nodes self.old + nodes < 2 ^ 32 }
        ensures now { now_of self.new ≡ now_of self.old }
        ensures changes { changes_in self.new ≡ changes_in self.old }
        ensures rest { rest_of self.new ≡ rest_of self.old }
        ensures root { self.new.root ≡ self.old.root }
        ensures spares { OnOk result (KeepsSpares self.old self.new) }
        ensures fits { numbers_in self.new ≤ 2 ^ 32 → KeepsSpares self.old self.new }
        ensures others { KeepsSpares (record self.old { spare_nodes = 0 }) self.new }
        ensures nodes { OnOk result (nodes ≤ self.new.spare_nodes) }
        ensures params { OnOk result (params ≤ spare_params self.new) }
        ensures kids { OnOk result (kids ≤ spare_kids self.new) }
        ensures notes { OnOk result (notes ≤ self.new.spare_notes) }
    {
        if nodes <= self.spare_nodes && notes <= self.spare_notes && params == 0 && kids == 0 {
            return Ok(());
        }
        let spare_nodes = nodes.max(self.spare_nodes);
        let some_notes = notes.max(SOME_NOTES);
        let spare_notes = some_notes.max(self.spare_notes);
        let places = spare_notes.saturating_add(self.parts.live() + spare_nodes);
        self.parts.reserve(params, kids, places)?;
        let room = room_for(&mut self.parts, nodes, self.spare_nodes);
        self.spare_nodes = room;
        self.spare_notes = spare_notes;
        if room < nodes {
            Err(AllocError)
        } else {
            Ok(())
        }
    }

    /// Adds a node under a parent, with no children and no answer. No other node changes. It takes no memory.
    pub fn add(
        &mut self,
        parent: NodeId,
        code: u64,
        count: u32,
        symbol: &Symbol,
        key: u64,
    ) -> NodeId
        requires parent { IsLive self.old parent }
        requires whole { symbol.now ≢ Cut }
        requires nodes { 0 < self.old.spare_nodes }
        requires notes { 0 < self.old.spare_notes }
        requires params { list_room (params_in symbol.now) ≤ spare_params self.old }
        ensures new { now_of self.old result ≡ None }
        ensures added { AddsNode self.old self.new result parent code count (seen_in symbol.now) key }
        ensures kept { kept_in self.new ≡ kept_in self.old }
        ensures spends { Spends self.old self.new 1 (list_room (params_in symbol.now)) 0 1 }
    {
        let depth = match self.parts.get(parent) {
            Some(above) => above.depth + 1,
            None => unreachable!(),
        };
        self.branches = branches_with(self.branches, symbol);
        self.loose = loose_with_one(self.loose);
        self.spare_nodes -= 1;
        self.spare_notes -= 1;
        self.parts.insert(parent, code, count, depth, symbol, key)
    }

    /// Sets the children of a node: nodes of this parent, none twice, in whatever order. Nothing else changes. It takes no
    /// memory.
    pub fn set_children(&mut self, node: NodeId, kids: &[NodeId])
        requires lives { IsLive self.old node }
        requires kids { AreKids (now_of self.old) self.old.root node kids.now }
        requires notes { 0 < self.old.spare_notes }
        requires room { list_room kids.now ≤ spare_kids self.old }
        ensures set { Alters self.old self.new node (with_kids kids.now) }
        ensures kept { kept_in self.new ≡ kept_in self.old }
        ensures spends { Spends self.old self.new 0 0 (list_room kids.now) 1 }
    {
        self.loose = loose_beside(self.loose, &self.parts, node, kids);
        self.spare_notes -= 1;
        self.parts.set_kids(node, kids);
        self.parts.rank_kids(node, kids);
        let depth = self.parts.depth(node);
        self.linked = self.linked.min(depth);
        self.mated = self.mated.min(depth);
    }

    /// Sets the symbol of a node that is not the root. Nothing else changes. It takes no memory.
    pub fn set_symbol(&mut self, node: NodeId, symbol: &Symbol)
        requires lives { IsLive self.old node }
        requires other { node ≢ self.old.root }
        requires whole { symbol.now ≢ Cut }
        requires notes { 0 < self.old.spare_notes }
        requires room { list_room (params_in symbol.now) ≤ spare_params self.old }
        ensures set { Alters self.old self.new node (with_seen (seen_in symbol.now)) }
        ensures kept { kept_in self.new ≡ kept_in self.old }
        ensures spends { Spends self.old self.new 0 (list_room (params_in symbol.now)) 0 1 }
    {
        self.spare_notes -= 1;
        let kind = self.parts.kind(node);
        let depth = self.parts.depth(node);
        self.parts.set_symbol(node, symbol);
        self.branches = branches_with(self.branches, symbol);
        self.mated = mated_still(self.mated, depth, kind, symbol);
    }

    /// Sets the key of a node that is not the root. Nothing else changes. It takes no memory.
    pub fn set_key(&mut self, node: NodeId, key: u64)
        requires lives { IsLive self.old node }
        requires other { node ≢ self.old.root }
        requires notes { 0 < self.old.spare_notes }
        ensures set { Alters self.old self.new node (with_key key) }
        ensures kept { kept_in self.new ≡ kept_in self.old }
        ensures spends { Spends self.old self.new 0 0 0 1 }
    {
        self.spare_notes -= 1;
        self.parts.set_key(node, key);
    }

    /// Sets the answer that a node keeps, or that it keeps none. Nothing else changes. It takes no memory.
    pub fn set_answer(&mut self, node: NodeId, answer: Option<A>)
        requires lives { IsLive self.old node }
        requires notes { 0 < self.old.spare_notes }
        ensures set { Alters self.old self.new node (with_answer answer) }
        ensures noted { NotesAnswer self.old self.new node }
        ensures spends { Spends self.old self.new 0 0 0 1 }
    {
        self.spare_notes -= 1;
        self.parts.set_answer(node, answer);
    }

    /// Links the nodes of the levels up to this one to their neighbours, and brackets to their mates, where they aren't linked
    /// yet: a step along a linked level is one look, and no climb, and so is the way to a mate. Children that are set, now or by
    /// a rollback, unlink the level that they are on and those below. Mates go with the links, and also from the level of a
    /// symbol that is set where a bracket comes or goes, and from all levels at a rollback: the next call finds them again. What
    /// a call answers doesn't depend on links, nor what it needs. It takes no memory.
    pub fn link(&mut self, level: u32)
        ensures now { now_of self.new ≡ now_of self.old }
        ensures changes { changes_in self.new ≡ changes_in self.old }
        ensures rest { rest_of self.new ≡ rest_of self.old }
        ensures root { self.new.root ≡ self.old.root }
        ensures levels { complete_levels self.new ≡ complete_levels self.old }
        ensures spends { Spends self.old self.new 0 0 0 0 }
        ensures spares { KeepsSpares self.old self.new }
    {
        let levels = level.saturating_add(1);
        self.linked = link_levels(&mut self.parts, self.root, self.linked, levels);
        self.mated = find_mates(
            &mut self.parts,
            self.root,
            self.branches,
            self.mated,
            self.linked,
        );
    }

    /// On how many levels, from the first one on, the nodes are linked to their neighbours: those below them are what
    /// [`Forest::link`] has to go through. It costs no step.
    pub fn linked(&self) -> u32
        ensures { AreLinked (now_of self.now) self.now.root self.now.stock.footings result }
    {
        self.linked
    }

    /// The root. A forest is sound: its nodes hang together under the root, and did so at any time since the last rest.
    pub fn root(&self) -> NodeId
        ensures root { result ≡ self.now.root }
        ensures sound { IsRooted self.now.root (changes_in self.now) (now_of self.now) }
        ensures always { AreSound self.now.root (changes_in self.now) (now_of self.now) }
    {
        self.root
    }

    /// How many nodes live, the root among them.
    pub fn live(&self) -> usize
        ensures { result ≡ live_nodes self.now }
    {
        self.parts.live()
    }

    /// The regions in which the parameters of its nodes and the lists of their children stand, each list in a run of its own. No
    /// other run is live, but for those of the lists that nodes had before a change since the last rest: at rest nothing else
    /// takes room. It costs no step.
    pub fn regions(&self) -> (&Region<i64>, &Region<NodeId>)
        ensures params { ParamsStandIn self.now result.0.now }
        ensures kids { KidsStandIn self.now result.1.now }
        ensures rest { IsAtRest self.now → HasNoPastLists self.now }
    {
        self.parts.regions()
    }

    /// For how many nodes there is room. Each live node's number is below it. Only [`Forest::reserve`] raises it: so room for
    /// something of each node can be made before the nodes are.
    pub fn numbers(&self) -> usize
        ensures count { result ≡ numbers_in self.now }
        ensures below { (k : ℕ) → IsLive self.now k → k < result }
    {
        self.parts.numbers()
    }

    /// The answer that a node keeps, if it keeps one.
    pub fn answer(&self, node: NodeId) -> Option<&A>
        requires { IsLive self.now node }
        ensures { (n : Node A) → now_of self.now node ≡ Some n → option_copied result ≡ n.answer }
    {
        match self.parts.get(node) {
            Some(found) => found.answer.as_ref(),
            None => None,
        }
    }

    /// The children of a node, as they were last set, in order: distinct nodes of this parent. The forest is sound, so the
    /// parent is above them.
    pub fn children(&self, node: NodeId) -> &[NodeId]
        requires { IsLive self.now node }
        ensures kids { (n : Node A) → now_of self.now node ≡ Some n → result.now ≡ n.kids }
        ensures under { AreKids (now_of self.now) self.now.root node result.now }
        ensures sound { IsRooted self.now.root (changes_in self.now) (now_of self.now) }
    {
        self.parts.kids(node)
    }

    /// The symbol of a node, of whatever level; of the root, which has none, `[`.
    pub fn symbol(&self, node: NodeId) -> Sight<'_>
        requires { IsLive self.now node }
        ensures few { HasFewParams result }
        ensures seen { (n : Node A) → now_of self.now node ≡ Some n → seen_of result ≡ n.seen }
    {
        self.parts.symbol(node)
    }

    /// Whether a node, of whatever level, has this symbol.
    pub fn has_symbol(&self, node: NodeId, symbol: &Symbol) -> bool
        requires lives { IsLive self.now node }
        requires whole { symbol.now ≢ Cut }
        ensures { ForNode (now_of self.now) node (λ n. IsTrue result ↔ (n.seen ≡ seen_in symbol.now)) }
    {
        is_seen(self.symbol(node), symbol)
    }

    /// The key of a node, of whatever level; of the root, which has none, 0.
    pub fn key_of(&self, node: NodeId) -> u64
        requires { IsLive self.now node }
        ensures { (n : Node A) → now_of self.now node ≡ Some n → result ≡ n.key }
    {
        self.parts.key(node)
    }

    /// The code and the count that name a node under its parent. The node is not the root.
    pub fn number(&self, node: NodeId) -> (u64, u32)
        requires lives { IsLive self.now node }
        requires other { node ≢ self.now.root }
        ensures { ForNode (now_of self.now) node (λ n. (result.0 ≡ n.code) × (result.1 ≡ n.count)) }
    {
        match self.parts.get(node) {
            Some(found) => (found.code, found.count),
            None => unreachable!(),
        }
    }

    /// The parent of a node, of whatever level; none of the root. It costs one step.
    pub fn parent(&self, node: NodeId) -> Option<NodeId>
        requires { IsLive self.now node }
        ensures root { node ≡ self.now.root → result ≡ None }
        ensures up { node ≢ self.now.root
            → ForNode (now_of self.now) node (λ n. result ≡ Some n.parent) }
        ensures lives { IfSome result (IsLive self.now) }
        ensures sound { IsRooted self.now.root (changes_in self.now) (now_of self.now) }
    {
        if node == self.root {
            return None;
        }
        match self.parts.get(node) {
            Some(found) => Some(found.parent),
            None => unreachable!(),
        }
    }

    /// Gives back the forest of the last rest, node for node, and gives back the runs of the answers that were set since.
    /// It takes no memory.
    pub fn rollback(&mut self, store: &mut A::Store)
        requires made { LiveApart A.run_at A.Holds store.old (kept_in self.old) }
        ensures now { now_of self.new ≡ rest_of self.old }
        ensures rest { IsAtRest self.new }
        ensures root { self.new.root ≡ self.old.root }
        ensures spares { Spends self.old self.new 0 0 0 0 }
        ensures store { FreesAllBesides A.run_at A.Holds self.old (rest_of self.old) store.old store.new }
        ensures still { LiveApart A.run_at A.Holds store.new (kept_in self.new) }
    {
        undo_all(&mut self.parts, self.root, &mut self.linked, store);
        self.mated = 0;
        self.loose = Some(0);
    }

    /// Keeps the forest as it is, as a rest: the nodes that are reached from the root stay node for node, and all others
    /// are given back, with the runs of all answers that are kept no more. It takes no memory. Where since the last rest nodes were
    /// added alone, each lot of them at once to a node without children, no node is looked at.
    pub fn commit(&mut self, store: &mut A::Store)
        requires made { LiveApart A.run_at A.Holds store.old (kept_in self.old) }
        ensures stay { KeepsReached self.old self.new }
        ensures only { (k : ℕ) → IsLive self.new k → Reached (now_of self.old) self.old.root k }
        ensures rest { IsAtRest self.new }
        ensures root { self.new.root ≡ self.old.root }
        ensures spares { Spends self.old self.new 0 0 0 0 }
        ensures store { FreesAllBesides A.run_at A.Holds self.old (now_of self.new) store.old store.new }
        ensures still { LiveApart A.run_at A.Holds store.new (kept_in self.new) }
    {
        sweep_all(&mut self.parts, self.root, self.loose, store);
        self.loose = Some(0);
    }
}

impl<A: Kept> Forest<A> {
    /// Whether the first of two nodes of one complete level comes before the second. It is one look where the second stands
    /// right after the first on a linked level; else it climbs from both to where they meet.
    pub fn is_before(&self, one: NodeId, two: NodeId) -> bool
        requires one { IsAtSpot self.now one }
        requires two { IsAtSpot self.now two }
        requires level { level_of_node self.now two ≡ level_of_node self.now one }
        ensures { IsTrue result ↔ (place_of_node self.now one < place_of_node self.now two) }
    {
        let depth = self.depth(one);
        comes_before(&self.parts, self.root, one, two, depth, self.linked)
    }

    /// The first child of the nodes of a complete level from this one on; none where they have no children.
    pub fn first_below(&self, spot: NodeId) -> Option<NodeId>
        requires { IsAtSpot self.now spot }
        ensures { IsFirstBelow self.now spot result }
    {
        self.child_from(spot, Way::Right)
    }

    /// The last child of the nodes of a complete level up to this one; none where they have no children.
    pub fn last_below(&self, spot: NodeId) -> Option<NodeId>
        requires { IsAtSpot self.now spot }
        ensures { IsLastBelow self.now spot result }
    {
        self.child_from(spot, Way::Left)
    }

    /// Who is around a node of a complete level: its neighbours, and the mate of a bracket. Where the level is linked it is one
    /// look, and one more for the mate of a bracket where mates stand at them.
    pub fn around(&self, spot: NodeId) -> Around
        requires { IsAtSpot self.now spot }
        ensures left { IsLeftNode self.now spot result.left }
        ensures right { IsRightNode self.now spot result.right }
        ensures mate { IsMateNode self.now spot result.mate }
    {
        let mate = self.mate_if_bracket(spot);
        if self.depth(spot) <= self.linked {
            return linked_around(&self.parts, spot, mate);
        }
        Around {
            left: self.left(spot),
            right: self.right(spot),
            mate,
        }
    }

    /// The mate of a bracket; none of a module.
    fn mate_if_bracket(&self, spot: NodeId) -> Option<NodeId>
        requires { IsAtSpot self.now spot }
        ensures { IsMateNode self.now spot result }
    {
        match self.parts.kind(spot) {
            NodeKind::Module(_) => None,
            _ => Some(self.mate(spot)),
        }
    }

    /// The node next to one of a complete level, that way.
    fn beside(&self, spot: NodeId, way: Way) -> Option<NodeId>
        requires { IsAtSpot self.now spot }
        ensures beside { IsNextIn (oriented way (level_with self.now spot)) spot result }
        ensures sound { IsRooted self.now.root (changes_in self.now) (now_of self.now) }
    {
        next_beside(
            &self.parts,
            self.root,
            spot,
            self.depth(spot),
            self.linked,
            way,
        )
    }

    /// The first child of the nodes of a complete level from one of them on, that way.
    fn child_from(&self, spot: NodeId, way: Way) -> Option<NodeId>
        requires { IsAtSpot self.now spot }
        ensures { IsChildFrom way self.now spot result }
    {
        first_child(
            &self.parts,
            self.root,
            Some(spot),
            self.depth(spot),
            self.linked,
            way,
        )
    }

    /// How many steps a node of a complete level is below the root.
    fn depth(&self, spot: NodeId) -> u32
        requires { IsAtSpot self.now spot }
        ensures { result ≡ level_of_node self.now spot + 1 }
    {
        match self.parts.get(spot) {
            Some(found) => found.depth,
            None => unreachable!(),
        }
    }
}

/// The complete levels of a forest: level 0 are the children of the root, and each further level the children of the nodes
/// of the one before it, in order, up to the first level whose brackets are not balanced. A node's tag is its number.
impl<A: Kept> LevelView for Forest<A> {
    type Spot = NodeId;

    ghost levels = { complete_levels };

    ghost level_of = { level_of_node };

    ghost place_of = { place_of_node };

    fn first(&self, level: u32) -> Option<NodeId> {
        first_at(&self.parts, self.root, level, self.linked)
    }

    fn left(&self, spot: NodeId) -> Option<NodeId> {
        self.beside(spot, Way::Left)
    }

    fn right(&self, spot: NodeId) -> Option<NodeId> {
        self.beside(spot, Way::Right)
    }

    fn mate(&self, spot: NodeId) -> NodeId {
        let way = way_to_mate(self.parts.kind(spot));
        mate_of(
            &self.parts,
            self.root,
            spot,
            self.depth(spot),
            self.linked,
            self.mated,
            way,
        )
    }

    fn sight(&self, spot: NodeId) -> Sight<'_> {
        self.parts.symbol(spot)
    }

    fn tag(&self, spot: NodeId) -> Tag {
        prove!(spot != self.root);
        Tag(spot.0)
    }

    fn key(&self, spot: NodeId) -> u64 {
        self.parts.key(spot)
    }
}

/// Asks for room for so many nodes, where so many find room, and answers how many do then: none, where there is room for
/// more nodes than there are numbers.
fn room_for<A: Kept>(parts: &mut Parts<A>, nodes: usize, spare: usize) -> usize
    requires room { live_slots parts.old.slots + spare ≤ parts.old.capacity }
    requires fit { 0 < spare → parts.old.capacity ≤ 2 ^ 32 }
    ensures same { parts.new ≡ record parts.old { capacity = parts.new.capacity } }
    ensures room { live_slots parts.old.slots + result ≤ parts.new.capacity }
    ensures fit { 0 < result → parts.new.capacity ≤ 2 ^ 32 }
    ensures more { parts.old.capacity ≤ parts.new.capacity }
    ensures kept { parts.new.capacity ≤ 2 ^ 32 → spare ≤ result }
    ensures enough { nodes ≤ result → spare ≤ result }
    ensures most { result ≤ max nodes spare }
{
    if nodes <= spare {
        return spare;
    }
    match parts.reserve_nodes(nodes) {
        Ok(()) => nodes,
        Err(_) if parts.has_numbers() => spare,
        Err(_) => 0,
    }
}
