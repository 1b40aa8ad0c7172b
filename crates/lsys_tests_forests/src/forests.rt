//! A forest through its public calls.
ghost use Rattle.std.specs.Prelude.{◌≡◌, ◌≢◌, ◌<◌, ◌≤◌, ◌+◌, ℕ, drop, length, Some, None, true, false};
ghost use Rattle.lsys_syntax.specs.Strings.{balanced};
ghost use Rattle.lsys_module.specs.Views.{string_of};
ghost use Rattle.lsys_module.specs.declared.symbol.Symbol.TheVariants.{Cut};
ghost use Rattle.lsys_level.specs.Places.{has_cut, seen_in};
ghost use Rattle.lsys_forest.specs.Nodes.{root_node};
ghost use Rattle.lsys_forest.specs.Groves.{now_of, live_nodes, IsLive, AreKids};
ghost use Rattle.lsys_forest.specs.Rows.{complete_levels};
ghost use Rattle.lsys_tests_forests.specs.Forests.{GivesKids, GrowsNode};

use crate::forest_levels::{contexts_that_skip, walk};
use crate::same::{is_row, is_true};
use lsys_forest::{Forest, Kept, NodeId};
use lsys_module::Symbol;
use lsys_region::room;
use std::alloc::Global;
use std::process::Abort;

/// An answer that holds no runs.
#[derive(Drop)]
struct Numbered(u32);

impl Kept for Numbered {
    type Store = u8;

    ghost Name = { ℕ };

    ghost Run = { ℕ };

    ghost run_at = { λ s n. None };

    ghost Holds = { λ a n. ⊥ };

    fn release(self, store: &mut u8) {}
}

/// Adds a node with this symbol, after making room for it.
fn grow(
    rt: &impl Abort,
    forest: &mut Forest<Numbered>,
    parent: NodeId,
    count: u32,
    symbol: &Symbol,
) -> NodeId
    requires parent { IsLive forest.old parent }
    requires whole { symbol.now ≢ Cut }
    requires few { live_nodes forest.old < 4000 }
    ensures root { forest.new.root ≡ forest.old.root }
    ensures live { live_nodes forest.new ≤ live_nodes forest.old + 1 }
    ensures fresh { now_of forest.old result ≡ None }
    ensures added { GrowsNode forest.old forest.new parent count (seen_in symbol.now) result }
{
    let params = match symbol {
        Symbol::Module(module) => module.params.values().len(),
        _ => 0,
    };
    forest.reserve(1, room(params), 0, 1).expect(rt, "memory");
    forest.add(parent, 0, count, symbol, 0)
}

/// Sets the children of a node, after making room for them.
fn give(rt: &impl Abort, forest: &mut Forest<Numbered>, node: NodeId, kids: &[NodeId])
    requires lives { IsLive forest.old node }
    requires kids { AreKids (now_of forest.old) forest.old.root node kids.now }
    requires few { live_nodes forest.old < 4000 }
    requires short { length kids.now ≤ 4000 }
    ensures root { forest.new.root ≡ forest.old.root }
    ensures live { live_nodes forest.new ≤ live_nodes forest.old }
    ensures set { GivesKids forest.old forest.new node kids.now }
{
    forest
        .reserve(0, 0, room(kids.len()), 1)
        .expect(rt, "memory");
    forest.set_children(node, kids);
}

/// A forest of two levels: the first has these symbols, and in the second each but the first of them has itself.
fn two_levels(rt: &impl Abort, alloc: Global, symbols: &[Symbol]) -> Forest<Numbered>
    requires few { length symbols.now ≤ 1000 }
    requires some { 0 < length symbols.now }
    requires whole { has_cut symbols.now ≡ false }
    requires balance { balanced 0 (string_of symbols.now) ≡ true }
    requires rest { balanced 0 (string_of (drop 1 symbols.now)) ≡ true }
    ensures { 2 ≤ length (complete_levels result) }
{
    let mut forest = Forest::new(alloc).expect(rt, "memory");
    let root = forest.root();
    let mut parents = Vec::new(alloc);
    for place in 0..symbols.len() {
        let node = grow(rt, &mut forest, root, place as u32, &symbols[place]);
        parents.push(node).expect(rt, "memory");
    }
    give(rt, &mut forest, root, &parents);
    for at in 1..symbols.len() {
        let parent = parents[at];
        let child = grow(rt, &mut forest, parent, 0, &symbols[at]);
        give(rt, &mut forest, parent, &[child]);
    }
    forest
}

#[test]
fn a_root_keeps_an_answer(rt: HostRuntime) {
    let mut forest = Forest::<Numbered>::new(rt.alloc()).expect(&rt, "memory");
    give_answer(&rt, &mut forest);
    has_an_answer_and_no_child(&rt, &forest);
}

/// Gives the root of a new forest an answer.
fn give_answer(rt: &impl Abort, forest: &mut Forest<Numbered>)
    requires alone { now_of forest.old forest.old.root ≡ Some (root_node forest.old.root) }
    requires few { live_nodes forest.old < 4000 }
{
    let root = forest.root();
    forest.reserve(1, 0, 0, 2).expect(rt, "memory");
    forest.set_answer(root, Some(Numbered(7)));
}

/// The root keeps an answer, and has no child.
fn has_an_answer_and_no_child(rt: &impl Abort, forest: &Forest<Numbered>) {
    let root = forest.root();
    is_true(rt, forest.answer(root).is_some());
    is_row(rt, forest.children(root), &[]);
}

/// Each symbol of the first level of a forest, by the numbers of the nodes, after it its mate; and then all from the right to
/// the left. Nodes are numbered as they are added, the root first: a symbol of the first level is its place and 1.
const FIRST: [u32; 69] = [
    1, 1, 2, 2, 3, 3, 4, 7, 5, 5, 6, 6, 7, 4, 8, 23, 9, 9, 10, 10, 11, 19, 12, 12, 13, 13, 14, 17,
    15, 15, 16, 16, 17, 14, 18, 18, 19, 11, 20, 20, 21, 21, 22, 22, 23, 8, 23, 22, 21, 20, 19, 18,
    17, 16, 15, 14, 13, 12, 11, 10, 9, 8, 7, 6, 5, 4, 3, 2, 1,
];

/// The same of the second level: the child of the symbol at place p is p and 23.
const SECOND: [u32; 66] = [
    24, 24, 25, 25, 26, 29, 27, 27, 28, 28, 29, 26, 30, 45, 31, 31, 32, 32, 33, 41, 34, 34, 35, 35,
    36, 39, 37, 37, 38, 38, 39, 36, 40, 40, 41, 33, 42, 42, 43, 43, 44, 44, 45, 30, 45, 44, 43, 42,
    41, 40, 39, 38, 37, 36, 35, 34, 33, 32, 31, 30, 29, 28, 27, 26, 25, 24,
];

/// A forest of two levels: `ABC[DE][SG[HI[JK]L]MNO]`, and this without the first letter.
fn skipping(rt: &impl Abort, alloc: Global) -> Forest<Numbered>
    ensures { 2 ≤ length (complete_levels result) }
{
    two_levels(rt, alloc, &contexts_that_skip())
}

/// These tags are read where a level of a forest is walked both ways.
fn is_walked(rt: &impl Abort, alloc: Global, forest: &Forest<Numbered>, level: u32, want: &[u32])
    requires { level < length (complete_levels forest.now) }
{
    is_row(rt, walk(rt, alloc, forest, level).as_slice(), want);
}

/// Both levels are walked both ways.
fn are_walked(rt: &impl Abort, alloc: Global, forest: Forest<Numbered>)
    requires { 2 ≤ length (complete_levels forest) }
{
    is_walked(rt, alloc, &forest, 0, &FIRST);
    is_walked(rt, alloc, &forest, 1, &SECOND);
}

#[test]
fn contexts_that_skip_are_walked_both_ways(rt: HostRuntime) {
    are_walked(&rt, rt.alloc(), skipping(&rt, rt.alloc()));
}

#[test]
fn levels_that_are_linked_are_walked_as_others(rt: HostRuntime) {
    let mut forest = skipping(&rt, rt.alloc());
    forest.link(0);
    is_walked(&rt, rt.alloc(), &forest, 1, &SECOND);
    forest.link(1);
    are_walked(&rt, rt.alloc(), forest);
}
