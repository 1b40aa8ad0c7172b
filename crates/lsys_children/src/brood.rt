//! The children of a node, as they are wanted.
ghost use Rattle.std.specs.Prelude.{◌≡◌, ◌≢◌, ◌++◌, ◌+◌, ◌≤◌, ℕ, [], OnOk, OnErr, IfOk, IsTrue, map, length, Some, None, is_some, vec_capacity};
ghost use Rattle.std.specs.HashMap.{get};
ghost use Rattle.lsys_spec.specs.Rows.{In};
ghost use Rattle.lsys_forest.specs.Groves.{now_of, rest_of, changes_in, kept_in, IsLive, IsRooted};
ghost use Rattle.lsys_children.specs.declared.number.Number.{Number};
ghost use Rattle.lsys_children.specs.Matches.{same_child_number, AreDifferent, number_of};
ghost use Rattle.lsys_children.specs.Children.{numbers_of, AreWhole, IsFew};
ghost use Rattle.lsys_children.specs.Families.{HasRoomToRenew, IsNeedFor, MatchesKids, RenewsKids, SpendsNeedOf, TellsIfDone};
ghost use Rattle.lsys_children.specs.Numbered.{HoldsKids, SetsNumber, TakesOut, kids_remaining, node_if_left, nodes_found};

use crate::changes::Changes;
use crate::child::Child;
use crate::few::{find_each, leave_each};
use crate::need::{Need, need_of};
use crate::number::Number;
use crate::renew::{bear_all, renew_all};
use lsys_forest::{Forest, Kept, NodeId};
use lsys_module::Symbol;
use std::alloc::{AllocError, Global};
use std::collections::HashMap;
use std::marker::Model;

/// So many children, and so many old ones, are matched without a map.
const FEW: usize = 8;

/// The children that are wanted of a node, matched with the old ones. It keeps its room from one node to the next.
#[derive(Drop)]
pub struct Brood {
    by_number: HashMap<Number, NodeId>,
    found: Vec<Option<NodeId>>,
    gone: Vec<NodeId>,
    nodes: Vec<NodeId>,
    /// What is wanted of a parent, where it is copied. What is left in it means nothing.
    pub(crate) symbols: Vec<Symbol>,
}

impl Model for Brood {
    ghost use Rattle.lsys_children.specs.Matches.{Matched};

    ghost Value = { Matched };

    ghost view = { λ a. record { found = a.found.items; gone = a.gone.items } };
}

impl Brood {
    /// Nothing is wanted. It takes no memory.
    pub fn new(alloc: Global) -> Brood
        ensures { result ≡ record { found = []; gone = [] } }
    {
        Brood {
            by_number: HashMap::new(alloc),
            found: Vec::new(alloc),
            gone: Vec::new(alloc),
            nodes: Vec::new(alloc),
            symbols: Vec::new(alloc),
        }
    }

    /// Matches the numbers of these children, of which none stands twice, with those of a node's children. The forest is only
    /// read.
    ///
    /// # Errors
    ///
    /// Out of memory. What was matched is of no use then.
    fn find<A: Kept>(
        &mut self,
        forest: &Forest<A>,
        parent: NodeId,
        wanted: &[Child],
    ) -> Result<(), AllocError>
        requires lives { IsLive forest.now parent }
        requires apart { AreDifferent (numbers_of wanted.now) }
        ensures matched { OnOk result (MatchesKids forest.now parent wanted.now self.new) }
        ensures sound { OnOk result (IsRooted forest.now.root (changes_in forest.now) (now_of forest.now)) }
    {
        let kids = forest.children(parent);
        if have_numbers(forest, kids, wanted) {
            return find_same(kids, &mut self.found, &mut self.gone);
        }
        if kids.len() <= FEW && wanted.len() <= FEW {
            find_each(forest, kids, wanted, &mut self.found)?;
            return leave_each(forest, kids, wanted, &mut self.gone);
        }
        enter_all(&mut self.by_number, forest, kids)?;
        take_all(&mut self.by_number, wanted, &mut self.found)?;
        find_left(&self.by_number, forest, kids, &mut self.gone)?;
        take_out(&mut self.by_number, forest, &self.gone);
        Ok(())
    }

    /// Counts what [`Brood::change`] takes for a node and the children that are wanted of it: at most so much room, and
    /// exactly so many nodes are new. The forest is only read.
    ///
    /// # Errors
    ///
    /// Out of memory. What was matched is of no use then.
    pub(crate) fn count<A: Kept>(
        &mut self,
        forest: &Forest<A>,
        parent: NodeId,
        wanted: &[Child],
    ) -> Result<Need, AllocError>
        requires lives { IsLive forest.now parent }
        requires apart { AreDifferent (numbers_of wanted.now) }
        requires few { length wanted.now ≤ 4096 }
        ensures need { IfOk result (IsNeedFor forest.now parent wanted.now) }
        ensures few { IfOk result (λ need. IsFew need) }
    {
        self.find(forest, parent, wanted)?;
        Ok(need_of(wanted, forest.children(parent).len(), &self.found))
    }

    /// Makes the children of a node those that are wanted: the old ones of their numbers, in whatever order these stood, with
    /// the symbols and the keys that are wanted, and new nodes where there were none. What differs is told. All other nodes
    /// stay as they are; so do the children, and the answers, of the old ones. Two things take memory, and both come before any
    /// change: the numbers are matched, and there has to be room for the list of all wanted nodes. The forest has the room for its
    /// part.
    ///
    /// # Errors
    ///
    /// Out of memory. Nothing changed then, and nothing is told.
    pub(crate) fn change<A: Kept>(
        &mut self,
        forest: &mut Forest<A>,
        parent: NodeId,
        wanted: &[Child],
        changes: &mut Changes,
    ) -> Result<(), AllocError>
        requires lives { IsLive forest.old parent }
        requires apart { AreDifferent (numbers_of wanted.now) }
        requires whole { AreWhole wanted.now }
        requires room { HasRoomToRenew forest.old parent wanted.now changes.old }
        ensures children { OnOk result (RenewsKids forest.old forest.new parent wanted.now) }
        ensures told { TellsIfDone forest.old forest.new parent wanted.now changes.old changes.new result }
        ensures rest { rest_of forest.new ≡ rest_of forest.old }
        ensures root { forest.new.root ≡ forest.old.root }
        ensures sound { OnOk result (IsRooted forest.old.root (changes_in forest.old) (now_of forest.old)) }
        ensures kept { kept_in forest.new ≡ kept_in forest.old }
        ensures spends { OnOk result (SpendsNeedOf forest.old forest.new parent wanted.now) }
        ensures refused { OnErr result ((forest.new ≡ forest.old) × (changes.new ≡ changes.old)) }
    {
        if forest.children(parent).is_empty() {
            bear_all(forest, parent, wanted, changes);
            return Ok(());
        }
        self.find(forest, parent, wanted)?;
        empty_for(&mut self.nodes, wanted.len())?;
        renew_all(
            forest,
            parent,
            wanted,
            &self.found,
            &self.gone,
            &mut self.nodes,
            changes,
        );
        Ok(())
    }
}

/// Empties a list, and makes room in it for so many nodes.
fn empty_for(nodes: &mut Vec<NodeId>, count: usize) -> Result<(), AllocError>
    ensures empty { OnOk result (nodes.new.items ≡ []) }
    ensures places { OnOk result (count ≤ vec_capacity nodes.new) }
{
    nodes.clear();
    nodes.reserve(count)
}

/// The number of a node that is not the root.
pub(crate) fn number<A: Kept>(forest: &Forest<A>, node: NodeId) -> Number
    requires lives { IsLive forest.now node }
    requires other { node ≢ forest.now.root }
    ensures { result ≡ number_of (now_of forest.now) node }
{
    let (code, count) = forest.number(node);
    Number { code, count }
}

/// Whether these nodes have the numbers of these children, in order.
fn have_numbers<A: Kept>(forest: &Forest<A>, kids: &[NodeId], wanted: &[Child]) -> bool
    requires kids { (k : ℕ) → In k kids.now → IsLive forest.now k × (k ≢ forest.now.root) }
    ensures { IsTrue result
        → map (number_of (now_of forest.now)) kids.now ≡ numbers_of wanted.now }
{
    if kids.len() != wanted.len() {
        return false;
    }
    for place in 0..kids.len() {
        if number(forest, kids[place]) != wanted[place].number {
            return false;
        }
    }
    true
}

/// Finds all of these nodes, and none is left.
fn find_same(
    kids: &[NodeId],
    found: &mut Vec<Option<NodeId>>,
    gone: &mut Vec<NodeId>,
) -> Result<(), AllocError>
    ensures found { OnOk result (found.new.items ≡ map Some kids.now) }
    ensures gone { gone.new.items ≡ [] }
{
    gone.clear();
    found.clear();
    for kid in kids {
        found.push(Some(*kid))?;
    }
    Ok(())
}

/// Adds a node to those that are found by their numbers.
fn enter(
    nodes: &mut HashMap<Number, NodeId>,
    number: Number,
    node: NodeId,
) -> Result<(), AllocError>
    ensures { OnOk result (SetsNumber nodes.old nodes.new number (Some node)) }
{
    nodes.insert(number, node)?;
    Ok(())
}

/// Takes out the node that has this number, if there is one. Where there are no nodes it looks at nothing.
fn take(nodes: &mut HashMap<Number, NodeId>, number: Number) -> Option<NodeId>
    ensures taken { result ≡ get same_child_number nodes.old number }
    ensures left { SetsNumber nodes.old nodes.new number None }
{
    if nodes.is_empty() {
        return None;
    }
    nodes.remove(&number)
}

/// Whether there is a node that has this number.
fn has(nodes: &HashMap<Number, NodeId>, number: Number) -> bool
    ensures { result ≡ is_some (get same_child_number nodes.now number) }
{
    nodes.contains_key(&number)
}

/// Enters these nodes by their numbers, and no others. Where there are others they cost the room that they once took.
fn enter_all<A: Kept>(
    nodes: &mut HashMap<Number, NodeId>,
    forest: &Forest<A>,
    kids: &[NodeId],
) -> Result<(), AllocError>
    requires kids { (k : ℕ) → In k kids.now → IsLive forest.now k × (k ≢ forest.now.root) }
    ensures { OnOk result (HoldsKids nodes.new forest.now kids.now) }
{
    if !nodes.is_empty() {
        nodes.clear();
    }
    for kid in kids {
        enter(nodes, number(forest, *kid), *kid)?;
    }
    Ok(())
}

/// Takes out the nodes that have the numbers of these children, of which none stands twice.
fn take_all(
    nodes: &mut HashMap<Number, NodeId>,
    wanted: &[Child],
    found: &mut Vec<Option<NodeId>>,
) -> Result<(), AllocError>
    requires apart { AreDifferent (numbers_of wanted.now) }
    ensures found { OnOk result (found.new.items ≡ nodes_found nodes.old wanted.now) }
    ensures left { OnOk result (TakesOut nodes.old nodes.new (numbers_of wanted.now)) }
{
    found.clear();
    for child in wanted {
        found.push(take(nodes, child.number))?;
    }
    Ok(())
}

/// Those of these nodes whose numbers were not taken out.
fn find_left<A: Kept>(
    nodes: &HashMap<Number, NodeId>,
    forest: &Forest<A>,
    kids: &[NodeId],
    gone: &mut Vec<NodeId>,
) -> Result<(), AllocError>
    requires kids { (k : ℕ) → In k kids.now → IsLive forest.now k × (k ≢ forest.now.root) }
    ensures { OnOk result (gone.new.items ≡ kids_remaining nodes.now forest.now kids.now) }
{
    gone.clear();
    for kid in kids {
        put_left(nodes, number(forest, *kid), *kid, gone)?;
    }
    Ok(())
}

/// Takes out these nodes by their numbers.
fn take_out<A: Kept>(nodes: &mut HashMap<Number, NodeId>, forest: &Forest<A>, gone: &[NodeId])
    requires gone { (k : ℕ) → In k gone.now → IsLive forest.now k × (k ≢ forest.now.root) }
{
    for node in gone {
        take(nodes, number(forest, *node));
    }
}

/// Puts a node after the others if its number was not taken out.
fn put_left(
    nodes: &HashMap<Number, NodeId>,
    number: Number,
    node: NodeId,
    gone: &mut Vec<NodeId>,
) -> Result<(), AllocError>
    ensures { OnOk result (gone.new.items ≡ gone.old.items ++ node_if_left nodes.now number node) }
{
    if has(nodes, number) {
        gone.push(node)?;
    }
    Ok(())
}
