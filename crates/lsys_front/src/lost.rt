//! Answers that are lost with their questions.
ghost use Rattle.std.specs.Prelude.{◌≡◌, ◌↔◌, ◌<◌, ◌≤◌, ◌+◌, ◌^◌, ◌++◌, ◌∷◌, ℕ, [], IsTrue, OnOk, OnErr, vec_len, vec_capacity};
ghost use Rattle.lsys_spec.specs.Rows.{In};
ghost use Rattle.lsys_forest.specs.Groves.{AreSound, now_of, changes_in, live_nodes, IsLive};
ghost use Rattle.lsys_front.specs.Losses.{LosesOnly, TakesOnePlace};
ghost use Rattle.lsys_front.specs.Asks.{IsIdle};
ghost use Rattle.lsys_front.specs.LostAnswers.{LosesIn, LosesBoth};

use crate::front::Front;
use crate::questioned::has_question;
use lsys_forest::{Forest, Kept, NodeId};
use lsys_level::Tag;
use lsys_rules::System;
use std::alloc::AllocError;

impl Front {
    /// Takes the answers of the nodes of the level that have no question any more, by its rules: of those that changed, and of
    /// others. They come after those that lost theirs before, and after `dropped`.
    ///
    /// It costs steps by the number of these nodes.
    ///
    /// # Errors
    ///
    /// Out of memory. No answer is new then, and the last rest stays.
    pub fn lose<A: Kept>(
        &mut self,
        forest: &mut Forest<A>,
        system: &System,
        level: u32,
        others: &[NodeId],
        dropped: &mut Vec<Tag>,
    ) -> Result<(), AllocError>
        requires few { live_nodes forest.old < 2 ^ 32 }
        requires lives { (k : ℕ) → In k (self.old.changes.changed ++ others.now)
            → IsLive forest.old k }
        ensures loses { OnOk result (LosesBoth system.now level forest self others.now dropped) }
        ensures only { LosesOnly forest.old forest.new }
        ensures sound { AreSound forest.new.root (changes_in forest.new) (now_of forest.new) }
        ensures changes { self.new.changes ≡ self.old.changes }
        ensures turned { self.new.turned ≡ self.old.turned }
    {
        let lost = self.lose_both(forest, system, level, others, dropped);
        law_of_forests(forest);
        lost
    }

    /// The same of both, one kind after the other.
    fn lose_both<A: Kept>(
        &mut self,
        forest: &mut Forest<A>,
        system: &System,
        level: u32,
        others: &[NodeId],
        dropped: &mut Vec<Tag>,
    ) -> Result<(), AllocError>
        requires few { live_nodes forest.old < 2 ^ 32 }
        requires lives { (k : ℕ) → In k (self.old.changes.changed ++ others.now)
            → IsLive forest.old k }
        ensures loses { OnOk result (LosesBoth system.now level forest self others.now dropped) }
        ensures only { LosesOnly forest.old forest.new }
        ensures changes { self.new.changes ≡ self.old.changes }
        ensures turned { self.new.turned ≡ self.old.turned }
    {
        let changed = &self.changes.changed;
        lose_answers(forest, system, level, changed, &mut self.bare, dropped)?;
        lose_answers(forest, system, level, others, &mut self.bare, dropped)
    }
}

/// The nodes of a forest hang together under the root, and did so at any time since the last rest.
pub fn law_of_forests<A: Kept>(forest: &Forest<A>)
    ensures { AreSound forest.now.root (changes_in forest.now) (now_of forest.now) }
{
    forest.root();
}

/// Takes the answers of those of these nodes that have no question any more, by the rules of a level of a system. They come
/// after `bare`, and after `dropped`.
///
/// # Errors
///
/// Out of memory. Nothing has changed then.
fn lose_answers<A: Kept>(
    forest: &mut Forest<A>,
    system: &System,
    level: u32,
    nodes: &[NodeId],
    bare: &mut Vec<NodeId>,
    dropped: &mut Vec<Tag>,
) -> Result<(), AllocError>
    requires few { live_nodes forest.old < 2 ^ 32 }
    requires lives { (k : ℕ) → In k nodes.now → IsLive forest.old k }
    ensures loses { OnOk result (LosesIn system.now level forest nodes.now bare dropped) }
    ensures only { LosesOnly forest.old forest.new }
    ensures now { OnErr result (now_of forest.new ≡ now_of forest.old) }
    ensures changes { OnErr result (changes_in forest.new ≡ changes_in forest.old) }
    ensures bare { OnErr result (bare.new.items ≡ bare.old.items) }
    ensures dropped { OnErr result (dropped.new.items ≡ dropped.old.items) }
{
    forest.reserve(0, 0, 0, nodes.len())?;
    bare.reserve(nodes.len())?;
    dropped.reserve(nodes.len())?;
    for node in nodes {
        lose_answer(forest, system, level, *node, bare, dropped);
    }
    Ok(())
}

/// The same for one node. It takes no memory.
fn lose_answer<A: Kept>(
    forest: &mut Forest<A>,
    system: &System,
    level: u32,
    node: NodeId,
    bare: &mut Vec<NodeId>,
    dropped: &mut Vec<Tag>,
)
    requires lives { IsLive forest.old node }
    requires notes { 0 < forest.old.spare_notes }
    requires places { vec_len bare.old < vec_capacity bare.old }
    requires tags { vec_len dropped.old < vec_capacity dropped.old }
    ensures loses { LosesIn system.now level forest (node ∷ []) bare dropped }
    ensures only { LosesOnly forest.old forest.new }
    ensures notes { forest.old.spare_notes ≤ forest.new.spare_notes + 1 }
    ensures places { TakesOnePlace bare.old bare.new }
    ensures tags { TakesOnePlace dropped.old dropped.new }
{
    if !is_idle(forest, system, level, node) {
        return;
    }
    forest.set_answer(node, None);
    bare.push_reserved(node);
    dropped.push_reserved(Tag(node.0));
}

/// Whether a node keeps an answer, and has no question.
fn is_idle<A: Kept>(forest: &Forest<A>, system: &System, level: u32, node: NodeId) -> bool
    requires { IsLive forest.now node }
    ensures { IsTrue result ↔ IsIdle system.now level (now_of forest.now) node }
{
    forest.answer(node).is_some() && !has_question(system, level, forest, node)
}
