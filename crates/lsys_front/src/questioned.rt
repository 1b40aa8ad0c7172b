//! Which nodes have a question.
ghost use Rattle.std.specs.Prelude.{◌≡◌, ◌↔◌, ◌∷◌, ℕ, IsTrue, OnOk, []};
ghost use Rattle.lsys_spec.specs.Rows.{In};
ghost use Rattle.lsys_spec.specs.Bodies.{group};
ghost use Rattle.lsys_module.specs.Views.{module_name};
ghost use Rattle.lsys_forest.specs.Groves.{IsLive, now_of};
ghost use Rattle.lsys_front.specs.Candidates.{AsksOn};
ghost use Rattle.lsys_front.specs.AddedNodes.{AddsAsked};

use lsys_forest::{Forest, Kept, NodeId};
use lsys_level::Sight;
use lsys_rules::System;
use lsys_text::Name;
use std::alloc::AllocError;

/// Adds those of these nodes that are modules with a question, by the rules of a level of a system.
///
/// # Errors
///
/// Out of memory.
pub(crate) fn add_asked<A: Kept>(
    system: &System,
    level: u32,
    forest: &Forest<A>,
    nodes: &[NodeId],
    asked: &mut Vec<NodeId>,
) -> Result<(), AllocError>
    requires { (k : ℕ) → In k nodes.now → IsLive forest.now k }
    ensures { OnOk result (AddsAsked system.now level forest.now nodes.now asked.old asked.new) }
{
    for node in nodes {
        add_if_asked(system, level, forest, *node, asked)?;
    }
    Ok(())
}

/// Adds a node if it is a module with a question.
fn add_if_asked<A: Kept>(
    system: &System,
    level: u32,
    forest: &Forest<A>,
    node: NodeId,
    asked: &mut Vec<NodeId>,
) -> Result<(), AllocError>
    requires { IsLive forest.now node }
    ensures { OnOk result (AddsAsked system.now level forest.now (node ∷ []) asked.old asked.new) }
{
    if !has_question(system, level, forest, node) {
        return Ok(());
    }
    asked.push(node)?;
    Ok(())
}

/// Whether a node is a module with a question, by the rules of a level of a system.
pub fn has_question<A: Kept>(system: &System, level: u32, forest: &Forest<A>, node: NodeId) -> bool
    requires { IsLive forest.now node }
    ensures { IsTrue result ↔ AsksOn system.now level (now_of forest.now) node }
{
    match forest.symbol(node) {
        Sight::Push | Sight::Pop => false,
        Sight::Module { name, params } => has_rules(system, level, name, params.len()),
    }
}

/// Whether a level of a system has rules for modules with this name and so many parameters.
fn has_rules(system: &System, level: u32, name: Name, arity: usize) -> bool
    ensures { IsTrue result ↔ (group system.now level (module_name name) arity ≡ [] → ⊥) }
{
    match system.group(level, name, arity) {
        Some(group) => !group.rules().is_empty(),
        None => false,
    }
}
