//! What is told of the step from one level to the next.
ghost use Rattle.std.specs.Prelude.{◌≡◌, ◌+◌, ◌<◌, ◌≤◌, ◌++◌, ◌∷◌, [], length, OnOk, vec_len, vec_capacity};
ghost use Rattle.lsys_children.specs.Children.{ToldNodes};
ghost use Rattle.lsys_children.specs.Telling.{nothing_told, with_added, with_changed, with_gone, with_touched};

use lsys_forest::NodeId;
use std::alloc::{AllocError, Global};
use std::marker::Model;

/// The nodes of two levels, one below the other, that the steps for some parents changed, in the order of the steps: of the
/// upper level those with other children, or with children of other kinds; of the lower one those with another symbol, the
/// new ones, and those that are children no more.
#[derive(Drop)]
pub struct Changes {
    touched: Vec<NodeId>,
    changed: Vec<NodeId>,
    added: Vec<NodeId>,
    gone: Vec<NodeId>,
}

impl Model for Changes {
    ghost use Rattle.std.specs.Prelude.{◌-◌, length, min, vec_capacity};
    ghost use Rattle.lsys_children.specs.Children.{ToldNodes};

    ghost Value = { ToldNodes };

    ghost view = { λ a. record {
      touched = a.touched.items;
      changed = a.changed.items;
      added = a.added.items;
      gone = a.gone.items;
      room = min (min (vec_capacity a.touched - length a.touched.items) (vec_capacity a.changed - length a.changed.items))
          (min (vec_capacity a.added - length a.added.items) (vec_capacity a.gone - length a.gone.items));
    } };
}

impl Changes {
    /// Nothing is told. It takes no memory.
    pub fn new(alloc: Global) -> Changes
        ensures { result ≡ nothing_told result.room }
    {
        Changes {
            touched: Vec::new(alloc),
            changed: Vec::new(alloc),
            added: Vec::new(alloc),
            gone: Vec::new(alloc),
        }
    }

    /// Makes room for so many nodes more in each list. The lists stay.
    ///
    /// # Errors
    ///
    /// Out of memory. The room is then no less than it was.
    pub fn reserve(&mut self, more: usize) -> Result<(), AllocError>
        ensures lists { self.new ≡ record self.old { room = self.new.room } }
        ensures room { OnOk result (more ≤ self.new.room) }
        ensures keeps { self.old.room ≤ self.new.room }
    {
        self.touched.reserve(more)?;
        self.changed.reserve(more)?;
        self.added.reserve(more)?;
        self.gone.reserve(more)
    }

    /// The nodes of the upper level that have other children, or children of other kinds.
    pub fn touched(&self) -> &[NodeId]
        ensures { result.now ≡ self.now.touched }
    {
        &self.touched
    }

    /// The nodes of the lower level that lived, and have another symbol.
    pub fn changed(&self) -> &[NodeId]
        ensures { result.now ≡ self.now.changed }
    {
        &self.changed
    }

    /// The new nodes of the lower level.
    pub fn added(&self) -> &[NodeId]
        ensures { result.now ≡ self.now.added }
    {
        &self.added
    }

    /// The nodes that were children, and are no more.
    pub fn gone(&self) -> &[NodeId]
        ensures { result.now ≡ self.now.gone }
    {
        &self.gone
    }

    /// Tells that a node has other children. It takes no memory.
    pub(crate) fn tell_touched(&mut self, node: NodeId)
        requires { 0 < self.old.room }
        ensures told { self.new ≡ with_touched self.old node self.new.room }
        ensures room { self.old.room ≤ self.new.room + 1 }
    {
        push(&mut self.touched, node);
    }

    /// Tells that a node has another symbol. It takes no memory.
    pub(crate) fn tell_changed(&mut self, node: NodeId)
        requires { 0 < self.old.room }
        ensures told { self.new ≡ with_changed self.old node self.new.room }
        ensures room { self.old.room ≤ self.new.room + 1 }
    {
        push(&mut self.changed, node);
    }

    /// Tells that a node is new. It takes no memory.
    pub(crate) fn tell_added(&mut self, node: NodeId)
        requires { 0 < self.old.room }
        ensures told { self.new ≡ with_added self.old node self.new.room }
        ensures room { self.old.room ≤ self.new.room + 1 }
    {
        push(&mut self.added, node);
    }

    /// Tells that nodes are children no more. It takes no memory.
    pub(crate) fn tell_gone(&mut self, nodes: &[NodeId])
        requires { length nodes.now ≤ self.old.room }
        ensures told { self.new ≡ with_gone self.old nodes.now self.new.room }
        ensures room { self.old.room ≤ self.new.room + length nodes.now }
    {
        match self.gone.extend_from_slice(nodes) {
            Ok(()) => {}
            Err(_) => unreachable!(),
        }
    }
}

/// Adds a node at the end of a vector that has room for it.
pub(crate) fn push(nodes: &mut Vec<NodeId>, node: NodeId)
    requires { vec_len nodes.old < vec_capacity nodes.old }
    ensures pushed { nodes.new.items ≡ nodes.old.items ++ node ∷ [] }
    ensures capacity { vec_capacity nodes.old ≤ vec_capacity nodes.new }
{
    match nodes.push(node) {
        Ok(()) => {}
        Err(_) => unreachable!(),
    }
}
