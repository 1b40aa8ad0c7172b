//! The children of the root, which are the first level.
ghost use Rattle.std.specs.Prelude.{◌≡◌, ◌≤◌, length, IfOk, OnOk, OnErr};
ghost use Rattle.lsys_spec.specs.Draws.{number_base};
ghost use Rattle.lsys_laws.specs.Nodes.{AreOnce};
ghost use Rattle.lsys_forest.specs.Groves.{now_of, rest_of, kept_in};
ghost use Rattle.lsys_children.specs.Children.{HasRoomFor};
ghost use Rattle.lsys_reads.specs.Lineages.{kins};
ghost use Rattle.lsys_children.specs.Renewals.{AreSmall, AreAllUnder};
ghost use Rattle.lsys_children.specs.RootChildren.{CountsRoot, need_of_root, IsRootRenewed, TellsOfRoot, GoneFromRoot, SpendsForRoot};

use crate::brood::Brood;
use crate::changes::Changes;
use crate::count::ChildCount;
use crate::wanted::Wanted;
use lsys_forest::Forest;
use lsys_module::Symbol;
use lsys_reading::Lineage;
use lsys_reads::KeptAnswer;
use std::alloc::AllocError;
use std::sync::ledger::Ledger;

/// Counts what it takes to make the children of the root those that these symbols of an axiom want, how many these are, and
/// how many there are. The forest is only read.
///
/// # Errors
///
/// Out of memory.
pub fn count_first<L: Ledger>(
    forest: &Forest<KeptAnswer<L>>,
    numbering: Lineage,
    seed: u64,
    symbols: &[Symbol],
    wanted: &mut Wanted,
    brood: &mut Brood,
) -> Result<ChildCount, AllocError>
    requires short { length symbols.now ≤ number_base }
    ensures { IfOk result (CountsRoot numbering forest.now symbols.now) }
{
    let root = forest.root();
    wanted.fill(numbering, seed, symbols)?;
    let children = wanted.children();
    let need = brood.count(forest, root, children)?;
    Ok(ChildCount {
        need,
        wanted: children.len(),
        had: forest.children(root).len(),
    })
}

/// Makes the children of the root those that these symbols of an axiom want, with keys by the seed, and tells what
/// differs.
///
/// # Errors
///
/// Out of memory. Nothing changed then.
pub fn make_first<L: Ledger>(
    forest: &mut Forest<KeptAnswer<L>>,
    numbering: Lineage,
    seed: u64,
    symbols: &[Symbol],
    wanted: &mut Wanted,
    brood: &mut Brood,
    changes: &mut Changes,
) -> Result<(), AllocError>
    requires short { length symbols.now ≤ number_base }
    requires once { AreOnce (kins (now_of forest.old)) forest.old.root }
    requires small { AreSmall (now_of forest.old) }
    requires under { AreAllUnder (now_of forest.old) forest.old.root forest.old.root }
    requires room { HasRoomFor forest.old changes.old (need_of_root numbering forest.old symbols.now) }
    ensures children { OnOk result (IsRootRenewed numbering seed forest.old forest.new symbols.now) }
    ensures told { OnOk result (TellsOfRoot forest.old forest.new changes.old changes.new) }
    ensures gone { OnOk result (GoneFromRoot numbering forest.old symbols.now changes.old changes.new) }
    ensures spends { OnOk result (SpendsForRoot numbering forest.old forest.new symbols.now) }
    ensures rest { rest_of forest.new ≡ rest_of forest.old }
    ensures root { forest.new.root ≡ forest.old.root }
    ensures kept { kept_in forest.new ≡ kept_in forest.old }
    ensures stays { OnErr result ((forest.new ≡ forest.old) × (changes.new ≡ changes.old)) }
{
    let root = forest.root();
    wanted.fill(numbering, seed, symbols)?;
    brood.change(forest, root, wanted.children(), changes)?;
    Ok(())
}
