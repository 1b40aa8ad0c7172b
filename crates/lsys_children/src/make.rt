//! The children of some parents are made.
ghost use Rattle.std.specs.Prelude.{◌≡◌, ◌≤◌, OnOk, OnErr, length};
ghost use Rattle.lsys_spec.specs.Draws.{number_base};
ghost use Rattle.lsys_forest.specs.Groves.{now_of, rest_of, changes_in, kept_in, IsLive, IsRooted};
ghost use Rattle.lsys_reading.specs.declared.parts.Lineage.TheVariants.{Places};
ghost use Rattle.lsys_children.specs.Children.{HasRoomFor};
ghost use Rattle.lsys_children.specs.Families.{HasNoKids};
ghost use Rattle.lsys_children.specs.Answers.{kept_successors};
ghost use Rattle.lsys_children.specs.Parents.{nodes_in, HasParents};
ghost use Rattle.lsys_children.specs.MadeChildren.{needs_of, AreAllRenewed, TellsOfThem, GoneFromThem, SpendsNeeds, CameAsCounted, need_of_one, Renews, RenewsIfOk};
ghost use Rattle.lsys_children.specs.Sources.{IsBodyFor, IsWantedAlone};

use crate::births::bear_by_place;
use crate::brood::Brood;
use crate::changes::Changes;
use crate::copied::copy_wanted;
use crate::parent::{Parent, fill_for};
use crate::source::{SymbolSource, source_of};
use crate::wanted::{Wanted, symbol_seen};
use lsys_bodies::SharedBody;
use lsys_forest::Forest;
use lsys_module::Symbol;
use lsys_reading::Lineage;
use lsys_reads::KeptAnswer;
use std::alloc::AllocError;
use std::sync::ledger::Ledger;

/// Makes the children of these parents, all of one depth, those that are wanted of them, and tells what differs.
///
/// # Errors
///
/// Out of memory, which may come between two parents. The last rest, and who keeps which answer, stay then too; and no more
/// nodes came to live than were counted.
pub fn make_children<L: Ledger>(
    forest: &mut Forest<KeptAnswer<L>>,
    numbering: Lineage,
    parents: &[Parent],
    wanted: &mut Wanted,
    brood: &mut Brood,
    changes: &mut Changes,
) -> Result<(), AllocError>
    requires sound { IsRooted forest.old.root (changes_in forest.old) (now_of forest.old) }
    requires parents { HasParents (now_of forest.old) forest.old.root (nodes_in parents.now) }
    requires room { HasRoomFor forest.old changes.old (needs_of numbering forest.old parents.now) }
    ensures children { OnOk result (AreAllRenewed numbering forest.old forest.new parents.now) }
    ensures told { OnOk result (TellsOfThem forest.old forest.new parents.now changes.old changes.new) }
    ensures gone { OnOk result (GoneFromThem numbering forest.old parents.now changes.old changes.new) }
    ensures spends { OnOk result (SpendsNeeds numbering forest.old forest.new parents.now) }
    ensures few { CameAsCounted numbering forest.old forest.new parents.now }
    ensures rest { rest_of forest.new ≡ rest_of forest.old }
    ensures root { forest.new.root ≡ forest.old.root }
    ensures kept { kept_in forest.new ≡ kept_in forest.old }
{
    for parent in parents {
        make_one(forest, numbering, *parent, wanted, brood, changes)?;
    }
    Ok(())
}

/// Makes the children of one parent.
///
/// # Errors
///
/// Out of memory. The forest stays then.
fn make_one<L: Ledger>(
    forest: &mut Forest<KeptAnswer<L>>,
    numbering: Lineage,
    parent: Parent,
    wanted: &mut Wanted,
    brood: &mut Brood,
    changes: &mut Changes,
) -> Result<(), AllocError>
    requires lives { IsLive forest.old parent.node }
    requires short { length (kept_successors (now_of forest.old) parent.node) ≤ number_base }
    requires room { HasRoomFor forest.old changes.old (need_of_one numbering forest.old parent) }
    ensures renewed { RenewsIfOk result numbering forest.old forest.new parent changes.old changes.new }
    ensures sound { OnOk result
        (IsRooted forest.old.root (changes_in forest.old) (now_of forest.old)) }
    ensures rest { rest_of forest.new ≡ rest_of forest.old }
    ensures root { forest.new.root ≡ forest.old.root }
    ensures kept { kept_in forest.new ≡ kept_in forest.old }
    ensures refused { OnErr result (forest.new ≡ forest.old) }
{
    let node = parent.node;
    match numbering {
        Lineage::Places if forest.children(node).is_empty() => {
            make_anew(forest, parent, &mut brood.symbols, changes)
        }
        _ => make_listed(forest, numbering, parent, wanted, brood, changes),
    }
}

/// Makes the children of one parent that has none, where they are numbered by their places: straight from what replaces it. Where
/// that can't be read while the forest changes it is copied.
///
/// # Errors
///
/// Out of memory. The forest stays then.
fn make_anew<L: Ledger>(
    forest: &mut Forest<KeptAnswer<L>>,
    parent: Parent,
    symbols: &mut Vec<Symbol>,
    changes: &mut Changes,
) -> Result<(), AllocError>
    requires sound { IsRooted forest.old.root (changes_in forest.old) (now_of forest.old) }
    requires lives { IsLive forest.old parent.node }
    requires bare { HasNoKids forest.old parent.node }
    requires short { length (kept_successors (now_of forest.old) parent.node) ≤ number_base }
    requires room { HasRoomFor forest.old changes.old (need_of_one Places forest.old parent) }
    ensures renewed { RenewsIfOk result Places forest.old forest.new parent changes.old changes.new }
    ensures rest { rest_of forest.new ≡ rest_of forest.old }
    ensures root { forest.new.root ≡ forest.old.root }
    ensures kept { kept_in forest.new ≡ kept_in forest.old }
    ensures refused { OnErr result (forest.new ≡ forest.old) }
{
    let source = source_of(forest, &parent);
    match &source {
        SymbolSource::Itself => {
            bear_itself(forest, parent, changes);
            Ok(())
        }
        SymbolSource::Body(body) => {
            bear_body(forest, parent, body, changes);
            Ok(())
        }
        SymbolSource::Other => bear_copied(forest, parent, symbols, changes),
    }
}

/// Makes the children of one parent those that are listed as wanted before.
///
/// # Errors
///
/// Out of memory. The forest stays then.
fn make_listed<L: Ledger>(
    forest: &mut Forest<KeptAnswer<L>>,
    numbering: Lineage,
    parent: Parent,
    wanted: &mut Wanted,
    brood: &mut Brood,
    changes: &mut Changes,
) -> Result<(), AllocError>
    requires lives { IsLive forest.old parent.node }
    requires short { length (kept_successors (now_of forest.old) parent.node) ≤ number_base }
    requires room { HasRoomFor forest.old changes.old (need_of_one numbering forest.old parent) }
    ensures renewed { RenewsIfOk result numbering forest.old forest.new parent changes.old changes.new }
    ensures sound { OnOk result
        (IsRooted forest.old.root (changes_in forest.old) (now_of forest.old)) }
    ensures rest { rest_of forest.new ≡ rest_of forest.old }
    ensures root { forest.new.root ≡ forest.old.root }
    ensures kept { kept_in forest.new ≡ kept_in forest.old }
    ensures refused { OnErr result (forest.new ≡ forest.old) }
{
    let node = parent.node;
    fill_for(wanted, forest, numbering, parent)?;
    brood.change(forest, node, wanted.children(), changes)?;
    Ok(())
}

/// Makes the one child of a parent that has none, where nothing replaces it and children are numbered by their places: itself.
fn bear_itself<L: Ledger>(forest: &mut Forest<KeptAnswer<L>>, parent: Parent, changes: &mut Changes)
    requires sound { IsRooted forest.old.root (changes_in forest.old) (now_of forest.old) }
    requires lives { IsLive forest.old parent.node }
    requires bare { HasNoKids forest.old parent.node }
    requires alone { IsWantedAlone forest.old parent }
    requires room { HasRoomFor forest.old changes.old (need_of_one Places forest.old parent) }
    ensures renewed { Renews Places forest.old forest.new parent changes.old changes.new }
    ensures rest { rest_of forest.new ≡ rest_of forest.old }
    ensures root { forest.new.root ≡ forest.old.root }
    ensures kept { kept_in forest.new ≡ kept_in forest.old }
{
    let node = parent.node;
    let symbol = symbol_seen(forest.symbol(node));
    bear_by_place(forest, node, &[symbol], changes);
}

/// Makes the children of one parent that has none, where they are numbered by their places, from the body in which what
/// replaces it stands.
fn bear_body<L: Ledger>(
    forest: &mut Forest<KeptAnswer<L>>,
    parent: Parent,
    body: &SharedBody,
    changes: &mut Changes,
)
    requires sound { IsRooted forest.old.root (changes_in forest.old) (now_of forest.old) }
    requires lives { IsLive forest.old parent.node }
    requires bare { HasNoKids forest.old parent.node }
    requires short { length (kept_successors (now_of forest.old) parent.node) ≤ number_base }
    requires body { IsBodyFor forest.old parent body.now }
    requires room { HasRoomFor forest.old changes.old (need_of_one Places forest.old parent) }
    ensures renewed { Renews Places forest.old forest.new parent changes.old changes.new }
    ensures rest { rest_of forest.new ≡ rest_of forest.old }
    ensures root { forest.new.root ≡ forest.old.root }
    ensures kept { kept_in forest.new ≡ kept_in forest.old }
{
    let node = parent.node;
    match body.constant() {
        Some(symbols) => bear_by_place(forest, node, symbols.symbols(), changes),
        None => unreachable!(),
    }
}

/// Makes the children of one parent that has none, where they are numbered by their places, from a copy of what is wanted of it.
///
/// # Errors
///
/// Out of memory. The forest stays then.
fn bear_copied<L: Ledger>(
    forest: &mut Forest<KeptAnswer<L>>,
    parent: Parent,
    symbols: &mut Vec<Symbol>,
    changes: &mut Changes,
) -> Result<(), AllocError>
    requires sound { IsRooted forest.old.root (changes_in forest.old) (now_of forest.old) }
    requires lives { IsLive forest.old parent.node }
    requires bare { HasNoKids forest.old parent.node }
    requires short { length (kept_successors (now_of forest.old) parent.node) ≤ number_base }
    requires room { HasRoomFor forest.old changes.old (need_of_one Places forest.old parent) }
    ensures renewed { RenewsIfOk result Places forest.old forest.new parent changes.old changes.new }
    ensures rest { rest_of forest.new ≡ rest_of forest.old }
    ensures root { forest.new.root ≡ forest.old.root }
    ensures kept { kept_in forest.new ≡ kept_in forest.old }
    ensures refused { OnErr result (forest.new ≡ forest.old) }
{
    let node = parent.node;
    copy_wanted(forest, parent, symbols)?;
    bear_by_place(forest, node, symbols, changes);
    Ok(())
}
