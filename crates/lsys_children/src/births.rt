//! The children of a node that has none, as they come to live.
ghost use Rattle.std.specs.Prelude.{◌≡◌, ◌≤◌, length};
ghost use Rattle.lsys_spec.specs.Draws.{number_base};
ghost use Rattle.lsys_module.specs.Views.{string_of};
ghost use Rattle.lsys_forest.specs.Groves.{now_of, rest_of, changes_in, kept_in, IsLive, IsRooted};
ghost use Rattle.lsys_children.specs.Families.{HasNoKids};
ghost use Rattle.lsys_children.specs.Steps.{AreBorn, CanBear};
ghost use Rattle.lsys_children.specs.NumbersOf.{staying};
ghost use Rattle.lsys_children.specs.Births.{BearsAll, HasRoomForWanted};

use crate::changes::Changes;
use crate::number::Number;
use crate::renew::{adopt, bear};
use lsys_draw::child_key;
use lsys_forest::{Forest, Kept, NodeId};
use lsys_module::Symbol;
use lsys_rewrite::{next_cutting, stays};

/// Makes the children of a node that has none those that a successor wants, numbered by their places, and tells what differs.
/// Each comes to live as its symbol is read: they are not listed before, and nothing is matched. It takes no memory.
pub(crate) fn bear_by_place<A: Kept>(
    forest: &mut Forest<A>,
    parent: NodeId,
    successor: &[Symbol],
    told: &mut Changes,
)
    requires sound { IsRooted forest.old.root (changes_in forest.old) (now_of forest.old) }
    requires lives { IsLive forest.old parent }
    requires bare { HasNoKids forest.old parent }
    requires few { length successor.now ≤ number_base }
    requires room { HasRoomForWanted forest.old parent (string_of successor.now) told.old }
    ensures born { BearsAll forest.old forest.new parent (string_of successor.now) told.old told.new }
    ensures rest { rest_of forest.new ≡ rest_of forest.old }
    ensures root { forest.new.root ≡ forest.old.root }
    ensures kept { kept_in forest.new ≡ kept_in forest.old }
{
    let key = forest.key_of(parent);
    let from = told.added().len();
    bear_staying(forest, parent, key, successor, told);
    adopt(forest, parent, from, told);
}

/// A new node for each of these symbols that the cuts among them leave, in order, under a parent with this key.
fn bear_staying<A: Kept>(
    forest: &mut Forest<A>,
    parent: NodeId,
    key: u64,
    successor: &[Symbol],
    told: &mut Changes,
)
    requires few { length successor.now ≤ number_base }
    requires room { CanBear forest.old parent (staying key successor.now) told.old }
    ensures born { AreBorn forest.old forest.new parent (staying key successor.now) told.old told.new }
    ensures kept { kept_in forest.new ≡ kept_in forest.old }
{
    let mut count = 0;
    let mut cutting = None;
    for symbol in successor {
        let number = Number { code: 0, count };
        let is_left = stays(cutting, symbol);
        count += 1;
        cutting = next_cutting(cutting, symbol);
        if is_left {
            let child = child_key(key, number.code, number.count);
            bear(forest, parent, number, symbol, child, told);
        }
    }
}
