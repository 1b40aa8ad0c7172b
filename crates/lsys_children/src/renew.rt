//! The step for one parent.
ghost use Rattle.std.specs.Prelude.{◌≡◌, ◌≢◌, ◌+◌, ◌≤◌, ◌<◌, [], ◌∷◌, ◌++◌, length, IsTrue, true, false, Some, None, drop, vec_capacity};
ghost use Rattle.lsys_module.specs.declared.symbol.Symbol.TheVariants.{Cut};
ghost use Rattle.lsys_level.specs.Places.{seen_in, params_in};
ghost use Rattle.lsys_region.specs.Rooms.{list_room};
ghost use Rattle.lsys_forest.specs.Nodes.{with_seen, with_key, with_kids};
ghost use Rattle.lsys_forest.specs.Groves.{now_of, rest_of, changes_in, IsLive, IsRooted, spare_params, spare_kids, kept_in, AreKids, Spends};
ghost use Rattle.lsys_children.specs.Matches.{AreDifferent};
ghost use Rattle.lsys_children.specs.Children.{numbers_of, AreWhole};
ghost use Rattle.lsys_children.specs.Steps.{IsPlaced, HavePlaces, AreBorn, Adopts, CanAdopt, CanBear, CanPlace, CanPlaceAll, KindsTell, new_kid};
ghost use Rattle.lsys_children.specs.Families.{AreMatchedKids, HasNoKids, FlagFallsByKind, HasRoomToRenew, RenewsKids, SetsBy, SpendsNeedOf, TellsEach, TellsKids, TellsKind, TellsNode, TellsOtherKids};

use crate::changes::{Changes, push};
use crate::child::Child;
use crate::number::Number;
use lsys_forest::{Forest, Kept, NodeId};
use lsys_level::Sight;
use lsys_module::Symbol;

/// Whether a symbol is of the kind of a node's: a bracket that begins a branch, one that ends it, or a module.
fn has_kind<A: Kept>(forest: &Forest<A>, node: NodeId, symbol: &Symbol) -> bool
    requires lives { IsLive forest.now node }
    requires whole { symbol.now ≢ Cut }
    ensures { TellsKind forest.now node symbol.now result }
{
    match forest.symbol(node) {
        Sight::Push => matches!(symbol, Symbol::Push),
        Sight::Pop => matches!(symbol, Symbol::Pop),
        Sight::Module { .. } => matches!(symbol, Symbol::Module(_)),
    }
}

/// Adds a new node under a parent for a child with this number, this symbol and this key, and tells it. It takes no memory.
pub(crate) fn bear<A: Kept>(
    forest: &mut Forest<A>,
    parent: NodeId,
    number: Number,
    symbol: &Symbol,
    key: u64,
    changes: &mut Changes,
) -> NodeId
    requires { CanPlace forest.old parent (new_kid number symbol.now key) None changes.old }
    ensures placed { IsPlaced forest.old forest.new parent (new_kid number symbol.now key) None result }
    ensures kept { kept_in forest.new ≡ kept_in forest.old }
    ensures told { TellsNode forest.old forest.new result changes.old changes.new }
    ensures added { changes.new.added ≡ changes.old.added ++ result ∷ [] }
{
    let node = forest.add(parent, number.code, number.count, symbol, key);
    changes.tell_added(node);
    node
}

/// Sets the symbol of a node if it has another one, and tells whether it had.
fn renew_symbol<A: Kept>(
    forest: &mut Forest<A>,
    node: NodeId,
    symbol: &Symbol,
    changes: &mut Changes,
)
    requires lives { IsLive forest.old node }
    requires other { node ≢ forest.old.root }
    requires whole { symbol.now ≢ Cut }
    requires notes { 0 < forest.old.spare_notes }
    requires room { list_room (params_in symbol.now) ≤ spare_params forest.old }
    requires told { 0 < changes.old.room }
    ensures set { SetsBy forest.old forest.new node (with_seen (seen_in symbol.now)) }
    ensures spends { Spends forest.old forest.new 0 (list_room (params_in symbol.now)) 0 1 }
    ensures kept { kept_in forest.new ≡ kept_in forest.old }
    ensures told { TellsNode forest.old forest.new node changes.old changes.new }
{
    if !forest.has_symbol(node, symbol) {
        forest.set_symbol(node, symbol);
        changes.tell_changed(node);
    }
}

/// Sets the key of a node if it has another one.
fn renew_key<A: Kept>(forest: &mut Forest<A>, node: NodeId, key: u64)
    requires lives { IsLive forest.old node }
    requires other { node ≢ forest.old.root }
    requires notes { 0 < forest.old.spare_notes }
    ensures set { SetsBy forest.old forest.new node (with_key key) }
    ensures spends { Spends forest.old forest.new 0 0 0 1 }
    ensures kept { kept_in forest.new ≡ kept_in forest.old }
{
    if forest.key_of(node) != key {
        forest.set_key(node, key);
    }
}

/// Sets the symbol and the key of an old node where they differ from those of the child that it is, tells whether the symbol
/// did, and answers whether its kind stays.
fn renew<A: Kept>(
    forest: &mut Forest<A>,
    parent: NodeId,
    node: NodeId,
    child: &Child,
    changes: &mut Changes,
) -> bool
    requires { CanPlace forest.old parent child.now (Some node) changes.old }
    ensures placed { IsPlaced forest.old forest.new parent child.now (Some node) node }
    ensures kept { kept_in forest.new ≡ kept_in forest.old }
    ensures told { TellsNode forest.old forest.new node changes.old changes.new }
    ensures kind { KindsTell (now_of forest.old) (now_of forest.new) (node ∷ []) result }
{
    let keeps_kind = has_kind(forest, node, &child.symbol);
    renew_symbol(forest, node, &child.symbol, changes);
    renew_key(forest, node, child.key);
    keeps_kind
}

/// The node of one child that is wanted: the old one that was found, renewed, or a new one. The flag falls where an old one
/// is of another kind then.
fn place<A: Kept>(
    forest: &mut Forest<A>,
    parent: NodeId,
    child: &Child,
    found: Option<NodeId>,
    changes: &mut Changes,
    keep_kinds: &mut bool,
) -> NodeId
    requires { CanPlace forest.old parent child.now found changes.old }
    ensures placed { IsPlaced forest.old forest.new parent child.now found result }
    ensures kept { kept_in forest.new ≡ kept_in forest.old }
    ensures told { TellsNode forest.old forest.new result changes.old changes.new }
    ensures kinds { FlagFallsByKind forest.old forest.new result keep_kinds.old keep_kinds.new }
    ensures other { result ≢ parent }
{
    match found {
        Some(node) => {
            *keep_kinds &= renew(forest, parent, node, child, changes);
            node
        }
        None => bear(
            forest,
            parent,
            child.number,
            &child.symbol,
            child.key,
            changes,
        ),
    }
}

/// The nodes of the children that are wanted, in order, and whether the old ones among them are of the kinds that they were.
fn place_all<A: Kept>(
    forest: &mut Forest<A>,
    parent: NodeId,
    wanted: &[Child],
    found: &[Option<NodeId>],
    nodes: &mut Vec<NodeId>,
    changes: &mut Changes,
) -> bool
    requires room { CanPlaceAll forest.old parent wanted.now found.now changes.old }
    requires empty { nodes.old.items ≡ [] }
    requires places { length wanted.now ≤ vec_capacity nodes.old }
    ensures placed { HavePlaces forest.old forest.new parent wanted.now found.now nodes.new.items }
    ensures told { TellsEach forest.old forest.new nodes.new.items changes.old changes.new }
    ensures kinds { KindsTell (now_of forest.old) (now_of forest.new) nodes.new.items result }
    ensures kept { kept_in forest.new ≡ kept_in forest.old }
{
    let mut keep_kinds = true;
    for at in 0..wanted.len() {
        let node = place(
            forest,
            parent,
            &wanted[at],
            found[at],
            changes,
            &mut keep_kinds,
        );
        push(nodes, node);
    }
    keep_kinds
}

/// Sets the children of a node if it has others, and answers whether it had.
fn set_list<A: Kept>(forest: &mut Forest<A>, node: NodeId, kids: &[NodeId]) -> bool
    requires lives { IsLive forest.old node }
    requires kids { AreKids (now_of forest.old) forest.old.root node kids.now }
    requires notes { 0 < forest.old.spare_notes }
    requires room { list_room kids.now ≤ spare_kids forest.old }
    ensures set { SetsBy forest.old forest.new node (with_kids kids.now) }
    ensures spends { Spends forest.old forest.new 0 0 (list_room kids.now) 1 }
    ensures kept { kept_in forest.new ≡ kept_in forest.old }
    ensures had { TellsOtherKids forest.old node kids.now result }
{
    if forest.children(node) == kids {
        return false;
    }
    forest.set_children(node, kids);
    true
}

/// Makes the children of a node those that are wanted, of which these old ones were found, and tells what differs; these old
/// ones are children no more.
pub(crate) fn renew_all<A: Kept>(
    forest: &mut Forest<A>,
    parent: NodeId,
    wanted: &[Child],
    found: &[Option<NodeId>],
    gone: &[NodeId],
    nodes: &mut Vec<NodeId>,
    changes: &mut Changes,
)
    requires sound { IsRooted forest.old.root (changes_in forest.old) (now_of forest.old) }
    requires lives { IsLive forest.old parent }
    requires matched { AreMatchedKids forest.old parent wanted.now found.now gone.now }
    requires apart { AreDifferent (numbers_of wanted.now) }
    requires whole { AreWhole wanted.now }
    requires room { HasRoomToRenew forest.old parent wanted.now changes.old }
    requires empty { nodes.old.items ≡ [] }
    requires places { length wanted.now ≤ vec_capacity nodes.old }
    ensures children { RenewsKids forest.old forest.new parent wanted.now }
    ensures told { TellsKids forest.old forest.new parent wanted.now changes.old changes.new }
    ensures rest { rest_of forest.new ≡ rest_of forest.old }
    ensures root { forest.new.root ≡ forest.old.root }
    ensures kept { kept_in forest.new ≡ kept_in forest.old }
    ensures spends { SpendsNeedOf forest.old forest.new parent wanted.now }
{
    let keep_kinds = place_all(forest, parent, wanted, found, nodes, changes);
    let had_others = set_list(forest, parent, nodes);
    tell_family(changes, parent, had_others, keep_kinds);
    changes.tell_gone(gone);
}

/// Tells that a node has other children than it had, or children of other kinds, if it has.
fn tell_family(changes: &mut Changes, node: NodeId, had_others: bool, keep_kinds: bool)
    requires { 0 < changes.old.room }
    ensures others { IsTrue had_others → changes.new.touched ≡ changes.old.touched ++ node ∷ [] }
    ensures kinds { keep_kinds ≡ false → changes.new.touched ≡ changes.old.touched ++ node ∷ [] }
    ensures stays { had_others ≡ false → keep_kinds ≡ true → changes.new.touched ≡ changes.old.touched }
    ensures changed { changes.new.changed ≡ changes.old.changed }
    ensures added { changes.new.added ≡ changes.old.added }
    ensures gone { changes.new.gone ≡ changes.old.gone }
    ensures room { changes.old.room ≤ changes.new.room + 1 }
{
    if had_others || !keep_kinds {
        changes.tell_touched(node);
    }
}

/// A new node for each of these children, in order.
fn bear_each<A: Kept>(
    forest: &mut Forest<A>,
    parent: NodeId,
    wanted: &[Child],
    changes: &mut Changes,
)
    requires room { CanBear forest.old parent wanted.now changes.old }
    ensures born { AreBorn forest.old forest.new parent wanted.now changes.old changes.new }
    ensures kept { kept_in forest.new ≡ kept_in forest.old }
{
    for child in wanted {
        bear(
            forest,
            parent,
            child.number,
            &child.symbol,
            child.key,
            changes,
        );
    }
}

/// Makes the nodes that were told to be new, but for the first so many, the children of a node, and tells it if it had others.
/// It takes no memory.
pub(crate) fn adopt<A: Kept>(
    forest: &mut Forest<A>,
    parent: NodeId,
    from: usize,
    told: &mut Changes,
)
    requires within { from ≤ length told.old.added }
    requires kids { CanAdopt forest.old parent (drop from told.old.added) told.old }
    ensures adopted { Adopts forest.old forest.new parent (drop from told.old.added) told.old told.new }
    ensures kept { kept_in forest.new ≡ kept_in forest.old }
{
    let had_others = set_list(forest, parent, &told.added()[from..]);
    tell_family(told, parent, had_others, true);
}

/// Makes the children that are wanted of a node that has none, and tells what differs: nothing is matched.
pub(crate) fn bear_all<A: Kept>(
    forest: &mut Forest<A>,
    parent: NodeId,
    wanted: &[Child],
    changes: &mut Changes,
)
    requires sound { IsRooted forest.old.root (changes_in forest.old) (now_of forest.old) }
    requires lives { IsLive forest.old parent }
    requires bare { HasNoKids forest.old parent }
    requires apart { AreDifferent (numbers_of wanted.now) }
    requires whole { AreWhole wanted.now }
    requires room { HasRoomToRenew forest.old parent wanted.now changes.old }
    ensures children { RenewsKids forest.old forest.new parent wanted.now }
    ensures told { TellsKids forest.old forest.new parent wanted.now changes.old changes.new }
    ensures rest { rest_of forest.new ≡ rest_of forest.old }
    ensures root { forest.new.root ≡ forest.old.root }
    ensures kept { kept_in forest.new ≡ kept_in forest.old }
    ensures spends { SpendsNeedOf forest.old forest.new parent wanted.now }
{
    let from = changes.added().len();
    bear_each(forest, parent, wanted, changes);
    adopt(forest, parent, from, changes);
}
