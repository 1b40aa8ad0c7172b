//! What the step for one parent takes.
ghost use Rattle.std.specs.Prelude.{◌≡◌, ◌+◌, ◌*◌, ◌≤◌, ◌^◌, ◌∷◌, [], length};
ghost use Rattle.lsys_module.specs.Views.{symbol_of};
ghost use Rattle.lsys_level.specs.Places.{params_in};
ghost use Rattle.lsys_region.specs.Rooms.{list_room};
ghost use Rattle.lsys_children.specs.Children.{births, notes_for, params_for, need_of, IsFew};
ghost use Rattle.lsys_children.specs.Needs.{plain_room};

use crate::child::Child;
use lsys_forest::NodeId;
use lsys_module::Symbol;
use lsys_region::room;

/// What the step for one parent takes at most: nodes, cells of parameters and of children, and notes of a forest; and in
/// each list of [`Changes`], so many places. How many nodes it adds is told exactly.
///
/// [`Changes`]: crate::Changes
#[derive(Clone, Copy, Debug, Drop)]
pub struct Need {
    pub nodes: usize,
    pub params: usize,
    pub kids: usize,
    pub notes: usize,
    pub told: usize,
}

/// What the step takes for these children, of which these old ones were found, where so many were there.
pub(crate) fn need_of(wanted: &[Child], old: usize, found: &[Option<NodeId>]) -> Need
    requires few { length wanted.now ≤ 4096 }
    requires old { old ≤ 2 ^ 62 }
    requires found { length found.now ≡ length wanted.now }
    ensures need { result ≡ need_of wanted.now old found.now }
    ensures few { IsFew result }
{
    let nodes = births(found);
    Need {
        nodes,
        params: params_for(wanted),
        kids: room(wanted.len()),
        notes: 2 * found.len() - nodes + 1,
        told: wanted.len() + old + 1,
    }
}

/// How many nodes are to be added. A child takes one note where it is added, and two where it is found.
fn births(found: &[Option<NodeId>]) -> usize
    requires { length found.now ≤ 4096 }
    ensures count { result ≡ births found.now }
    ensures few { result ≤ length found.now }
    ensures notes { notes_for found.now + result ≡ 2 * length found.now }
{
    let mut nodes = 0;
    for old in found {
        nodes += birth(*old);
    }
    nodes
}

/// One where a node is to be added.
fn birth(old: Option<NodeId>) -> usize
    ensures count { result ≡ births (old ∷ []) }
    ensures few { result ≤ 1 }
{
    match old {
        None => 1,
        Some(_) => 0,
    }
}

/// The room that the parameters of the children take.
fn params_for(wanted: &[Child]) -> usize
    requires { length wanted.now ≤ 4096 }
    ensures cells { result ≡ params_for wanted.now }
    ensures few { result ≤ 16 * length wanted.now }
{
    let mut cells = 0;
    for child in wanted {
        cells += room_for(&child.symbol);
    }
    cells
}

/// The room that the parameters of a symbol take.
#[tactic(auto, unfolding(lsys_region::specs::Rooms::room_of))]
pub(crate) fn room_for(symbol: &Symbol) -> usize
    ensures room { result ≡ list_room (params_in symbol.now) }
    ensures plain { result ≡ plain_room (symbol_of symbol.now) }
    ensures few { result ≤ 16 }
{
    match symbol {
        Symbol::Module(module) => room(module.params.values().len()),
        Symbol::Push | Symbol::Pop | Symbol::Cut => 0,
    }
}
