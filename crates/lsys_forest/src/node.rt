//! Nodes as they are kept.
ghost use Rattle.std.specs.Prelude.{◌≡◌, ◌≢◌};
ghost use Rattle.lsys_module.specs.declared.symbol.Symbol.TheVariants.{Cut};
ghost use Rattle.lsys_level.specs.Places.{seen_in, params_in};
ghost use Rattle.lsys_forest.specs.Nodes.{seen_as};
ghost use Rattle.lsys_forest.specs.Groves.{HasFew};
ghost use Rattle.lsys_forest.specs.Slots.{no_footing};
ghost use Rattle.lsys_forest.specs.SlotChanges.{stored_root};

use lsys_module::Symbol;
use lsys_region::Run;
use lsys_text::Name;
use std::marker::Model;

/// The number that names a node of a forest, which is also its tag's.
#[derive(Clone, Copy, Debug, Drop, PartialEq, Eq)]
pub struct NodeId(pub u32);

impl Model for NodeId {
    ghost use Rattle.std.specs.Prelude.{ℕ};
    ghost use Rattle.std.specs.Coded.{coded_ℕ};

    ghost Value = { ℕ };

    ghost coded = { coded_ℕ };

    ghost view = { λ n. n.0 };

    ghost inverse = { λ n. record { 0 = n } };
}

/// A symbol without its parameters.
#[derive(Clone, Copy, Drop)]
pub(crate) enum NodeKind {
    /// `[`
    Push,
    /// `]`
    Pop,
    Module(Name),
}

/// A node without its parameters and its children.
#[derive(Drop)]
pub(crate) struct Stored<A> {
    pub(crate) parent: NodeId,
    /// With the parent, what names it: a code and a count.
    pub(crate) code: u64,
    pub(crate) count: u32,
    /// How many steps it is below the root.
    pub(crate) depth: u32,
    pub(crate) kind: NodeKind,
    pub(crate) key: u64,
    pub(crate) answer: Option<A>,
}

/// Where a node stands among others.
#[derive(Clone, Copy, Drop)]
pub(crate) struct Footing {
    /// Its place in the list that its parent has, where it is in that list.
    pub(crate) rank: usize,
    /// Its neighbours on its level, where the level is linked.
    pub(crate) left: Option<NodeId>,
    pub(crate) right: Option<NodeId>,
    /// The mate of a bracket, where its level has mates.
    pub(crate) mate: Option<NodeId>,
}

/// A node with the runs of its parameters and of its children, and where it stands among others.
#[derive(Drop)]
pub(crate) struct NodeEntry<A> {
    pub(crate) node: Stored<A>,
    pub(crate) params: Run,
    pub(crate) kids: Run,
    pub(crate) footing: Footing,
}

/// The kind of a symbol.
pub(crate) fn kind_of(symbol: &Symbol) -> NodeKind
    requires { symbol.now ≢ Cut }
    ensures { seen_as result (params_in symbol.now) ≡ seen_in symbol.now }
{
    match symbol {
        Symbol::Push => NodeKind::Push,
        Symbol::Pop => NodeKind::Pop,
        Symbol::Module(module) => NodeKind::Module(module.name),
        Symbol::Cut => unreachable!(),
    }
}

/// The parameters of a symbol; a bracket has none.
pub(crate) fn params_of(symbol: &Symbol) -> &[i64]
    ensures params { result.now ≡ params_in symbol.now }
    ensures few { HasFew (seen_in symbol.now) }
{
    match symbol {
        Symbol::Module(module) => module.params.values(),
        _ => &[],
    }
}

/// Where a node stands that has no others around it.
#[inline]
pub(crate) fn nowhere() -> Footing
    ensures { result ≡ no_footing }
{
    Footing {
        rank: 0,
        left: None,
        right: None,
        mate: None,
    }
}

/// The root as it is kept.
pub(crate) fn root_stored<A>() -> Stored<A>
    ensures { result ≡ stored_root }
{
    Stored {
        parent: NodeId(0),
        code: 0,
        count: 0,
        depth: 0,
        kind: NodeKind::Push,
        key: 0,
        answer: None,
    }
}
