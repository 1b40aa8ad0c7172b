//! What the step for a parent without children takes: all that are wanted of it are new, and nothing is matched.
ghost use Rattle.std.specs.Prelude.{◌≡◌, ◌≤◌, ◌^◌, cond, length};
ghost use Rattle.lsys_spec.specs.Draws.{number_base};
ghost use Rattle.lsys_module.specs.Views.{symbol_of, string_of};
ghost use Rattle.lsys_forest.specs.Groves.{now_of, IsLive};
ghost use Rattle.lsys_children.specs.Answers.{kept_successors};
ghost use Rattle.lsys_children.specs.Parents.{wants};
ghost use Rattle.lsys_children.specs.Needs.{IsBoundedCount, count_anew, count_of_new, plain_room};

use crate::count::ChildCount;
use crate::need::{Need, room_for};
use crate::parent::Parent;
use lsys_forest::Forest;
use lsys_level::Sight;
use lsys_module::Symbol;
use lsys_reads::KeptAnswer;
use lsys_region::room;
use lsys_rewrite::{next_cutting, stays};
use std::sync::ledger::Ledger;

/// Counts what the step takes for a parent that has no children. It costs steps by the length of what replaces the parent, and
/// takes no memory.
pub(crate) fn count_anew<L: Ledger>(forest: &Forest<KeptAnswer<L>>, parent: Parent) -> ChildCount
    requires lives { IsLive forest.now parent.node }
    requires short { length (kept_successors (now_of forest.now) parent.node) ≤ number_base }
    ensures count { result ≡ count_anew (wants (now_of forest.now) parent) }
    ensures few { IsBoundedCount 1 result.had result }
{
    if parent.is_cut {
        return all_new(0, 0);
    }
    match forest.symbol(parent.node) {
        Sight::Push | Sight::Pop => all_new(1, 0),
        Sight::Module { params, .. } => match forest.answer(parent.node) {
            Some(kept) => count_staying(kept.answer.successor().symbols()),
            None => all_new(1, room(params.len())),
        },
    }
}

/// Counts what it takes for those of these symbols that the cuts among them leave.
fn count_staying(symbols: &[Symbol]) -> ChildCount
    requires short { length symbols.now ≤ number_base }
    ensures count { result ≡ count_anew (string_of symbols.now) }
    ensures few { IsBoundedCount 1 result.had result }
{
    let mut cutting = None;
    let mut nodes = 0;
    let mut params = 0;
    for symbol in symbols {
        let is_left = stays(cutting, symbol);
        nodes += one_if(is_left);
        params += room_if(is_left, symbol);
        cutting = next_cutting(cutting, symbol);
    }
    all_new(nodes, params)
}

/// One for a symbol that stays.
fn one_if(stays: bool) -> usize
    ensures count { result ≡ cond stays 1 0 }
    ensures few { result ≤ 1 }
{
    match stays {
        true => 1,
        false => 0,
    }
}

/// The room that the parameters of a symbol take, if it stays.
fn room_if(stays: bool, symbol: &Symbol) -> usize
    ensures room { result ≡ cond stays (plain_room (symbol_of symbol.now)) 0 }
    ensures few { result ≤ 16 }
{
    match stays {
        true => room_for(symbol),
        false => 0,
    }
}

/// The count of so many new children, whose parameters take so much room.
#[tactic(auto, unfolding(lsys_region::specs::Rooms::room_of))]
fn all_new(nodes: usize, params: usize) -> ChildCount
    requires nodes { nodes ≤ number_base }
    requires params { params ≤ 2 ^ 16 }
    ensures count { result ≡ count_of_new nodes params }
    ensures few { IsBoundedCount 1 result.had result }
{
    ChildCount {
        need: Need {
            nodes,
            params,
            kids: room(nodes),
            notes: nodes + 1,
            told: nodes + 1,
        },
        wanted: nodes,
        had: 0,
    }
}
