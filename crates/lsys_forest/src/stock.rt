//! The parts of a forest: its nodes, their lists, and the journal.
ghost use Rattle.std.specs.Prelude.{◌≡◌, ◌≢◌, ◌↔◌, ℕ, ◌+◌, ◌<◌, ◌≤◌, ◌^◌, [], length, List, Option, Some, None, IsSome, IfOk, IfSome, IfNone, IsTrue, OnOk, option_copied, false};
ghost use Rattle.lsys_module.specs.declared.symbol.Symbol.TheVariants.{Cut};
ghost use Rattle.lsys_level.specs.Places.{seen_in, params_in};
ghost use Rattle.lsys_level.specs.Views.{seen_of};
ghost use Rattle.lsys_region.specs.Rooms.{list_room};
ghost use Rattle.lsys_forest.specs.declared.node.Stored.{Stored};
ghost use Rattle.lsys_forest.specs.declared.walk.Way.{Way};
ghost use Rattle.lsys_forest.specs.Shelves.{IsOwner, OnShelf};
ghost use Rattle.lsys_forest.specs.Slots.{slot_at, footing_at, rank_at, link_at, footing_mate, mate_set, live_slots};
ghost use Rattle.lsys_forest.specs.Answers.{old_answer, Lives, Releases};
ghost use Rattle.lsys_forest.specs.Groves.{HasFew, IsRooted};
ghost use Rattle.lsys_forest.specs.Nodes.{Node, root_node, with_node, ForNode};
ghost use Rattle.lsys_forest.specs.Changes.{KeepsKids, Missing};
ghost use Rattle.lsys_forest.specs.Stocks.{nodes_of, changes_of, row_at, KeepsRoom, KeepsFootings, undone_slots, undone_footings, DropsLeft, TakesLeft, nodes_left, named_by};
ghost use Rattle.lsys_forest.specs.Ranks.{LinksRow, KeepsLinks, KeepsMates, IsApartFrom, RanksKidsOf};
ghost use Rattle.lsys_forest.specs.Rows.{depth_in};
ghost use Rattle.lsys_forest.specs.LastChange.{ForLastChange, StaysUnchanged, UndoDropsMade, GoesBack, TakesOneUp, RemovesNode};
ghost use Rattle.lsys_forest.specs.Journaled.{JournalsSymbol, JournalsKey, JournalsAnswer, JournalsKids, JournalsBirth};
ghost use Rattle.lsys_forest.specs.NodeLists.{UndoesNotedParams, UndoesNotedKids, dropped_by_note};
ghost use Rattle.lsys_forest.specs.SlotChanges.{KeepsOtherFootings};
ghost use Rattle.lsys_forest.specs.Neighbours.{kids_kept};
ghost use Rattle.lsys_forest.specs.Regions.{StandIn};

use crate::journal::{Journal, Line, Sort};
use crate::kept::{Kept, release_one};
use crate::lists::Lists;
use crate::node::{Footing, NodeId, NodeKind, Stored, kind_of, params_of, root_stored};
use crate::note::{Look, Note, Remnant, Was};
use crate::runs::{
    clear, insert, link_row, number, restore_kids, restore_params, swap_kids, swap_params, take_out,
};
use crate::table::NodeTable;
use crate::walk::Way;
use lsys_level::Sight;
use lsys_module::Symbol;
use lsys_region::Region;
use std::alloc::{AllocError, Global};
use std::marker::Model;

/// Nodes, their parameters and children, and the notes of what they were before each change since the last rest.
#[derive(Drop)]
pub(crate) struct Parts<A> {
    table: NodeTable<A>,
    params: Lists<i64>,
    kids: Lists<NodeId>,
    journal: Journal<A>,
}

impl<A> Model for Parts<A> {
    ghost use Rattle.lsys_forest.specs.Stocks.{Stock, stock_of, AreStockParts};

    ghost Value = { Stock A };

    ghost view = { λ a. stock_of a.table a.params a.kids a.journal };

    ghost invariant = { λ a. AreStockParts a.table a.params a.kids a.journal.notes };
}

impl<A: Drop> Parts<A> {
    /// The root alone, with number 0, and no changes.
    ///
    /// # Errors
    ///
    /// Out of memory.
    pub(crate) fn of_root(alloc: Global) -> Result<Parts<A>, AllocError>
        ensures nodes { IfOk result (λ p. nodes_of p ≡ with_node (λ k. None) 0 (Some (root_node 0))) }
        ensures changes { IfOk result (λ p. changes_of p ≡ []) }
        ensures live { IfOk result (λ p. live_slots p.slots ≡ 1) }
        ensures capacity { IfOk result (λ p. 1 ≤ p.capacity) }
        ensures notes { IfOk result (λ p. 1 ≤ p.note_room) }
    {
        let mut table = NodeTable::new(alloc);
        table.reserve(1)?;
        let mut params = Lists::new(alloc);
        let mut kids = Lists::new(alloc);
        insert(&mut table, &mut params, &mut kids, root_stored(), &[]);
        let mut parts = Parts {
            table,
            params,
            kids,
            journal: Journal::new(alloc),
        };
        parts.reserve(0, 0, 1)?;
        Ok(parts)
    }

    /// Makes room for so many cells of parameters, cells of children, and notes more.
    ///
    /// # Errors
    ///
    /// Out of memory. The nodes and the changes stay.
    pub(crate) fn reserve(
        &mut self,
        params: usize,
        kids: usize,
        notes: usize,
    ) -> Result<(), AllocError>
        ensures nodes { nodes_of self.new ≡ nodes_of self.old }
        ensures changes { changes_of self.new ≡ changes_of self.old }
        ensures footings { self.new.footings ≡ self.old.footings }
        ensures live { live_slots self.new.slots ≡ live_slots self.old.slots }
        ensures keeps { KeepsRoom self.old self.new }
        ensures notes { OnOk result (notes ≤ self.new.note_room) }
        ensures param_room { OnOk result (params ≤ self.new.param_room) }
        ensures kid_room { OnOk result (kids ≤ self.new.kid_room) }
        ensures fits { OnOk result (notes < 2 ^ 63) }
    {
        self.journal.reserve(notes)?;
        self.params.reserve(notes, params)?;
        self.kids.reserve(notes, kids)
    }

    /// Makes room for so many nodes more.
    ///
    /// # Errors
    ///
    /// Out of memory. The nodes stay.
    pub(crate) fn reserve_nodes(&mut self, nodes: usize) -> Result<(), AllocError>
        ensures nodes { self.new ≡ record self.old { capacity = self.new.capacity } }
        ensures room { OnOk result (live_slots self.new.slots + nodes ≤ self.new.capacity) }
        ensures numbers { OnOk result (self.new.capacity ≤ 2 ^ 32) }
        ensures capacity { self.old.capacity ≤ self.new.capacity }
    {
        self.table.reserve(nodes)
    }

    /// Whether there are numbers for all nodes that there is room for.
    pub(crate) fn has_numbers(&self) -> bool
        ensures { IsTrue result ↔ (self.now.capacity ≤ 2 ^ 32) }
    {
        self.table.has_numbers()
    }

    /// How many nodes live.
    pub(crate) fn live(&self) -> usize
        ensures { result ≡ live_slots self.now.slots }
    {
        self.table.live()
    }

    /// For how many nodes there is room. Each number is below it.
    pub(crate) fn numbers(&self) -> usize
        ensures room { result ≡ self.now.capacity }
        ensures below { (k : ℕ) → IsSome (slot_at self.now.slots k) → k < result }
    {
        self.table.numbers()
    }

    /// The node whose children the last change set, if it set children.
    pub(crate) fn last_family(&self) -> Option<NodeId>
        ensures some { IfSome result (λ k. ForLastChange self.now (λ c. c.node ≡ k)) }
        ensures none { IfNone result (ForLastChange self.now (λ c. KeepsKids c.before)) }
    {
        self.journal.last_family()
    }

    /// A node without its lists, if it lives.
    pub(crate) fn get(&self, node: NodeId) -> Option<&Stored<A>>
        ensures { option_copied result ≡ slot_at self.now.slots node }
    {
        self.table.get(node)
    }

    /// The parameters of a node that lives.
    pub(crate) fn params(&self, node: NodeId) -> &[i64]
        requires { IsSome (nodes_of self.now node) }
        ensures { result.now ≡ row_at self.now.params node }
    {
        match self.table.params(node) {
            Some(run) => self.params.read(run),
            None => unreachable!(),
        }
    }

    /// The children of a node that lives.
    pub(crate) fn kids(&self, node: NodeId) -> &[NodeId]
        requires { IsSome (nodes_of self.now node) }
        ensures { result.now ≡ row_at self.now.kids node }
    {
        match self.table.kids(node) {
            Some(run) => self.kids.read(run),
            None => unreachable!(),
        }
    }

    /// The regions in which the parameters and the lists of children stand.
    pub(crate) fn regions(&self) -> (&Region<i64>, &Region<NodeId>)
        ensures params { StandIn (nodes_of self.now) self.now.params self.now.past_params result.0.now }
        ensures kids { StandIn (nodes_of self.now) self.now.kids self.now.past_kids result.1.now }
        ensures rest { changes_of self.now ≡ [] → (self.now.past_params ≡ []) × (self.now.past_kids ≡ []) }
    {
        self.table.law_of_vacant_numbers();
        (self.params.region(), self.kids.region())
    }

    /// The rank of a node; 0 where it doesn't live.
    pub(crate) fn rank(&self, node: NodeId) -> usize
        ensures { result ≡ rank_at self.now.footings node }
    {
        self.table.rank(node)
    }

    /// The neighbour to which a node is linked, that way; none where it doesn't live.
    pub(crate) fn link(&self, node: NodeId, way: Way) -> Option<NodeId>
        ensures { result ≡ link_at way self.now.footings node }
    {
        self.table.link(node, way)
    }

    /// The mate that stands at a node; none where it doesn't live.
    pub(crate) fn mate(&self, node: NodeId) -> Option<NodeId>
        ensures { result ≡ footing_mate self.now.footings node }
    {
        self.table.mate(node)
    }

    /// Where a node stands among others; nowhere where it doesn't live.
    #[inline]
    pub(crate) fn footing(&self, node: NodeId) -> Footing
        ensures { result ≡ footing_at self.now.footings node }
    {
        self.table.footing(node)
    }

    /// How many steps a node is below the root; 0 where it doesn't live.
    pub(crate) fn depth(&self, node: NodeId) -> u32
        ensures { result ≡ depth_in (nodes_of self.now node) }
    {
        match self.table.get(node) {
            Some(found) => found.depth,
            None => 0,
        }
    }

    /// The kind of the symbol of a node that lives.
    pub(crate) fn kind(&self, node: NodeId) -> NodeKind
        requires { IsSome (nodes_of self.now node) }
        ensures { (s : Stored A) → slot_at self.now.slots node ≡ Some s → result ≡ s.kind }
    {
        match self.table.get(node) {
            Some(found) => found.kind,
            None => unreachable!(),
        }
    }

    /// The symbol of a node that lives.
    pub(crate) fn symbol(&self, node: NodeId) -> Sight<'_>
        requires { IsSome (nodes_of self.now node) }
        ensures { (n : Node A) → nodes_of self.now node ≡ Some n → seen_of result ≡ n.seen }
    {
        match self.kind(node) {
            NodeKind::Push => Sight::Push,
            NodeKind::Pop => Sight::Pop,
            NodeKind::Module(name) => Sight::Module {
                name,
                params: self.params(node),
            },
        }
    }

    /// The key of a node that lives.
    pub(crate) fn key(&self, node: NodeId) -> u64
        requires { IsSome (nodes_of self.now node) }
        ensures { (n : Node A) → nodes_of self.now node ≡ Some n → result ≡ n.key }
    {
        match self.table.get(node) {
            Some(found) => found.key,
            None => unreachable!(),
        }
    }

    /// The children in hand.
    pub(crate) fn in_hand(&self) -> &[NodeId]
        ensures { result.now ≡ self.now.hand }
    {
        self.kids.in_hand()
    }

    /// Adds a node, and notes it. It takes no memory.
    pub(crate) fn insert(
        &mut self,
        parent: NodeId,
        code: u64,
        count: u32,
        depth: u32,
        symbol: &Symbol,
        key: u64,
    ) -> NodeId
        requires whole { symbol.now ≢ Cut }
        requires capacity { live_slots self.old.slots < self.old.capacity }
        requires numbers { self.old.capacity ≤ 2 ^ 32 }
        requires place { 0 < self.old.note_room }
        requires room { list_room (params_in symbol.now) ≤ self.old.param_room }
        ensures vacant { nodes_of self.old result ≡ None }
        ensures few { HasFew (seen_in symbol.now) }
        ensures added { JournalsBirth self.old self.new result parent code count depth symbol.now key }
    {
        let stored = Stored {
            parent,
            code,
            count,
            depth,
            kind: kind_of(symbol),
            key,
            answer: None,
        };
        let number = insert(
            &mut self.table,
            &mut self.params,
            &mut self.kids,
            stored,
            params_of(symbol),
        );
        self.journal.push_bare(Line {
            node: number,
            sort: Sort::Missing,
        });
        number
    }

    /// Sets a symbol, and notes the one before. It takes no memory.
    pub(crate) fn set_symbol(&mut self, node: NodeId, symbol: &Symbol)
        requires lives { IsSome (nodes_of self.old node) }
        requires whole { symbol.now ≢ Cut }
        requires place { 0 < self.old.note_room }
        requires room { list_room (params_in symbol.now) ≤ self.old.param_room }
        ensures few { HasFew (seen_in symbol.now) }
        ensures set { JournalsSymbol self.old self.new node symbol.now }
    {
        let Some(kind) = self.table.swap_kind(node, kind_of(symbol)) else {
            unreachable!()
        };
        swap_params(&mut self.table, &mut self.params, node, params_of(symbol));
        self.journal.push(Note {
            node,
            was: Was::Kind(kind),
        });
    }

    /// Sets a key, and notes the one before. It takes no memory.
    pub(crate) fn set_key(&mut self, node: NodeId, key: u64)
        requires lives { IsSome (nodes_of self.old node) }
        requires place { 0 < self.old.note_room }
        ensures { JournalsKey self.old self.new node key }
    {
        let Some(before) = self.table.swap_key(node, key) else {
            unreachable!()
        };
        self.journal.push(Note {
            node,
            was: Was::Key(before),
        });
    }

    /// Sets an answer, and notes the one before. It takes no memory.
    pub(crate) fn set_answer(&mut self, node: NodeId, answer: Option<A>)
        requires lives { IsSome (nodes_of self.old node) }
        requires place { 0 < self.old.note_room }
        ensures { JournalsAnswer self.old self.new node answer }
    {
        let before = self.table.swap_answer(node, answer);
        self.journal.push_answer(node, before);
    }

    /// Sets the children, and notes those before. It takes no memory.
    pub(crate) fn set_kids(&mut self, node: NodeId, kids: &[NodeId])
        requires lives { IsSome (nodes_of self.old node) }
        requires place { 0 < self.old.note_room }
        requires room { list_room kids.now ≤ self.old.kid_room }
        ensures { JournalsKids self.old self.new node kids.now }
    {
        swap_kids(&mut self.table, &mut self.kids, node, kids);
        self.journal.push_bare(Line {
            node,
            sort: Sort::Kids,
        });
    }

    /// Gives the children of a node their ranks, if it lives.
    pub(crate) fn rerank(&mut self, node: NodeId)
        requires { (root : ℕ) × IsRooted root (changes_of self.old) (nodes_of self.old) }
        ensures same { self.new ≡ record self.old { footings = self.new.footings } }
        ensures ranked { RanksKidsOf node self.old self.new }
        ensures links { KeepsLinks self.old.footings self.new.footings }
        ensures mates { KeepsMates self.old.footings self.new.footings }
    {
        if let Some(run) = self.table.kids(node) {
            let kids = self.kids.read(run);
            number(&mut self.table, kids);
        }
    }

    /// Gives these nodes, which are the children of a node, their ranks.
    pub(crate) fn rank_kids(&mut self, node: NodeId, kids: &[NodeId])
        requires sound { (root : ℕ) × IsRooted root (changes_of self.old) (nodes_of self.old) }
        requires kids { kids_kept self.old node ≡ kids.now }
        ensures same { self.new ≡ record self.old { footings = self.new.footings } }
        ensures ranked { RanksKidsOf node self.old self.new }
        ensures links { KeepsLinks self.old.footings self.new.footings }
        ensures mates { KeepsMates self.old.footings self.new.footings }
    {
        number(&mut self.table, kids);
    }

    /// Links the children of a node to one another, the first of them after `before`, and answers the last.
    pub(crate) fn link_kids(&mut self, node: NodeId, before: Option<NodeId>) -> Option<NodeId>
        requires sound { (root : ℕ) × IsRooted root (changes_of self.old) (nodes_of self.old) }
        requires before { IsApartFrom (nodes_of self.old) (kids_kept self.old node) before }
        ensures same { self.new ≡ record self.old { footings = self.new.footings } }
        ensures row { LinksRow self.old.footings self.new.footings before (kids_kept self.old node) result }
    {
        match self.table.kids(node) {
            Some(run) => {
                let kids = self.kids.read(run);
                link_row(&mut self.table, kids, before)
            }
            None => before,
        }
    }

    /// Sets the mate that stands at a node that lives to this one.
    pub(crate) fn set_mate(&mut self, node: NodeId, to: Option<NodeId>)
        requires lives { IsSome (nodes_of self.old node) }
        ensures same { self.new ≡ record self.old { footings = self.new.footings } }
        ensures here { footing_at self.new.footings node ≡ mate_set to (footing_at self.old.footings node) }
        ensures others { KeepsOtherFootings node self.old.footings self.new.footings }
    {
        self.table.set_mate(node, to);
    }
}

impl<A: Kept> Parts<A> {
    /// Undoes the last change, and tells whether there was one. An answer that is kept no more is released. It takes no
    /// memory.
    pub(crate) fn undo_last(&mut self, store: &mut A::Store) -> bool
        requires made { UndoDropsMade A.run_at A.Holds self.old store.old }
        ensures undone { IsTrue result → GoesBack A.run_at A.Holds self.old self.new store.old store.new }
        ensures none { result ≡ false → StaysUnchanged self.old self.new store.old store.new }
        ensures footings { KeepsFootings (nodes_of self.new) self.old self.new }
    {
        match self.journal.pop() {
            Some(note) => {
                undo_note(
                    &mut self.table,
                    &mut self.params,
                    &mut self.kids,
                    note,
                    store,
                );
                true
            }
            None => false,
        }
    }

    /// Takes up the last change, if there is one, and answers which nodes it names. An answer that it kept is released.
    /// It takes no memory.
    #[inline]
    pub(crate) fn take_last(&mut self, store: &mut A::Store) -> Option<Look>
        requires made { ForLastChange self.old (λ c. Lives A.run_at A.Holds store.old (old_answer c)) }
        ensures taken { IfSome result (TakesOneUp A.run_at A.Holds self.old self.new store.old store.new) }
        ensures none { IfNone result (StaysUnchanged self.old self.new store.old store.new) }
    {
        match self.journal.take_up(store) {
            Some(remnant) => Some(take_lists(&mut self.params, &mut self.kids, remnant)),
            None => None,
        }
    }

    /// Removes a node, releases its answer, and notes its children. It takes no memory.
    pub(crate) fn remove(&mut self, node: NodeId, store: &mut A::Store)
        requires lives { IsSome (nodes_of self.old node) }
        requires place { 0 < self.old.note_room }
        requires made { ForNode (nodes_of self.old) node (λ n. Lives A.run_at A.Holds store.old n.answer) }
        ensures { RemovesNode A.run_at A.Holds self.old self.new node store.old store.new }
    {
        let removed = take_out(&mut self.table, &mut self.params, &mut self.kids, node);
        self.journal.push_bare(Line {
            node,
            sort: Sort::Kids,
        });
        release_one(removed.answer, store);
    }

    /// Frees the children in hand. It takes no memory.
    pub(crate) fn put_down(&mut self)
        ensures nodes { nodes_of self.new ≡ nodes_of self.old }
        ensures changes { changes_of self.new ≡ changes_of self.old }
        ensures live { live_slots self.new.slots ≡ live_slots self.old.slots }
        ensures keeps { KeepsRoom self.old self.new }
        ensures footings { self.new.footings ≡ self.old.footings }
    {
        self.kids.put_down();
    }
}

/// Undoes the change of this note, which was the last.
fn undo_note<A: Kept>(
    table: &mut NodeTable<A>,
    params: &mut Lists<i64>,
    kids: &mut Lists<NodeId>,
    note: Note<A>,
    store: &mut A::Store,
)
    requires params { IsOwner params.old table.old.param_runs }
    requires kids { IsOwner kids.old table.old.kid_runs }
    requires made { Lives A.run_at A.Holds store.old (dropped_by_note table.old note) }
    ensures slots { table.new.slots ≡ undone_slots note.was note.node table.old.slots }
    ensures footings { table.new.footings ≡ undone_footings note.was note.node table.old.footings }
    ensures capacity { table.new.capacity ≡ table.old.capacity }
    ensures params { IsOwner params.new table.new.param_runs }
    ensures kids { IsOwner kids.new table.new.kid_runs }
    ensures old_params { UndoesNotedParams note params.old table.old params.new table.new }
    ensures old_kids { UndoesNotedKids note kids.old table.old kids.new table.new }
    ensures released { Releases A.run_at A.Holds (dropped_by_note table.old note) store.old store.new }
{
    let Note { node, was } = note;
    match was {
        Was::Missing => clear(table, params, kids, node, store),
        Was::Kind(kind) => {
            restore_params(table, params, node);
            let _ = table.swap_kind(node, kind);
        }
        Was::Key(key) => {
            let _ = table.swap_key(node, key);
        }
        Was::Kids => restore_kids(table, kids, node),
        Was::Answer(answer) => release_one(table.swap_answer(node, answer), store),
    }
}

/// Takes up the lists of a note that was the last, by what is left of it: past parameters are freed, children come in hand.
#[inline]
fn take_lists(params: &mut Lists<i64>, kids: &mut Lists<NodeId>, remnant: Remnant) -> Look
    requires params { (now : List (Option ℕ)) × IsOwner params.old now }
    requires kids { (now : List (Option ℕ)) × IsOwner kids.old now }
    ensures params { (now : List (Option ℕ)) → IsOwner params.old now → IsOwner params.new now }
    ensures kids { (now : List (Option ℕ)) → IsOwner kids.old now → IsOwner kids.new now }
    ensures old_params { OnShelf (DropsLeft remnant) params.old params.new }
    ensures old_kids { OnShelf (TakesLeft remnant) kids.old kids.new }
    ensures named { (hand : List ℕ) → named_by result hand ≡ nodes_left remnant hand }
{
    match remnant {
        Remnant::Node(node) => Look::Node(node),
        Remnant::Params => {
            params.drop_past();
            Look::Nothing
        }
        Remnant::Kids => {
            kids.take_up();
            Look::Hand
        }
        Remnant::Nothing => Look::Nothing,
    }
}
