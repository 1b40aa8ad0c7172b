//! The journal: notes of what nodes were, of which the last one is taken back first.
ghost use Rattle.std.specs.Prelude.{◌≡◌, ◌+◌, ◌<◌, ◌≤◌, ◌^◌, ◌++◌, ◌∷◌, [], length, IfSome, IfNone, OnOk, vec_len, vec_capacity};
ghost use Rattle.lsys_forest.specs.Answers.{Releases};
ghost use Rattle.lsys_forest.specs.Stocks.{kid_lists};
ghost use Rattle.lsys_forest.specs.Notes.{as_was, value_count, answer_count, kids_noted, lists_valued, bare_note, answer_note, last_held, IsPopped, PutsBy, ForLastNote};
ghost use Rattle.lsys_forest.specs.LastChange.{TakesNoteUp, LastNoteLives, LineLives};

use crate::kept::Kept;
use crate::node::{NodeId, NodeKind};
use crate::note::{Note, Remnant, Was};
use std::alloc::{AllocError, Global};
use std::marker::Model;

/// What a note tells, of which the values and the answers stand apart.
#[derive(Clone, Copy, Drop)]
pub(crate) enum Sort {
    /// There was no such node.
    Missing,
    /// It had another symbol or another key: the next of the values.
    Value,
    /// It had other children.
    Kids,
    /// It kept another answer: the next of the answers.
    Answer,
    /// It kept no answer.
    Bare,
}

/// What a note tells of a symbol or of a key.
#[derive(Clone, Copy, Drop)]
pub(crate) enum Value {
    Kind(NodeKind),
    Key(u64),
}

/// A note without its value and its answer.
#[derive(Clone, Copy, Drop)]
pub(crate) struct Line {
    pub(crate) node: NodeId,
    pub(crate) sort: Sort,
}

/// Notes, each in a line. Values and answers stand in lists of their own, in the order of the lines: most notes have none.
#[derive(Drop)]
pub(crate) struct Journal<A> {
    lines: Vec<Line>,
    values: Vec<Value>,
    answers: Vec<A>,
}

impl<A> Model for Journal<A> {
    ghost use Rattle.std.specs.Prelude.{vec_capacity};
    ghost use Rattle.lsys_forest.specs.Notes.{Notes, notes_of, HaveTheirValues};

    ghost Value = { Notes A };

    ghost view = { λ a. notes_of a.lines.items a.values.items a.answers.items
        (vec_capacity a.lines) (vec_capacity a.values) (vec_capacity a.answers) };

    ghost invariant = { λ a. HaveTheirValues a.lines.items a.values.items a.answers.items };
}

impl<A: Drop> Journal<A> {
    /// No notes. It takes no memory.
    pub(crate) fn new(alloc: Global) -> Journal<A>
        ensures { result.notes ≡ [] }
    {
        Journal {
            lines: Vec::new(alloc),
            values: Vec::new(alloc),
            answers: Vec::new(alloc),
        }
    }

    /// Makes room for so many notes more, whatever they tell.
    ///
    /// # Errors
    ///
    /// Out of memory. The notes stay.
    pub(crate) fn reserve(&mut self, notes: usize) -> Result<(), AllocError>
        ensures notes { self.new.notes ≡ self.old.notes }
        ensures room { OnOk result (notes ≤ self.new.room) }
        ensures fits { OnOk result (notes < 2 ^ 63) }
        ensures more_room { self.old.room ≤ self.new.room }
    {
        self.lines.reserve(notes)?;
        self.values.reserve(notes)?;
        self.answers.reserve(notes)
    }

    /// Writes a note at the end. It takes no memory.
    #[inline]
    pub(crate) fn push(&mut self, note: Note<A>)
        requires { 0 < self.old.room }
        ensures pushed { self.new.notes ≡ self.old.notes ++ note ∷ [] }
        ensures room { self.old.room ≤ self.new.room + 1 }
    {
        let sort = keep(&mut self.values, &mut self.answers, note.was);
        put(
            &mut self.lines,
            Line {
                node: note.node,
                sort,
            },
        );
    }

    /// Writes a line at the end that has neither a value nor an answer. It takes no memory.
    #[inline]
    pub(crate) fn push_bare(&mut self, line: Line)
        requires bare { (value_count line.sort ≡ 0) × (answer_count line.sort ≡ 0) }
        requires place { 0 < self.old.room }
        ensures pushed { self.new.notes ≡ self.old.notes ++ bare_note line ∷ [] }
        ensures room { self.old.room ≤ self.new.room + 1 }
    {
        put(&mut self.lines, line);
    }

    /// Writes at the end that a node kept this answer, or none. It takes no memory.
    #[inline]
    pub(crate) fn push_answer(&mut self, node: NodeId, answer: Option<A>)
        requires { 0 < self.old.room }
        ensures pushed { self.new.notes ≡ self.old.notes ++ answer_note node answer ∷ [] }
        ensures room { self.old.room ≤ self.new.room + 1 }
    {
        match answer {
            Some(kept) => {
                let was = Was::Answer(Some(kept));
                self.push(Note { node, was });
            }
            None => {
                let sort = Sort::Bare;
                self.push_bare(Line { node, sort });
            }
        }
    }

    /// Takes the last note, if there is one.
    pub(crate) fn pop(&mut self) -> Option<Note<A>>
        ensures some { IfSome result (λ note. self.old.notes ≡ self.new.notes ++ note ∷ []) }
        ensures none { IfNone result ((self.old.notes ≡ []) × (self.new ≡ self.old)) }
        ensures room { self.old.room ≤ self.new.room }
    {
        match self.lines.pop() {
            Some(line) => {
                let was = take(&mut self.values, &mut self.answers, line.sort);
                Some(Note {
                    node: line.node,
                    was,
                })
            }
            None => None,
        }
    }

    /// The node that the last note is of, if that is one of children.
    pub(crate) fn last_family(&self) -> Option<NodeId>
        ensures some { IfSome result (λ k. ForLastNote self.now.notes (λ n. n.node ≡ k)) }
        ensures none { IfNone result (ForLastNote self.now.notes (λ n. kid_lists n.was ≡ 0)) }
    {
        match self.lines.last() {
            Some(line) => family_of(line),
            None => None,
        }
    }
}

impl<A: Kept> Journal<A> {
    /// Takes up the last note, if there is one, and answers what is left of it: the answer that it has is released, in its place. It
    /// takes no memory.
    #[inline]
    pub(crate) fn take_up(&mut self, store: &mut A::Store) -> Option<Remnant>
        requires made { LastNoteLives A.run_at A.Holds self.old.notes store.old }
        ensures some { IfSome result (TakesNoteUp A.run_at A.Holds self.old self.new store.old store.new) }
        ensures none { IfNone result ((self.old.notes ≡ []) × (self.new ≡ self.old)) }
        ensures store { IfNone result (store.new ≡ store.old) }
        ensures room { self.old.room ≤ self.new.room }
    {
        match self.lines.pop() {
            Some(line) => Some(take_told(&mut self.values, &mut self.answers, line, store)),
            None => None,
        }
    }
}

/// The node that a note is of, if it is one of children.
fn family_of(line: &Line) -> Option<NodeId>
    ensures some { IfSome result (λ k. line.now.node ≡ k) }
    ensures none { IfNone result (kids_noted line.now.sort ≡ 0) }
{
    match line.sort {
        Sort::Kids => Some(line.node),
        _ => None,
    }
}

/// Puts away what a node was, and answers of which sort the note is.
#[inline]
fn keep<A: Drop>(values: &mut Vec<Value>, kept: &mut Vec<A>, was: Was<A>) -> Sort
    requires values { vec_len values.old < vec_capacity values.old }
    requires answers { vec_len kept.old < vec_capacity kept.old }
    ensures tells { PutsBy result was values.old.items values.new.items kept.old.items kept.new.items }
    ensures places { vec_capacity values.old ≤ vec_capacity values.new }
    ensures answer_places { vec_capacity kept.old ≤ vec_capacity kept.new }
{
    match was {
        Was::Missing => Sort::Missing,
        Was::Kind(kind) => {
            put(values, Value::Kind(kind));
            Sort::Value
        }
        Was::Key(key) => {
            put(values, Value::Key(key));
            Sort::Value
        }
        Was::Kids => Sort::Kids,
        Was::Answer(Some(answer)) => {
            put(kept, answer);
            Sort::Answer
        }
        Was::Answer(None) => Sort::Bare,
    }
}

/// Takes back what a node was, by the sort of the last note.
fn take<A: Drop>(values: &mut Vec<Value>, kept: &mut Vec<A>, sort: Sort) -> Was<A>
    requires values { value_count sort ≤ vec_len values.old }
    requires answers { answer_count sort ≤ vec_len kept.old }
    ensures tells { PutsBy sort result values.new.items values.old.items kept.new.items kept.old.items }
    ensures places { vec_capacity values.old ≤ vec_capacity values.new }
    ensures answer_places { vec_capacity kept.old ≤ vec_capacity kept.new }
{
    match sort {
        Sort::Missing => Was::Missing,
        Sort::Value => was_of(take_last(values)),
        Sort::Kids => Was::Kids,
        Sort::Answer => Was::Answer(Some(take_last(kept))),
        Sort::Bare => Was::Answer(None),
    }
}

/// Takes up what a node was, by the last line, and answers what is left of it. An answer is released.
#[inline]
fn take_told<A: Kept>(
    values: &mut Vec<Value>,
    kept: &mut Vec<A>,
    line: Line,
    store: &mut A::Store,
) -> Remnant
    requires values { value_count line.sort ≤ vec_len values.old }
    requires answers { answer_count line.sort ≤ vec_len kept.old }
    requires made { LineLives A.run_at A.Holds line values.old.items kept.old.items store.old }
    ensures was { IsPopped line result values.new.items values.old.items kept.new.items kept.old.items }
    ensures freed { Releases A.run_at A.Holds (last_held line kept.old.items) store.old store.new }
    ensures places { vec_capacity values.old ≤ vec_capacity values.new }
    ensures answer_places { vec_capacity kept.old ≤ vec_capacity kept.new }
{
    match line.sort {
        Sort::Missing => Remnant::Node(line.node),
        Sort::Value => lists_of(take_last(values)),
        Sort::Kids => Remnant::Kids,
        Sort::Answer => {
            take_last(kept).release(store);
            Remnant::Nothing
        }
        Sort::Bare => Remnant::Nothing,
    }
}

/// What is left of a note with this value.
fn lists_of(value: Value) -> Remnant
    ensures { result ≡ lists_valued value }
{
    match value {
        Value::Kind(_) => Remnant::Params,
        Value::Key(_) => Remnant::Nothing,
    }
}

/// What a value tells.
fn was_of<A>(value: Value) -> Was<A>
    ensures { result ≡ as_was value }
{
    match value {
        Value::Kind(kind) => Was::Kind(kind),
        Value::Key(key) => Was::Key(key),
    }
}

/// Puts something at the end of a list, which has room for it.
#[inline]
fn put<T: Drop>(list: &mut Vec<T>, item: T)
    requires { vec_len list.old < vec_capacity list.old }
    ensures pushed { list.new.items ≡ list.old.items ++ item ∷ [] }
    ensures capacity { vec_capacity list.old ≤ vec_capacity list.new }
{
    match list.push(item) {
        Ok(()) => {}
        Err(_) => unreachable!(),
    }
}

/// Takes the last of a list, which has one.
fn take_last<T>(list: &mut Vec<T>) -> T
    requires { 0 < vec_len list.old }
    ensures taken { list.old.items ≡ list.new.items ++ result ∷ [] }
    ensures capacity { vec_capacity list.old ≤ vec_capacity list.new }
{
    match list.pop() {
        Some(last) => last,
        None => unreachable!(),
    }
}
