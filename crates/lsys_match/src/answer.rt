//! Answers to questions.
ghost use Rattle.std.specs.Prelude.{◌≡◌, ◌↔◌, IfNone, IfOk, IfSome, IsTrue, None, Some, drop};
ghost use Rattle.std.specs.Option.{option_map};
ghost use Rattle.lsys_region.specs.Pool.{list_of};
ghost use Rattle.lsys_walks.specs.Stores.{AreLive, AreGone, OtherTracesStay};
ghost use Rattle.lsys_walks.specs.Views.{module_named};
ghost use Rattle.lsys_match.specs.Asking.{posed_by};
ghost use Rattle.lsys_match.specs.Constants.{MayBecome, body_chosen, constant_in, constant_kept};
ghost use Rattle.lsys_match.specs.Stored.{runs_of, values_in, posed_in, trace_in, HasParams};
ghost use Rattle.lsys_match.specs.TagQuestions.{IsThereIfSame};
ghost use Rattle.lsys_match.specs.Telling.{HasFittingParams, noted_by};

use crate::group::body_at;
use crate::posed::Posed;
use crate::told::OldTrace;
use lsys_bodies::SharedBody;
use lsys_level::Tag;
use lsys_module::SymbolList;
use lsys_rules::SharedGroup;
use lsys_text::Name;
use lsys_walks::{AnswerStore, Entry, TraceRuns};
use std::alloc::AllocError;
use std::marker::{Model, PhantomData};
use std::sync::ledger::Ledger;

/// The answer to the question of a module, made by [`ask`](crate::ask) alone. It can't be copied, and an answer that was
/// counted on another ledger has another type.
///
/// It keeps the question, so that it can be seen whether the same is asked again. The trace and the parameters stand in
/// the store with which it was made. What replaces the module stands in the body of the chosen rule, where the rule's
/// successor has no parameters; the answer has symbols of its own only where it doesn't.
#[derive(Drop)]
pub struct Answer<L: Ledger> {
    pub(crate) name: Name,
    pub(crate) key: Option<u64>,
    pub(crate) runs: TraceRuns,
    pub(crate) group: SharedGroup,
    pub(crate) symbols: SymbolList,
    pub(crate) tag: Tag,
    pub(crate) arity: u8,
    pub(crate) chosen: Option<u8>,
    pub(crate) ledger: PhantomData<L>,
}

impl<L: Ledger> Model for Answer<L> {
    ghost use Rattle.std.specs.Coded.{codes};
    ghost use Rattle.lsys_expr.specs.Codes.{expression_code};
    ghost use Rattle.lsys_match.specs.Kept.{Kept};

    ghost Value = { Kept };

    ghost coded = { Prim.hlevel (codes, expression_code) };

    ghost use Rattle.lsys_match.specs.Constants.{symbols_by};
    ghost use Rattle.lsys_match.specs.Groups.{bodies_of};

    ghost view = { λ a. record {
      tag = a.tag;
      name = a.name;
      arity = a.arity;
      bodies = bodies_of a.group;
      key = a.key;
      chosen = a.chosen;
      successor = symbols_by (bodies_of a.group) a.chosen a.symbols;
      entries = a.runs.entries;
      values = a.runs.values;
    } };
}

impl<L: Ledger> Answer<L> {
    /// The place in its group of the rule that is chosen; none where no rule is.
    pub fn chosen(&self) -> Option<usize>
        ensures { result ≡ self.now.chosen }
    {
        self.chosen.map(usize::from)
    }

    /// What replaces the module: the successor of the chosen rule, its parameters evaluated, or the module itself.
    pub fn successor(&self) -> &SymbolList
        ensures { result.now ≡ self.now.successor }
    {
        match self.constant() {
            Some(symbols) => symbols,
            None => &self.symbols,
        }
    }

    /// The body in which what replaces the module stands, shared, so that the symbols can be read while the answer is
    /// changed: that of the chosen rule, where its successor has no parameters. None where no rule is chosen, or where it
    /// has parameters. A share takes no memory.
    pub fn shared_constant(&self) -> Result<Option<SharedBody>, AllocError>
        ensures symbols { IfOk result (λ o. IfSome o (λ _. constant_in o ≡ Some self.now.successor)) }
        ensures none { IfOk result (λ o. IfNone o (constant_kept self.now ≡ None)) }
    {
        let Some(body) = self.body() else {
            return Ok(None);
        };
        if body.constant().is_none() {
            return Ok(None);
        }
        Ok(Some(body.clone()?))
    }

    // The symbols of the chosen rule's successor, where that has no parameters.
    fn constant(&self) -> Option<&SymbolList>
        ensures symbols { option_map (λ s. s.now) result ≡ constant_kept self.now }
        ensures replaces { IfSome result (λ s. s.now ≡ self.now.successor) }
    {
        let body = self.body()?;
        body.constant()
    }

    // The body of the chosen rule.
    fn body(&self) -> Option<&SharedBody>
        ensures chosen { option_map (λ b. b.now) result
            ≡ body_chosen self.now.bodies self.now.chosen }
        ensures replaces { IfSome result (λ b. MayBecome self.now.successor b.now) }
    {
        let place = self.chosen?;
        body_at(self.group.rules(), place as usize)
    }

    /// What was read for the module, in order.
    pub fn trace<'a>(&'a self, store: &'a AnswerStore) -> &'a [Entry]
        requires { AreLive store.now (runs_of self.now) }
        ensures { list_of store.now.traces self.now.entries ≡ Some result.now }
    {
        store.entries(&self.runs)
    }

    /// The parameters of the modules that were read, in order.
    pub fn values<'a>(&'a self, store: &'a AnswerStore) -> &'a [i64]
        requires live { AreLive store.now (runs_of self.now) }
        requires params { HasParams store.now self.now }
        ensures { result.now ≡ drop self.now.arity (values_in store.now self.now) }
    {
        &store.values(&self.runs)[self.arity as usize..]
    }

    /// Lets the answer go: its trace and its parameters are kept no more. Takes no memory.
    pub fn release(self, store: &mut AnswerStore)
        requires { AreLive store.old (runs_of self) }
        ensures gone { AreGone store.new (runs_of self) }
        ensures others { OtherTracesStay store.old store.new (runs_of self) }
    {
        store.free(self.runs);
    }

    /// The trace, where the question is this one but for the trace.
    pub(crate) fn trace_for<'s>(
        &self,
        store: &'s AnswerStore,
        posed: &Posed<'_>,
    ) -> Option<OldTrace<'s>>
        requires live { AreLive store.now (runs_of self.now) }
        requires params { HasParams store.now self.now }
        ensures posed { IsThereIfSame (posed_in store.now self.now) (posed_by posed.now) result }
        ensures trace { IfSome result (λ t. noted_by t ≡ trace_in store.now self.now) }
        ensures fitting { HasFittingParams result }
    {
        let (own, values) = store.values(&self.runs).split_at(self.arity as usize);
        if self.tag != posed.tag
            || self.key != posed.key
            || !is_alike(self.name, own, posed.name, posed.params)
            || !posed.group.is_same(&self.group)
        {
            return None;
        }
        Some(OldTrace {
            entries: store.entries(&self.runs),
            values,
        })
    }
}

// The two modules are the same.
fn is_alike(name: Name, params: &[i64], other: Name, others: &[i64]) -> bool
    ensures { IsTrue result ↔ (module_named name params.now ≡ module_named other others.now) }
{
    name == other && params == others
}
