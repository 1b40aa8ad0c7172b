//! What is asked of a module, but for what is read.
ghost use Rattle.std.specs.Prelude.{◌≡◌, ◌≤◌, ℤ, List, None, Ok, [], IfNone, IfSome, IsTrue, false, length};
ghost use Rattle.lsys_laws.specs.Sessions.{IsWell};
ghost use Rattle.lsys_spec.specs.Meaning.{any_weight};
ghost use Rattle.lsys_level.specs.Spots.{IsSpot};
ghost use Rattle.lsys_match.specs.Constants.{constant_chosen};
ghost use Rattle.lsys_match.specs.Groups.{rules_of};
ghost use Rattle.lsys_match.specs.Asking.{is_plain, key_if, posed_by};
ghost use Rattle.lsys_match.specs.Telling.{replaced_by, IsSuccessorKept, IsSuccessorOf};
ghost use Rattle.lsys_match.specs.AskedSpots.{HasQuestionAt, IsPosedOf, key_at};

use crate::asker::Asker;
use crate::group::Group;
use crate::refusal::AskRefusal;
use lsys_level::{LevelView, Sight, Tag};
use lsys_module::{Module, Params, Symbol, SymbolList};
use lsys_rewrite::fill_into;
use lsys_text::Name;
use std::alloc::Global;

/// A question but for its trace: the module with its tag, its group, and its key where the group has weights.
#[derive(Drop)]
pub(crate) struct Posed<'a> {
    pub(crate) tag: Tag,
    pub(crate) name: Name,
    pub(crate) params: &'a [i64],
    pub(crate) group: Group<'a>,
    pub(crate) key: Option<u64>,
}

impl<'a> Posed<'a> {
    /// Of the module at a spot of the level that is asked about; none where it has no question.
    pub(crate) fn at<W: LevelView>(
        view: &'a W,
        spot: W::Spot,
        asker: &Asker<'a>,
    ) -> Option<Posed<'a>>
        requires spot { IsSpot (W.levels view.now) (W.level_of view.now spot) (W.place_of view.now spot) }
        ensures none { IfNone result (HasQuestionAt asker.now W.LevelView view.now spot → ⊥) }
        ensures some { IfSome result (λ _. HasQuestionAt asker.now W.LevelView view.now spot) }
        ensures posed { IfSome result (λ q. IsPosedOf asker.now W.LevelView view.now spot (posed_by q)) }
        ensures well { IfSome result (λ _. IsWell asker.now.system) }
        ensures few { IfSome result (λ q. length q.params.now ≤ 8) }
    {
        let Sight::Module { name, params } = view.sight(spot) else {
            return None;
        };
        let group = asker.group(name, params.len())?;
        Some(Posed {
            tag: view.tag(spot),
            name,
            params,
            key: key_for(view, spot, &group),
            group,
        })
    }

    /// Whatever stands around the module, the first rule of its group is chosen: there are no weights, and it has neither
    /// contexts nor a condition.
    pub(crate) fn is_plain(&self) -> bool
        ensures { result ≡ is_plain (posed_by self.now) }
    {
        self.key.is_none() && self.group.asks_nothing()
    }

    /// The symbols that are kept of what replaces the module: the successor of the rule at a place of its group, where these
    /// are the values of the rule's formals, or the module itself where no rule is chosen. None are kept where they stand in
    /// the rule's body. They are worked out where they stay, in room for them alone.
    #[inline]
    pub(crate) fn kept_symbols(
        &self,
        alloc: Global,
        chosen: Option<u8>,
        bound: &[i64],
    ) -> Result<SymbolList, AskRefusal>
        requires { length self.now.params.now ≤ 8 }
        ensures { IsSuccessorKept self.now chosen bound.now result }
    {
        if self.has_constant(chosen) {
            return Ok(SymbolList::new(alloc));
        }
        self.worked_out(alloc, chosen, bound)
    }

    // The same, where they don't stand in the rule's body.
    fn worked_out(
        &self,
        alloc: Global,
        chosen: Option<u8>,
        bound: &[i64],
    ) -> Result<SymbolList, AskRefusal>
        requires few { length self.now.params.now ≤ 8 }
        requires none { constant_chosen self.now.group chosen ≡ None }
        ensures { IsSuccessorKept self.now chosen bound.now result }
    {
        let mut symbols = SymbolList::new(alloc);
        self.replace(&mut symbols, chosen, bound)?;
        Ok(symbols)
    }

    // What replaces the module stands in the body of the rule at a place, whose successor has no parameters.
    fn has_constant(&self, chosen: Option<u8>) -> bool
        ensures some { IsTrue result
            → (values : List ℤ) → IsSuccessorKept self.now chosen values (Ok []) }
        ensures none { result ≡ false → constant_chosen self.now.group chosen ≡ None }
    {
        let Some(place) = chosen else {
            return false;
        };
        let Some(body) = self.group.get(place as usize) else {
            return false;
        };
        body.constant().is_some()
    }

    // Puts what replaces the module into an empty list.
    fn replace(
        &self,
        symbols: &mut SymbolList,
        chosen: Option<u8>,
        bound: &[i64],
    ) -> Result<(), AskRefusal>
        requires few { length self.now.params.now ≤ 8 }
        requires empty { symbols.old ≡ [] }
        ensures { IsSuccessorOf self.now chosen bound.now (replaced_by symbols.new result) }
    {
        let Some(place) = chosen else {
            symbols.reserve(1)?;
            symbols.push(Symbol::Module(Module {
                name: self.name,
                params: Params::of(self.params),
            }))?;
            return Ok(());
        };
        let Some(body) = self.group.get(place as usize) else {
            return Ok(());
        };
        fill_into(symbols, body, bound)?;
        Ok(())
    }
}

// The key of the module at a spot, where its group has weights.
fn key_for<W: LevelView>(view: &W, spot: W::Spot, group: &Group<'_>) -> Option<u64>
    requires { IsSpot (W.levels view.now) (W.level_of view.now spot) (W.place_of view.now spot) }
    ensures { result ≡ key_if (any_weight (rules_of group.now)) (key_at W.LevelView view.now spot) }
{
    if group.is_weighted() {
        Some(view.key(spot))
    } else {
        None
    }
}
