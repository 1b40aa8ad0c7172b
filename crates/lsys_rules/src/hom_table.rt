//! The rules of a homomorphism, in the order in which they are tried.
ghost use Rattle.std.specs.Prelude.{◌≡◌, [], IfOk, map};
ghost use Rattle.lsys_spec.specs.Edits.{put_hom, without_hom};
ghost use Rattle.lsys_bodies.specs.Views.{homomorphism_of};
ghost use Rattle.lsys_rules.specs.InsideRules.{HaveOwnLabels, homomorphisms_in};

use indexmap::IndexMap;
use lsys_bodies::HomRule;
use lsys_text::Word;
use std::alloc::{AllocError, Global};
use std::marker::Model;
use std::rc::Rc;

/// Rules of a homomorphism by label, in order.
#[derive(Drop)]
pub(crate) struct HomRules {
    pub by_label: IndexMap<Word, HomRule>,
}

/// Rules of a homomorphism under their labels, in order, shared by the copies of a system. Contracts see them as those of
/// the definitions.
#[derive(Drop)]
pub struct HomTable {
    rules: Rc<HomRules>,
}

impl Model for HomTable {
    ghost use Rattle.std.specs.Prelude.{List};
    ghost use Rattle.std.specs.Coded.{codes};
    ghost use Rattle.lsys_spec.specs.Systems.{Homomorphism};
    ghost use Rattle.lsys_rules.specs.Codes.{expr_code};

    ghost Value = { List Homomorphism };

    ghost coded = { Prim.hlevel (codes, expr_code) };

    ghost use Rattle.lsys_rules.specs.InsideRules.{homomorphisms_in, HaveOwnLabels};

    ghost view = { λ a. homomorphisms_in a.rules.value.by_label };

    ghost invariant = { λ a. HaveOwnLabels (λ r. r.label) a.rules.value.by_label.entries };
}

impl HomTable {
    /// No rules.
    ///
    /// # Errors
    ///
    /// Out of memory.
    pub fn new(alloc: Global) -> Result<HomTable, AllocError>
        ensures { IfOk result (λ t. t ≡ []) }
    {
        HomTable::of(alloc, IndexMap::new(alloc))
    }

    // These rules, each of which stands under its own label.
    fn of(alloc: Global, by_label: IndexMap<Word, HomRule>) -> Result<HomTable, AllocError>
        requires { HaveOwnLabels (λ r. r.label) by_label.entries }
        ensures { IfOk result (λ t. t ≡ homomorphisms_in by_label) }
    {
        let rules = HomRules { by_label };
        Ok(HomTable {
            rules: Rc::new(alloc, rules)?,
        })
    }

    /// The rules with one more: a label that stands keeps its place, and a new one goes last.
    ///
    /// # Errors
    ///
    /// Out of memory.
    pub fn with(&self, alloc: Global, rule: HomRule) -> Result<HomTable, AllocError>
        ensures { IfOk result (λ t. t ≡ put_hom (homomorphism_of rule) self.now) }
    {
        let mut by_label = copy_of(&self.rules)?;
        by_label.insert(rule.label, rule)?;
        HomTable::of(alloc, by_label)
    }

    /// The rules without the one under a label.
    ///
    /// # Errors
    ///
    /// Out of memory.
    pub fn without(&self, alloc: Global, label: Word) -> Result<HomTable, AllocError>
        ensures { IfOk result (λ t. t ≡ without_hom label self.now) }
    {
        let mut by_label = copy_of(&self.rules)?;
        by_label.shift_remove(&label);
        HomTable::of(alloc, by_label)
    }

    /// The rules, in the order in which they are tried.
    pub fn rules(&self) -> &[HomRule]
        ensures { map homomorphism_of result.now ≡ self.now }
    {
        self.rules.by_label.values().as_slice()
    }
}

impl Clone for HomTable {
    ghost is_clone = { λ a b. b ≡ a };

    fn clone(&self) -> Result<HomTable, AllocError> {
        Ok(HomTable {
            rules: self.rules.clone()?,
        })
    }
}

// A copy of the rules by label.
fn copy_of(rules: &HomRules) -> Result<IndexMap<Word, HomRule>, AllocError>
    ensures { IfOk result (λ m. m.entries ≡ rules.now.by_label.entries) }
{
    rules.by_label.clone()
}
