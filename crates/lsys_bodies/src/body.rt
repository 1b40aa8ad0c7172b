//! The bodies of rules, shared by the copies of a system and by the answers that keep them.
ghost use Rattle.std.specs.Prelude.{◌≡◌, IfOk};
ghost use Rattle.lsys_bodies.specs.Built.{IsBuilt};

use crate::constant::constant_of;
use lsys_expr::Expr;
use lsys_module::SymbolList;
use lsys_text::Name;
use std::alloc::{AllocError, Global};
use std::marker::Model;
use std::rc::Rc;

/// A module that has this name and as many parameters as there are formals. The formals' names are kept
/// for `show` alone: a body means the same under other names.
#[derive(Drop)]
pub struct Pattern {
    pub name: Name,
    pub formals: Vec<Name>,
}

/// A symbol of a right context, which is a balanced list of them.
#[derive(Drop)]
pub enum Item {
    /// `[`, which begins a branch.
    Push,
    /// `]`, which ends one.
    Pop,
    /// A module to be compared.
    Pattern(Pattern),
}

/// A symbol of a successor.
#[derive(Drop)]
pub enum Template {
    /// `[`, which begins a branch.
    Push,
    /// `]`, which ends one.
    Pop,
    /// `%`, which cuts the rest of its branch off.
    Cut,
    /// A module, whose parameters are evaluated.
    Module { name: Name, params: Vec<Expr> },
}

/// A rule without its table and its label (ABOP 1.8 and 1.10). The formals of its patterns are numbered from 0 on, those
/// of the left context first, then the predecessor's, then those of the right context; expressions are evaluated with
/// the values of all of them.
#[derive(Drop)]
pub struct Body {
    /// The left context, of at most 8 modules, the nearest one last.
    pub left: Vec<Pattern>,
    /// What is replaced.
    pub predecessor: Pattern,
    /// The right context, of at most 16 symbols, the nearest one first.
    pub right: Vec<Item>,
    /// A missing condition holds.
    pub condition: Option<Expr>,
    pub weight: Option<Expr>,
    /// What it is replaced by: at most 128 symbols.
    pub successor: Vec<Template>,
}

/// What copies of a body share: the body, and the symbols of its successor, where that has no parameters.
#[derive(Drop)]
pub(crate) struct BodyParts {
    pub(crate) body: Body,
    pub(crate) constant: Option<SymbolList>,
}

/// A body that is shared by copies, and seen by contracts as the body alone. The trees of its expressions are those of
/// what is spelled, and no limit of a rule is passed. A successor without parameters is worked out once, with the body.
#[derive(Drop)]
pub struct SharedBody {
    pub(crate) parts: Rc<BodyParts>,
}

impl Model for SharedBody {
    ghost use Rattle.std.specs.Coded.{codes};
    ghost use Rattle.lsys_expr.specs.Codes.{expression_code};
    ghost use Rattle.lsys_bodies.specs.declared.body.Body.{Body};

    ghost Value = { Body };

    ghost coded = { Prim.hlevel (codes, expression_code) };

    ghost use Rattle.std.specs.Prelude.{◌≡◌};
    ghost use Rattle.lsys_bodies.specs.Built.{IsBuilt};
    ghost use Rattle.lsys_bodies.specs.Constants.{constant_of};

    ghost view = { λ a. a.parts.value.body };

    ghost invariant = { λ a. IsBuilt a.parts.value.body
        × (a.parts.value.constant ≡ constant_of a.parts.value.body.successor.items) };
}

impl SharedBody {
    /// A body to share.
    pub fn new(alloc: Global, body: Body) -> Result<SharedBody, AllocError>
        requires { IsBuilt body }
        ensures { IfOk result (λ s. s ≡ body) }
    {
        let constant = constant_of(alloc, &body.successor)?;
        Ok(SharedBody {
            parts: Rc::new(alloc, BodyParts { body, constant })?,
        })
    }

    /// The body.
    pub fn get(&self) -> &Body
        ensures body { result.now ≡ self.now }
        ensures built { IsBuilt self.now }
    {
        &self.parts.body
    }
}

impl Clone for SharedBody {
    ghost is_clone = { λ a b. b ≡ a };

    fn clone(&self) -> Result<SharedBody, AllocError> {
        Ok(SharedBody {
            parts: self.parts.clone()?,
        })
    }
}
