//! Who asks about the modules of a level.
ghost use Rattle.std.specs.Prelude.{◌≡◌, ◌<◌, length, IfSome};
ghost use Rattle.lsys_laws.specs.Sessions.{IsWell};
ghost use Rattle.lsys_spec.specs.Bodies.{filter, group};
ghost use Rattle.lsys_spec.specs.Standings.{free};
ghost use Rattle.lsys_bodies.specs.Filters.{filter_of};
ghost use Rattle.lsys_module.specs.Views.{module_name};
ghost use Rattle.lsys_match.specs.Asking.{asked_level, same_group};
ghost use Rattle.lsys_match.specs.Groups.{rules_found, rules_of};

use crate::group::Group;
use lsys_bodies::Filter;
use lsys_rules::System;
use lsys_text::Name;
use std::alloc::Global;
use std::marker::Model;

/// Who asks about the modules of one level: what is the same for all of them, found once, where it is needed first, and
/// room for the values of formals, which is used again from one to the next. Contracts see the system and the level.
#[derive(Drop)]
pub struct Asker<'a> {
    system: &'a System,
    level: u32,
    filter: Option<Filter<'a>>,
    /// The values of a rule's formals. What is left in it means nothing.
    pub(crate) bound: Vec<i64>,
}

impl<'a> Model for Asker<'a> {
    ghost use Rattle.std.specs.Coded.{codes};
    ghost use Rattle.lsys_rules.specs.Codes.{expr_code};
    ghost use Rattle.lsys_match.specs.Asking.{AskedLevel};

    ghost Value = { AskedLevel };

    ghost coded = { Prim.hlevel (codes, expr_code) };

    ghost use Rattle.std.specs.Prelude.{◌≡◌, IfSome};
    ghost use Rattle.lsys_spec.specs.Bodies as bodies;
    ghost use Rattle.lsys_bodies.specs.Filters.{filter_of};

    ghost view = { λ a. record { system = a.system.now; level = a.level } };

    ghost invariant = { λ a.
        IfSome a.filter (λ f. filter_of f ≡ bodies.filter a.system.now a.level) };
}

impl<'a> Asker<'a> {
    /// Of this level of a system. Takes no memory.
    pub fn new(alloc: Global, system: &'a System, level: u32) -> Asker<'a>
        ensures { result ≡ asked_level system.now level }
    {
        Asker {
            system,
            level,
            filter: None,
            bound: Vec::new(alloc),
        }
    }

    // The rules for modules with this name and so many parameters, found by one look; none where there are no such rules.
    pub(crate) fn group(&self, name: Name, arity: usize) -> Option<Group<'a>>
        ensures rules { rules_found result ≡ group self.now.system self.now.level
            (module_name name) arity }
        ensures some { IfSome result (λ g. 0 < length (rules_of g)) }
        ensures well { IsWell self.now.system }
    {
        Group::at(self.system, self.level, name, arity)
    }

    // What contexts pass over.
    pub(crate) fn filter(&mut self) -> Filter<'a>
        ensures found { filter_of result ≡ filter self.old.system self.old.level }
        ensures same { self.new ≡ self.old }
    {
        if let Some(filter) = self.filter {
            return filter;
        }
        let filter = self.system.filter(self.level);
        self.filter = Some(filter);
        filter
    }

    /// Whether modules with this name and so many parameters have the same group on the level of another one who asks: the
    /// same bodies, in order, or none on both.
    pub fn has_group_of(&self, other: &Asker<'_>, name: Name, arity: usize) -> bool
        ensures { result ≡ same_group other.now self.now name arity }
    {
        let Some(theirs) = other.group(name, arity) else {
            return self.group(name, arity).is_none();
        };
        let Some(ours) = self.group(name, arity) else {
            return false;
        };
        ours.agrees(&theirs)
    }

    /// Whether no rule for modules with this name and so many parameters has a context, or there is none.
    pub fn is_free(&self, name: Name, arity: usize) -> bool
        ensures { result ≡ free (group self.now.system self.now.level (module_name name) arity) }
    {
        match self.group(name, arity) {
            Some(group) => group.is_free(),
            None => true,
        }
    }
}
