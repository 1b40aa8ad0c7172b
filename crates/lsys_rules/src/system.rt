//! Systems.
ghost use Rattle.std.specs.Prelude.{◌≡◌, ◌≤◌, IfOk, IfSome, length, map, slice_get};
ghost use Rattle.lsys_syntax.specs.Limits.{greatest_version, most_rules};
ghost use Rattle.lsys_syntax.specs.Commands.{set_seed};
ghost use Rattle.lsys_spec.specs.Systems.{depth_bound, opening, tables};
ghost use Rattle.lsys_spec.specs.Edits.{changed};
ghost use Rattle.lsys_spec.specs.Bodies as bodies;
ghost use Rattle.lsys_spec.specs.Bodies.{table_at};
ghost use Rattle.lsys_spec.specs.Meaning.{ignored_by};
ghost use Rattle.lsys_laws.specs.Sessions.{IsWell};
ghost use Rattle.lsys_module.specs.Views.{module_name, string_of};
ghost use Rattle.lsys_reading.specs.Commands.{lattice_of, numbering_of};
ghost use Rattle.lsys_bodies.specs.Filters.{filter_of};
ghost use Rattle.lsys_bodies.specs.Views.{homomorphism_of, as_production};
ghost use Rattle.lsys_rules.specs.Groups.{found_rules};
ghost use Rattle.lsys_rules.specs.Systems.{seeded};
ghost use Rattle.lsys_rules.specs.LevelGroups.{level_bodies, level_rules, rule_body, found_body, found_production};

use crate::hom_table::HomTable;
use crate::own_list::OwnList;
use crate::own_table::OwnTable;
use crate::parts::SystemParts;
use crate::rule_table::RuleTable;
use crate::shared_group::SharedGroup;
use lsys_bodies::{Filter, HomRule, Rule};
use lsys_module::SymbolList;
use lsys_reading::{LatticeName, Lineage};
use lsys_text::{Name, Word};
use std::alloc::{AllocError, Global};
use std::marker::Model;
use std::rc::Rc;

/// What the accepted edits leave. Contracts see it as the system of the definitions, and it is well formed and well spelled
/// always: no label stands twice, no group is mixed, the schedule has some word and names tables alone, own lists are those
/// of tables, in version 1 there is none and symbols are numbered by places, no limit is passed, brackets are balanced, and
/// each expression's names are formals of its rule.
///
/// Copies share what they have: a copy takes no memory.
#[derive(Drop)]
pub struct System {
    parts: Rc<SystemParts>,
    // Copies share the parts, and each has its own seed: so another seed takes no memory.
    seed: u64,
}

impl Model for System {
    ghost use Rattle.std.specs.Coded.{codes};
    ghost use Rattle.lsys_spec.specs.Systems.{System as Spec};
    ghost use Rattle.lsys_rules.specs.Codes.{expr_code};

    ghost Value = { Spec };

    ghost coded = { Prim.hlevel (codes, expr_code) };

    ghost use Rattle.lsys_laws.specs.Sessions.{IsWell};
    ghost use Rattle.lsys_rules.specs.Systems.{seeded};

    ghost view = { λ a. seeded a.parts.value a.seed };

    ghost invariant = { λ a. IsWell (seeded a.parts.value a.seed) };
}

impl System {
    /// The system before the first edit: an empty axiom, no rules, `main` as the schedule, nothing ignored, seed and depth 0,
    /// the square lattice, version 1, symbols numbered by places.
    ///
    /// # Errors
    ///
    /// Out of memory.
    pub fn opening(alloc: Global) -> Result<System, AllocError>
        ensures { IfOk result (λ s. s ≡ opening) }
    {
        let mut schedule = Vec::new(alloc);
        schedule.push(Word::from_text(b"main"))?;
        let parts = SystemParts {
            axiom: SymbolList::new(alloc),
            rules: RuleTable::new(alloc)?,
            homs: HomTable::new(alloc)?,
            schedule,
            ignored: Vec::new(alloc),
            depth: 0,
            lattice: LatticeName::Square,
            version: 1,
            numbering: Lineage::Places,
            own: OwnTable::new(alloc)?,
        };
        System::of(alloc, parts, 0)
    }

    // The system with these parts and this seed.
    pub(crate) fn of(alloc: Global, parts: SystemParts, seed: u64) -> Result<System, AllocError>
        requires { IsWell (seeded parts seed) }
        ensures { IfOk result (λ s. s ≡ seeded parts seed) }
    {
        Ok(System {
            parts: Rc::new(alloc, parts)?,
            seed,
        })
    }

    // Its parts.
    pub(crate) fn parts(&self) -> &SystemParts
        ensures parts { seeded result.now self.now.seed ≡ self.now }
        ensures well { IsWell self.now }
    {
        &self.parts
    }

    /// The axiom's symbols, in order, balanced, its cuts as they were written.
    pub fn axiom(&self) -> &SymbolList
        ensures symbols { string_of result.now ≡ self.now.axiom_string }
        ensures well { IsWell self.now }
    {
        &self.parts.axiom
    }

    /// The productions, in the order in which they are tried.
    pub fn rules(&self) -> &[Rule]
        ensures rules { map as_production result.now ≡ self.now.rules }
        ensures well { IsWell self.now }
    {
        self.parts.rules.rules()
    }

    /// The tables, in order: `main`, and those that have a rule.
    pub fn tables(&self) -> &[Word]
        ensures { result.now ≡ tables self.now.rules }
    {
        self.parts.rules.tables()
    }

    /// The rules of the homomorphism, in the order in which they are tried.
    pub fn hom_rules(&self) -> &[HomRule]
        ensures rules { map homomorphism_of result.now ≡ self.now.homomorphisms }
        ensures well { IsWell self.now }
    {
        self.parts.homs.rules()
    }

    /// The tables by which the levels are derived, in turn; one at least.
    pub fn schedule(&self) -> &[Word]
        ensures words { result.now ≡ self.now.schedule }
        ensures well { IsWell self.now }
    {
        &self.parts.schedule
    }

    /// The names that contexts pass over on levels whose table has no list of its own, each once.
    pub fn ignored(&self) -> &[Name]
        ensures { map module_name result.now ≡ self.now.ignored }
    {
        &self.parts.ignored
    }

    /// The own lists of tables, in the order of the bytes of the tables' words; none in version 1.
    pub fn own_lists(&self) -> &[OwnList]
        ensures { result.now ≡ self.now.own }
    {
        self.parts.own.lists()
    }

    /// The tables that have a list of their own, in the order of the bytes of their words.
    pub fn own_tables(&self) -> &[Word]
        ensures { result.now ≡ map (λ o. o.table) self.now.own }
    {
        self.parts.own.tables()
    }

    /// What contexts pass over on a level: by the own list of the level's table, or by the ignored names where that table
    /// has none. It takes one look-up, so a caller keeps it while it is at one level.
    pub fn filter(&self, level: u32) -> Filter<'_>
        ensures { filter_of result ≡ bodies.filter self.now level }
    {
        self.parts
            .own
            .filter(self.table(level), &self.parts.ignored)
    }

    /// Whether contexts pass over modules of this name on a level.
    pub fn ignores(&self, level: u32, name: Name) -> bool
        ensures { result ≡ ignored_by (bodies.filter self.now level) (module_name name) }
    {
        self.filter(level).ignores(name)
    }

    /// The version of the language that the system is of: 1 or 2.
    pub fn version(&self) -> u32
        ensures version { result ≡ self.now.version }
        ensures some { 1 ≤ result }
        ensures known { result ≤ greatest_version }
    {
        self.parts.version
    }

    /// How symbols are numbered; by places in version 1.
    pub fn lineage(&self) -> Lineage
        ensures { numbering_of result ≡ self.now.numbering }
    {
        self.parts.numbering
    }

    /// What the draws depend on.
    pub fn seed(&self) -> u64
        ensures { result ≡ self.now.seed }
    {
        self.seed
    }

    /// The system with another seed, as the command `seed` makes it. It takes no memory.
    pub fn with_seed(self, seed: u64) -> System
        ensures { result ≡ changed self (set_seed seed) }
    {
        System {
            parts: self.parts,
            seed,
        }
    }

    /// The number of the last level: at most 64 in version 1, and 256 in version 2.
    pub fn depth(&self) -> u32
        ensures depth { result ≡ self.now.depth }
        ensures bound { result ≤ depth_bound self.now.version }
    {
        self.parts.depth
    }

    /// The lattice on which pictures lie.
    pub fn lattice(&self) -> LatticeName
        ensures { lattice_of result ≡ self.now.lattice }
    {
        self.parts.lattice
    }

    /// The group of a level for modules with this name and number of parameters: the rules of the level's table that are for
    /// such modules, in the order in which they are tried. None where the table has no rule for them. A look-up costs the
    /// same however many rules there are.
    pub fn group(&self, level: u32, name: Name, arity: usize) -> Option<&SharedGroup>
        ensures rules { map as_production (found_rules result) ≡ level_rules self.now level name arity }
        ensures bodies { map rule_body (found_rules result) ≡ level_bodies self.now level name arity }
        ensures few { IfSome result (λ g. length g.now ≤ most_rules) }
        ensures well { IsWell self.now }
    {
        self.parts.rules.group(self.table(level), name, arity)
    }

    // The table of a level. Mostly the schedule has one word, and then nothing is divided.
    fn table(&self, level: u32) -> Word
        ensures { result ≡ table_at self.now.schedule level }
    {
        let schedule = &self.parts.schedule;
        if schedule.len() == 1 {
            return schedule[0];
        }
        schedule[level as usize % schedule.len()]
    }

    /// The rule at a place, from 0, of the group of a level for modules with this name and number of parameters. None past
    /// the group's end.
    pub fn group_rule(&self, level: u32, name: Name, arity: usize, place: usize) -> Option<&Rule>
        ensures rule { found_production result
            ≡ slice_get (level_rules self.now level name arity) place }
        ensures body { found_body result ≡ slice_get (level_bodies self.now level name arity) place }
    {
        let group = self.group(level, name, arity)?;
        group.rules().get(place)
    }
}

impl Clone for System {
    ghost is_clone = { λ a b. b ≡ a };

    fn clone(&self) -> Result<System, AllocError> {
        Ok(System {
            parts: self.parts.clone()?,
            seed: self.seed,
        })
    }
}
