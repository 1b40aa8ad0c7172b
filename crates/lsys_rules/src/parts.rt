//! The parts of a system.
ghost use Rattle.std.specs.Prelude.{◌≡◌};
ghost use Rattle.lsys_rules.specs.Systems.{system_of};

use crate::hom_table::HomTable;
use crate::own_table::OwnTable;
use crate::rule_table::RuleTable;
use lsys_module::SymbolList;
use lsys_reading::{LatticeName, Lineage};
use lsys_text::{Name, Word};
use std::alloc::AllocError;

/// What the edits change, but for the seed.
#[derive(Drop)]
pub(crate) struct SystemParts {
    pub axiom: SymbolList,
    pub rules: RuleTable,
    pub homs: HomTable,
    pub schedule: Vec<Word>,
    pub ignored: Vec<Name>,
    pub depth: u32,
    pub lattice: LatticeName,
    pub version: u32,
    pub numbering: Lineage,
    pub own: OwnTable,
}

impl Clone for SystemParts {
    ghost is_clone = { λ a b. system_of b ≡ system_of a };

    fn clone(&self) -> Result<SystemParts, AllocError> {
        Ok(SystemParts {
            axiom: self.axiom.clone()?,
            rules: self.rules.clone()?,
            homs: self.homs.clone()?,
            schedule: self.schedule.clone()?,
            ignored: self.ignored.clone()?,
            depth: self.depth,
            lattice: self.lattice,
            version: self.version,
            numbering: self.numbering,
            own: self.own.clone()?,
        })
    }
}
