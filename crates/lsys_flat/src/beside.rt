//! A new level beside the old one.
ghost use Rattle.std.specs.Prelude.{◌≡◌, ◌<◌, length};
ghost use Rattle.lsys_match.specs.Asks.{kept_lent};
ghost use Rattle.lsys_flat.specs.Besides.{old_beside};

use lsys_level::FlatLevels;
use lsys_match::Answer;
use lsys_rules::System;
use std::sync::ledger::Ledger;

/// A level of a system that is asked about: for each of its symbols the place of the old symbol of its lineage, where there
/// is one, and the old level's answers.
#[derive(Drop)]
pub struct Beside<'a, L: Ledger> {
    pub view: &'a FlatLevels,
    pub level: u32,
    pub system: &'a System,
    pub mates: &'a [Option<u32>],
    pub olds: &'a [Option<Answer<L>>],
}

impl<'a, L: Ledger> Beside<'a, L> {
    // What was kept at the old place of the symbol.
    pub(crate) fn old(&self, place: usize) -> Option<&Answer<L>>
        requires { place < length self.now.mates.now }
        ensures { kept_lent result ≡ old_beside self.now place }
    {
        let Some(from) = self.mates[place] else {
            return None;
        };
        match self.olds.get(from as usize) {
            Some(old) => old.as_ref(),
            None => None,
        }
    }
}
