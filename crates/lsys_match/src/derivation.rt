//! What each representation of a derivation meets.
ghost use Rattle.std.specs.Prelude.{◌≡◌, ◌+◌, ◌*◌, ◌≤◌, ℕ, List, IfOk, OnErr, length, sum_by};
ghost use Rattle.lsys_syntax.specs.Limits.{greatest_module_limit};
ghost use Rattle.lsys_spec.specs.Levels as levels;
ghost use Rattle.lsys_spec.specs.Systems as spec;
ghost use Rattle.lsys_match.specs.Derivations.{IsDerived, IsOutcome, Rises, most_read, CountsMeant, KeepsMeantTags, ReadsMeant};

use crate::steps::Steps;
use lsys_level::LevelView;
use lsys_rewrite::{DeriveRefusal, EditCount};
use lsys_rules::System;
use std::alloc::{AllocError, Global};
use std::sync::ledger::Ledger;

/// A system with its levels 0 to the depth, whose lengths sum to at most a limit. It is a view of these levels.
pub trait Derivation<L: Ledger>: LevelView + Sized {
    // the system whose levels it has, and the limit
    ghost system_of: { Self → spec.System };

    ghost limit_of: { Self → ℕ };

    // how many entries an edit reads at most, from an old system with its levels to a new one with its own
    ghost visits: { spec.System → spec.System → List (List levels.LevelSymbol) → List (List levels.LevelSymbol) → ℕ };

    /// The levels of the opening system, under a limit of at most 1,000,000 symbols.
    ///
    /// # Errors
    ///
    /// Out of memory.
    fn start(alloc: Global, limit: u32) -> Result<Self, AllocError>
        requires { limit ≤ greatest_module_limit }
        ensures system { IfOk result (λ d. system_of d ≡ spec.opening) }
        ensures limit { IfOk result (λ d. limit_of d ≡ limit) };

    /// The system. The view stands for the levels that it means under the limit.
    fn system(&self) -> &System
        ensures system { result.now ≡ system_of self.now }
        ensures levels { IsDerived (system_of self.now) (limit_of self.now) (Self.levels self.now) };

    /// The sum of the lengths of the levels.
    fn total(&self) -> u64
        ensures { result ≡ sum_by length (Self.levels self.now) };

    /// Makes it the derivation of another system, and tells how many questions were new, and how many there are.
    ///
    /// `asked` rises by the new questions. `visited` rises at least by the entries of their traces, and at most by those
    /// that the representation names. A symbol that stays on its level keeps its tag.
    ///
    /// # Errors
    ///
    /// `Fault` and `Limit` are the refusal of the new system, exactly where it has no levels under the limit, and `Memory`
    /// is lack of memory. The derivation is then as before, at most as many questions were asked as the limit has symbols,
    /// and at most 1,025 entries were read for each.
    fn edit<V: Ledger>(
        &mut self,
        alloc: Global,
        system: System,
        asked: &mut Steps<L>,
        visited: &mut Steps<V>,
    ) -> Result<EditCount, DeriveRefusal>
        ensures outcome { IsOutcome system (limit_of self.old) (Self.levels self.new) result }
        ensures system { IfOk result (λ _. system_of self.new ≡ system) }
        ensures limit { limit_of self.new ≡ limit_of self.old }
        ensures tags { KeepsMeantTags system_of limit_of Self.LevelView self.old system self.new result }
        ensures counted { CountsMeant (system_of self.old) system (limit_of self.old) result }
        ensures asked { IfOk result (λ count. asked.new ≡ asked.old + count.asked) }
        ensures read { ReadsMeant system_of limit_of visits self.old system visited.old visited.new result }
        ensures refused { OnErr result (self.new ≡ self.old) }
        ensures few_asked { OnErr result (Rises 0 (limit_of self.old) asked.old asked.new) }
        ensures few_read { OnErr result (Rises 0 (most_read * limit_of self.old) visited.old visited.new) };
}
