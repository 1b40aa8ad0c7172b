//! The formals of a rule, and the first one that stands earlier.
ghost use Rattle.std.specs.Prelude.{◌≡◌, ◌≤◌, ◌+◌, [], ◌∷◌, IfOk, OnOk, Some, None, if◌then◌else◌};
ghost use Rattle.lsys_syntax.specs.Tokens.{Kind};
ghost use Rattle.lsys_bodies.specs.Formals.{Adds, AreFormalNames, first_some, head_pieces, marked_formal};
ghost use Rattle.lsys_bodies.specs.FoundNames.{IsFirstRepeated, TellsUnknown};
ghost use Rattle.lsys_bodies.specs.PatternPieces.{formals_pieces, left_context, more_formals_pieces, pattern_pieces, pieces_in, right_context};
ghost use Rattle.lsys_bodies.specs.Searching.{count};
ghost use Rattle.lsys_bodies.specs.AddedFormals.{AddsModule, AddsPattern, AddsPatterns};

use lsys_reading::{PatternSymbol, RuleLine};
use lsys_text::{Name, TokenKind};
use std::alloc::{AllocError, Global};
use std::collections::BTreeSet;

/// The formals of a rule: made once, when the rule is read, so that what refuses it is found without memory.
#[derive(Drop)]
pub struct FormalNames {
    /// The numbers that their names are kept in.
    pub(crate) numbers: BTreeSet<u64>,
    /// The token of the first formal that stands earlier.
    pub(crate) repeated: Option<usize>,
    /// The token after the rule's contexts and its predecessor.
    pub(crate) end: usize,
}

impl FormalNames {
    /// The formals of a rule, whose first token has number `from`.
    ///
    /// # Errors
    ///
    /// Out of memory.
    pub fn of(alloc: Global, from: usize, rule: &RuleLine) -> Result<FormalNames, AllocError>
        requires room { from + count (head_pieces rule.now) ≤ usize.MAX }
        ensures { IfOk result (λ names. AreFormalNames from rule.now names) }
    {
        let mut names = FormalNames {
            numbers: BTreeSet::new(alloc),
            repeated: None,
            end: from,
        };
        names.add_left(&rule.left)?;
        names.add_module(&rule.predecessor.formals)?;
        names.add_right(&rule.right)?;
        Ok(names)
    }

    /// The token of the first formal of the rule's contexts and predecessor that stands earlier among them.
    pub fn repeated(&self) -> Option<usize>
        ensures { IsFirstRepeated self.now result }
    {
        self.repeated
    }

    // Whether a token is a name and no formal.
    pub(crate) fn is_unknown(&self, kind: TokenKind) -> bool
        ensures { TellsUnknown self.now kind result }
    {
        match kind {
            TokenKind::Name(name) => !self.numbers.contains(&name.number()),
            _ => false,
        }
    }

    // Those of a left context.
    fn add_left(&mut self, symbols: &[PatternSymbol]) -> Result<(), AllocError>
        requires room { self.old.end + count (left_context symbols.now) ≤ usize.MAX }
        ensures { OnOk result (AddsPatterns self.old symbols.now (left_context symbols.now) self.new) }
    {
        if symbols.is_empty() {
            return Ok(());
        }
        self.add_patterns(symbols)?;
        self.end += 1;
        Ok(())
    }

    // Those of a right context.
    fn add_right(&mut self, symbols: &[PatternSymbol]) -> Result<(), AllocError>
        requires room { self.old.end + count (right_context symbols.now) ≤ usize.MAX }
        ensures { OnOk result (AddsPatterns self.old symbols.now (right_context symbols.now) self.new) }
    {
        if symbols.is_empty() {
            return Ok(());
        }
        self.end += 1;
        self.add_patterns(symbols)
    }

    fn add_patterns(&mut self, symbols: &[PatternSymbol]) -> Result<(), AllocError>
        requires room { self.old.end + count (pieces_in symbols.now) ≤ usize.MAX }
        ensures { OnOk result (AddsPatterns self.old symbols.now (pieces_in symbols.now) self.new) }
    {
        for symbol in symbols {
            self.add_pattern(symbol)?;
        }
        Ok(())
    }

    fn add_pattern(&mut self, symbol: &PatternSymbol) -> Result<(), AllocError>
        requires room { self.old.end + count (pattern_pieces symbol.now) ≤ usize.MAX }
        ensures { OnOk result (AddsPattern self.old symbol.now self.new) }
    {
        if let PatternSymbol::Module(module) = symbol {
            return self.add_module(&module.formals);
        }
        self.end += 1;
        Ok(())
    }

    // A name, and the formals after it.
    fn add_module(&mut self, formals: &[Name]) -> Result<(), AllocError>
        requires room { self.old.end + 1 + count (formals_pieces formals.now) ≤ usize.MAX }
        ensures { (k : Kind) → OnOk result (AddsModule self.old k formals.now self.new) }
    {
        self.end += 1;
        if formals.is_empty() {
            return Ok(());
        }
        self.add_formals(formals)?;
        self.end += 1;
        Ok(())
    }

    // Formals, each after a mark.
    fn add_formals(&mut self, formals: &[Name]) -> Result<(), AllocError>
        requires room { self.old.end + count (more_formals_pieces formals.now) ≤ usize.MAX }
        ensures { OnOk result (Adds self.old formals.now (more_formals_pieces formals.now) self.new) }
    {
        for formal in formals {
            self.add_formal(*formal)?;
        }
        Ok(())
    }

    // A formal after a mark.
    fn add_formal(&mut self, name: Name) -> Result<(), AllocError>
        requires room { self.old.end + 2 ≤ usize.MAX }
        ensures { (k : Kind) → OnOk result (Adds self.old (name ∷ []) (marked_formal k name) self.new) }
    {
        let is_new = self.numbers.insert(name.number())?;
        self.repeated = first_repeated(self.repeated, is_new, self.end + 1);
        self.end += 2;
        Ok(())
    }
}

// The first token of a formal that stands earlier, where one may stand at a place.
fn first_repeated(found: Option<usize>, is_new: bool, place: usize) -> Option<usize>
    ensures { result ≡ first_some found (if is_new then None else Some place) }
{
    match found {
        Some(earlier) => Some(earlier),
        None if is_new => None,
        None => Some(place),
    }
}
