//! Strings from tokens.
ghost use Rattle.std.specs.Prelude.{◌≡◌, ◌<◌, ◌≤◌, ◌+◌, ◌^◌, [], ◌∷◌, ◌++◌, length, IsSome, IsTrue, OnOk, IfOk};
ghost use Rattle.lsys_syntax.specs.Strings.{negative};
ghost use Rattle.lsys_syntax.specs.Sentences.{IsToken, AreTokens};
ghost use Rattle.lsys_text.specs.Tokens.{kind_of, kind_row};
ghost use Rattle.lsys_module.specs.Views.{module_name, string_of};
ghost use Rattle.lsys_module.specs.Scanning.{string_verdict, TellsString, glyph_of};
ghost use Rattle.lsys_module.specs.Building.{AreOfLine, IsBuiltBy, CanTake, IsTaken, draft_of, draft_end, before_number_step, after_minus_step, is_name, kind_name, IsPartAfterDue, IsPartAfterMinus};

use crate::glyph::StringGlyph;
use crate::params::Params;
use crate::refusal::StringRefusal;
use crate::symbol::{Module, Symbol};
use crate::symbol_list::SymbolList;
use lsys_text::{Name, Token, TokenKind};
use std::alloc::{AllocError, Global};

/// A string has at most so many symbols, its brackets and cuts counted.
pub(crate) const MOST_SYMBOLS: usize = 4096;

/// A module has at most so many parameters.
pub(crate) const MOST_PARAMS: usize = 8;

/// The string that the tokens from a place on are. `scan_string` has found that they are one.
///
/// # Errors
///
/// `TooMany` has the column of the first token of the first symbol past 4,096, or of the first parameter
/// of a module past 8, whichever stands first. `Memory` is lack of memory.
pub fn build_string(
    alloc: Global,
    tokens: &[Token],
    from: usize,
) -> Result<SymbolList, StringRefusal>
    requires place { from ≤ length tokens.now }
    requires forms { AreTokens (kind_row tokens.now) }
    requires line { AreOfLine tokens.now }
    requires scanned { TellsString (string_verdict from tokens.now) }
    ensures { IsBuiltBy from tokens.now (string_verdict from tokens.now) result }
{
    let mut builder = Builder {
        symbols: SymbolList::new(alloc),
        part: BuiltPart::Whole,
    };
    for place in from..tokens.len() {
        let token = tokens[place];
        builder.take(token)?;
    }
    Ok(builder.finish()?)
}

/// What was read after the symbols that are whole.
#[derive(Clone, Copy)]
pub(crate) enum BuiltPart {
    /// Nothing.
    Whole,
    /// A name, after which a `(` may follow.
    Named(Name),
    /// A module whose next parameter is due.
    NumberDue(Module),
    /// The same, and a sign.
    MinusRead(Module),
    /// A module whose last parameter was read.
    NumberRead(Module),
}

/// A string while it is read.
#[derive(Drop)]
pub(crate) struct Builder {
    pub(crate) symbols: SymbolList,
    pub(crate) part: BuiltPart,
}

impl Builder {
    // Reads one more token.
    fn take(&mut self, token: Token) -> Result<(), StringRefusal>
        requires form { IsToken (kind_of token.kind) }
        requires text { token.start < token.end }
        requires goes_on { CanTake (draft_of self.old) (kind_of token.kind) }
        ensures { IsTaken (draft_of self.old) token (draft_of self.new) result }
    {
        let part = self.part;
        match part {
            BuiltPart::Whole => self.take_symbol(token),
            BuiltPart::Named(name) => self.take_after_name(name, token),
            BuiltPart::NumberDue(module) => {
                if module.params.values().len() >= MOST_PARAMS {
                    return Err(too_many(token));
                }
                self.part = after_due(module, StringGlyph::of(token.kind));
                Ok(())
            }
            BuiltPart::MinusRead(module) => {
                self.part = after_minus(module, StringGlyph::of(token.kind));
                Ok(())
            }
            BuiltPart::NumberRead(module) => self.take_after_number(module, token),
        }
    }

    // Reads a token after a name: parameters follow, or the name is a symbol.
    fn take_after_name(&mut self, name: Name, token: Token) -> Result<(), StringRefusal>
        requires form { IsToken (kind_of token.kind) }
        requires text { token.start < token.end }
        requires after_name { self.old.part ≡ BuiltPart.Named name }
        requires goes_on { CanTake (draft_of self.old) (kind_of token.kind) }
        ensures { IsTaken (draft_of self.old) token (draft_of self.new) result }
    {
        if let StringGlyph::Open = StringGlyph::of(token.kind) {
            self.part = BuiltPart::NumberDue(bare(name));
            return Ok(());
        }
        self.add(bare(name))?;
        self.take_symbol(token)
    }

    // Reads a token after a parameter.
    fn take_after_number(&mut self, last: Module, token: Token) -> Result<(), StringRefusal>
        requires after_number { self.old.part ≡ BuiltPart.NumberRead last }
        requires goes_on { CanTake (draft_of self.old) (kind_of token.kind) }
        ensures { IsTaken (draft_of self.old) token (draft_of self.new) result }
    {
        match StringGlyph::of(token.kind) {
            StringGlyph::Comma => self.part = BuiltPart::NumberDue(last),
            StringGlyph::Close => self.add(last)?,
            _ => unreachable!(),
        }
        Ok(())
    }

    // Reads a token that begins a symbol.
    fn take_symbol(&mut self, token: Token) -> Result<(), StringRefusal>
        requires form { IsToken (kind_of token.kind) }
        requires text { token.start < token.end }
        requires between { self.old.part ≡ BuiltPart.Whole }
        requires goes_on { CanTake (draft_of self.old) (kind_of token.kind) }
        ensures { IsTaken (draft_of self.old) token (draft_of self.new) result }
    {
        if self.symbols.len() >= MOST_SYMBOLS {
            return Err(too_many(token));
        }
        let symbol = match StringGlyph::of(token.kind) {
            StringGlyph::Push => Symbol::Push,
            StringGlyph::Pop => Symbol::Pop,
            StringGlyph::Cut => Symbol::Cut,
            StringGlyph::Name | StringGlyph::Minus => {
                self.part = BuiltPart::Named(name_of(token.kind));
                return Ok(());
            }
            _ => unreachable!(),
        };
        self.symbols.push(symbol)?;
        Ok(())
    }

    // Adds a module that is whole.
    fn add(&mut self, last: Module) -> Result<(), AllocError>
        ensures added { OnOk result (self.new.symbols ≡ self.old.symbols ++ Symbol.Module last ∷ []) }
        ensures whole { OnOk result (self.new.part ≡ BuiltPart.Whole) }
    {
        self.symbols.push(Symbol::Module(last))?;
        self.part = BuiltPart::Whole;
        Ok(())
    }

    // The string.
    fn finish(self) -> Result<SymbolList, AllocError>
        requires { IsSome (draft_end (draft_of self)) }
        ensures { IfOk result (λ symbols. draft_end (draft_of self) ≡ Some (string_of symbols)) }
    {
        let Builder { mut symbols, part } = self;
        match part {
            BuiltPart::Whole => Ok(symbols),
            BuiltPart::Named(name) => {
                symbols.push(Symbol::Module(bare(name)))?;
                Ok(symbols)
            }
            _ => unreachable!(),
        }
    }
}

// The module with this name and no parameters.
fn bare(name: Name) -> Module
    ensures name { result.name ≡ name }
    ensures params { result.params ≡ [] }
{
    Module {
        name,
        params: Params::of(&[]),
    }
}

// After a number or a sign that was due.
fn after_due(last: Module, glyph: StringGlyph) -> BuiltPart
    requires few { length last.params < 8 }
    requires goes_on { IsSome (before_number_step [] (module_name last.name) last.params glyph) }
    ensures { IsPartAfterDue last glyph result }
{
    match glyph {
        StringGlyph::Number(number) => BuiltPart::NumberRead(Module {
            params: last.params.and(number as i64),
            ..last
        }),
        StringGlyph::Minus => BuiltPart::MinusRead(last),
        _ => unreachable!(),
    }
}

// After a number that follows a sign.
fn after_minus(last: Module, glyph: StringGlyph) -> BuiltPart
    requires { IsSome (after_minus_step [] (module_name last.name) last.params glyph) }
    ensures { IsPartAfterMinus last glyph result }
{
    match glyph {
        StringGlyph::Number(number) => BuiltPart::NumberRead(Module {
            params: last.params.and(negated(number)),
            ..last
        }),
        _ => unreachable!(),
    }
}

// A number with a sign before it.
fn negated(number: u64) -> i64
    requires { number ≤ 2 ^ 63 }
    ensures { result ≡ negative number }
{
    -i128::from(number) as i64
}

// The module's name that a token is.
fn name_of(kind: TokenKind) -> Name
    requires form { IsToken (kind_of kind) }
    requires name { IsTrue (is_name (glyph_of (kind_of kind))) }
    ensures { module_name result ≡ kind_name (kind_of kind) }
{
    match kind {
        TokenKind::Name(name) => name,
        TokenKind::Mark(mark) => Name::from_mark(mark),
        _ => unreachable!(),
    }
}

// A token is one too many.
fn too_many(token: Token) -> StringRefusal
    requires { token.start < token.end }
    ensures { result ≡ StringRefusal.TooMany (token.start + 1) }
{
    StringRefusal::TooMany {
        column: token.start + 1,
    }
}
