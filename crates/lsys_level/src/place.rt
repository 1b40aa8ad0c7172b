//! A symbol as it is kept.
ghost use Rattle.std.specs.Prelude.{◌≡◌, ◌≢◌, ◌≤◌, [], length};
ghost use Rattle.lsys_module.specs.declared.symbol.Symbol.TheVariants.{Cut};
ghost use Rattle.lsys_level.specs.Places.{params_in, kept_place, bracket_place};

use crate::tag::Tag;
use lsys_module::Symbol;
use lsys_text::Name;
use std::mem::size_of;

/// What a kept symbol is.
#[derive(Clone, Copy)]
pub(crate) enum KeptKind {
    /// `[`
    Push,
    /// `]`
    Pop,
    Module,
}

/// A symbol as it is kept, in 32 bytes.
#[derive(Clone, Copy)]
pub(crate) struct KeptSymbol {
    pub(crate) key: u64,
    /// The name of a module; a bracket's is never read.
    pub(crate) name: Name,
    /// Of a bracket the place of its mate; of a module where its parameters begin.
    pub(crate) link: usize,
    pub(crate) tag: Tag,
    /// How many parameters there are.
    pub(crate) arity: u8,
    pub(crate) kind: KeptKind,
}

const _: () = prove!(size_of::<KeptSymbol>() == 32);

impl KeptSymbol {
    /// The symbol with its tag and its key; its mate's place if it is a bracket, and where its parameters begin if it
    /// is a module.
    pub(crate) fn of(symbol: &Symbol, mate: usize, start: usize, tag: Tag, key: u64) -> KeptSymbol
        requires { symbol.now ≢ Cut }
        ensures { result ≡ kept_place symbol.now mate start tag key }
    {
        match symbol {
            Symbol::Push => KeptSymbol::bracket(KeptKind::Push, mate, tag, key),
            Symbol::Pop => KeptSymbol::bracket(KeptKind::Pop, mate, tag, key),
            Symbol::Module(module) => KeptSymbol {
                key,
                name: module.name,
                link: start,
                tag,
                arity: module.params.values().len() as u8,
                kind: KeptKind::Module,
            },
            Symbol::Cut => unreachable!(),
        }
    }

    fn bracket(kind: KeptKind, mate: usize, tag: Tag, key: u64) -> KeptSymbol
        ensures { result ≡ bracket_place kind mate tag key }
    {
        KeptSymbol {
            key,
            name: Name::from_mark(b'+'),
            link: mate,
            tag,
            arity: 0,
            kind,
        }
    }
}

/// The parameters of a symbol; a bracket has none.
pub(crate) fn params_of(symbol: &Symbol) -> &[i64]
    ensures params { result.now ≡ params_in symbol.now }
    ensures few { length result.now ≤ 8 }
{
    match symbol {
        Symbol::Module(module) => module.params.values(),
        _ => &[],
    }
}
