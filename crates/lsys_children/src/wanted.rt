//! The children that a successor wants.
ghost use Rattle.std.specs.Prelude.{◌≡◌, ◌≢◌, ◌<◌, ◌≤◌, ◌∷◌, [], length, OnOk};
ghost use Rattle.lsys_spec.specs.Draws.{number_base};
ghost use Rattle.lsys_level.specs.Views.{seen_of, HasFewParams};
ghost use Rattle.lsys_module.specs.declared.symbol.Symbol.TheVariants.{Cut};
ghost use Rattle.lsys_module.specs.Views.{symbol_of, string_of};
ghost use Rattle.lsys_children.specs.Wishes.{itself, AreWantedBy};
ghost use Rattle.lsys_children.specs.NumbersOf.{PutsChildIfLeft};

use crate::child::Child;
use crate::number::Number;
use crate::numbers::{SuccessorNumbers, first_number};
use lsys_draw::child_key;
use lsys_level::Sight;
use lsys_module::{Module, Params, Symbol};
use lsys_reading::Lineage;
use lsys_rewrite::{next_cutting, stays};
use std::alloc::{AllocError, Global};
use std::marker::Model;

/// The children that a successor wants of one parent, in order. They keep their room from one successor to the next.
#[derive(Drop)]
pub struct Wanted {
    numbers: SuccessorNumbers,
    children: Vec<Child>,
}

impl Model for Wanted {
    ghost use Rattle.std.specs.Prelude.{List};
    ghost use Rattle.lsys_children.specs.declared.child.Child.{Child};

    ghost Value = { List Child };

    ghost view = { λ a. a.children.items };
}

impl Wanted {
    /// Nothing is wanted. It takes no memory.
    pub fn new(alloc: Global) -> Wanted
        ensures { result ≡ [] }
    {
        Wanted {
            numbers: SuccessorNumbers::new(alloc),
            children: Vec::new(alloc),
        }
    }

    /// The children that a successor wants of a parent with this key: what the cuts among its symbols leave, each with the
    /// number and the key that it has among them all. The root's key is the seed, and its successor the axiom.
    ///
    /// # Errors
    ///
    /// Out of memory. What is there is of no use then.
    pub(crate) fn fill(
        &mut self,
        numbering: Lineage,
        key: u64,
        successor: &[Symbol],
    ) -> Result<(), AllocError>
        requires few { length successor.now ≤ number_base }
        ensures wanted { OnOk result (AreWantedBy numbering key (string_of successor.now) self.new) }
    {
        self.numbers.begin(numbering);
        self.children.clear();
        let mut cutting = None;
        for symbol in successor {
            let number = self.numbers.next(symbol)?;
            put_child(&mut self.children, cutting, key, number, symbol)?;
            cutting = next_cutting(cutting, symbol);
        }
        Ok(())
    }

    /// The one child that a bracket, or a module that nothing replaces, wants with this key: itself.
    ///
    /// # Errors
    ///
    /// Out of memory. What is there is of no use then.
    pub(crate) fn fill_itself(
        &mut self,
        numbering: Lineage,
        key: u64,
        symbol: &Symbol,
    ) -> Result<(), AllocError>
        requires whole { symbol.now ≢ Cut }
        ensures wanted { OnOk result (AreWantedBy numbering key (symbol_of symbol.now ∷ []) self.new) }
    {
        let number = first_number(numbering, symbol);
        self.children.clear();
        put_child(&mut self.children, None, key, number, symbol)?;
        Ok(())
    }

    /// The children, in order.
    pub(crate) fn children(&self) -> &[Child]
        ensures { result.now ≡ self.now }
    {
        &self.children
    }
}

/// Puts the child that a symbol is after the others, if it stays where so much is being cut off.
fn put_child(
    children: &mut Vec<Child>,
    cutting: Option<usize>,
    key: u64,
    number: Number,
    symbol: &Symbol,
) -> Result<(), AllocError>
    requires small { number.count < number_base }
    ensures { OnOk result (PutsChildIfLeft children.old children.new cutting key number symbol.now) }
{
    if stays(cutting, symbol) {
        children.push(Child {
            number,
            symbol: *symbol,
            key: child_key(key, number.code, number.count),
        })?;
    }
    Ok(())
}

/// The symbol that is seen.
pub(crate) fn symbol_seen(sight: Sight<'_>) -> Symbol
    requires { HasFewParams sight }
    ensures symbol { symbol_of result ≡ itself (seen_of sight.entry) }
    ensures whole { result ≢ Cut }
{
    match sight {
        Sight::Push => Symbol::Push,
        Sight::Pop => Symbol::Pop,
        Sight::Module { name, params } => Symbol::Module(Module {
            name,
            params: Params::of(params),
        }),
    }
}
