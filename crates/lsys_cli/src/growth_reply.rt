//! Replies to lines that ask for the growth of a system.
ghost use Rattle.std.specs.Prelude.{◌≡◌, ◌<◌, [], decimal, flat_map, map};
ghost use Rattle.lsys_io.specs.Putting.{Puts};
ghost use Rattle.lsys_module.specs.Views.{module_name};
ghost use Rattle.lsys_spec.specs.Systems.{module_name_text};
ghost use Rattle.lsys_growth.specs.Growth.{letter_line, growth_at, growth_text};
ghost use Rattle.lsys_growth.specs.Views.{IsGrowthAnswer, count_of};
ghost use Rattle.lsys_session.specs.declared.outcome.Outcome.TheVariants.{Printed};
ghost use Rattle.lsys_cli.specs.Growing.{growth_line, growth_outcome};
ghost use Rattle.lsys_session.specs.Calls.{Says};
ghost use Rattle.lsys_cli.specs.DeskCalls.{SaysGrowth};

use crate::sayings::{finish, say};
use itoa::Buffer;
use lsys_growth::{Count, Growth, GrowthRefusal, Steps, growth};
use lsys_io::{Buffered, Failed, Sink};
use lsys_rules::{Refusal, System};
use lsys_session::{Outcome, refuse};
use lsys_text::Name;
use std::alloc::Global;
use std::marker::Brand;
use std::sync::ledger::{Blank, Ledger};

/// Tells the growth of a system at a level, or why it isn't told.
///
/// # Errors
///
/// The sink failed; a front of the reply was written then.
pub(crate) fn answer_growth<K: Sink>(
    alloc: Global,
    system: &System,
    level: u64,
    out: &mut Buffered,
    sink: &mut K,
) -> Result<Outcome, Failed>
    requires { out.old ≡ [] }
    ensures { SaysGrowth K.Sink sink out system.now level result }
{
    match counted_growth::<Brand>(alloc, system, level, Blank::new(1)) {
        Ok(growth) => print_growth(out, sink, &growth),
        Err(refusal) => refuse_growth(out, sink, refusal),
    }
}

// The growth of a system at a level, its products counted on a ledger of their own.
fn counted_growth<P: Ledger>(
    alloc: Global,
    system: &System,
    level: u64,
    products: Blank,
) -> Result<Growth, GrowthRefusal>
    requires name { products.name ≡ P.name }
    requires parts { products.parts ≡ P.parts }
    requires some { 0 < products.parts }
    ensures { IsGrowthAnswer result (growth_at system.now level) }
{
    let mut products = Steps::<P>::open(products);
    growth(alloc, system, level, &mut products)
}

// Answers with the refusal of a growth.
fn refuse_growth<K: Sink>(
    out: &mut Buffered,
    sink: &mut K,
    refusal: GrowthRefusal,
) -> Result<Outcome, Failed>
    requires { out.old ≡ [] }
    ensures { Says K.Sink sink out (growth_line refusal) (growth_outcome refusal) result }
{
    match refusal {
        GrowthRefusal::Class => say(out, sink, b"refused growth\n", Outcome::Refused),
        GrowthRefusal::Letters => say(out, sink, b"refused letters\n", Outcome::Refused),
        GrowthRefusal::Overflow => say(out, sink, b"refused overflow\n", Outcome::Refused),
        GrowthRefusal::Memory => refuse(out, sink, Refusal::Memory),
    }
}

// Answers with the growth of a system at a level.
fn print_growth<K: Sink>(
    out: &mut Buffered,
    sink: &mut K,
    growth: &Growth,
) -> Result<Outcome, Failed>
    requires { out.old ≡ [] }
    ensures { Says K.Sink sink out (growth_text growth.now) Printed result }
{
    put_growth(out, sink, growth)?;
    finish(out, sink)?;
    Ok(Outcome::Printed)
}

// Puts the length of a level and the counts of its letters, each on a line of its own.
fn put_growth<K: Sink>(out: &mut Buffered, sink: &mut K, growth: &Growth) -> Result<(), Failed>
    ensures { Puts K.Sink sink out (growth_text growth.now) result }
{
    out.put(sink, b"growth ")?;
    put_wide_number(out, sink, growth.length())?;
    out.put(sink, b"\n")?;
    put_counts(out, sink, growth.counts())
}

fn put_counts<K: Sink>(out: &mut Buffered, sink: &mut K, counts: &[Count]) -> Result<(), Failed>
    ensures { Puts K.Sink sink out (flat_map letter_line (map count_of counts.now)) result }
{
    for count in counts {
        put_count(out, sink, count)?;
    }
    Ok(())
}

// Puts how often a letter stands in the level.
fn put_count<K: Sink>(out: &mut Buffered, sink: &mut K, count: &Count) -> Result<(), Failed>
    ensures { Puts K.Sink sink out (letter_line (count_of count.now)) result }
{
    put_letter(out, sink, count.name)?;
    out.put(sink, b" ")?;
    put_wide_number(out, sink, count.count)?;
    out.put(sink, b"\n")
}

fn put_letter<K: Sink>(out: &mut Buffered, sink: &mut K, name: Name) -> Result<(), Failed>
    ensures { Puts K.Sink sink out (module_name_text (module_name name)) result }
{
    let text = name.text();
    let bytes = text.as_bytes();
    out.put(sink, bytes)
}

fn put_wide_number<K: Sink>(out: &mut Buffered, sink: &mut K, number: u128) -> Result<(), Failed>
    ensures { Puts K.Sink sink out (decimal number) result }
{
    let mut digits = Buffer::new();
    out.put(sink, digits.format(number).as_bytes())
}
