//! A system as a script.
ghost use Rattle.std.specs.Prelude.{◌++◌, ◌∷◌, [], map, decimal};
ghost use Rattle.lsys_syntax.specs.Strings.{Signed, signed_of, signed_pieces};
ghost use Rattle.lsys_syntax.specs.Commands.{as_symbol, list_word, set_depth, set_lattice, set_schedule, set_seed, words_pieces};
ghost use Rattle.lsys_syntax.specs.Pieces.{text_of};
ghost use Rattle.lsys_spec.specs.Shown.{as_set_own, script_of, show_text};
ghost use Rattle.lsys_io.specs.Putting.{Puts};
ghost use Rattle.lsys_module.specs.Views.{module_name};
ghost use Rattle.lsys_reading.specs.Commands.{lattice_of, list_kind_of, numbering_of};
ghost use Rattle.lsys_rules.specs.Showing.{script_line, listed_text, names_text, version_lines};
ghost use Rattle.lsys_rules.specs.ScriptLines.{axiom_line, homomorphism_lines, ignored_line, numbering_lines, production_lines};

use crate::own_list::OwnList;
use crate::show_rules::{put_decimal, put_hom_rule, put_rule, put_word};
use crate::system::System;
use lsys_bodies::{HomRule, Rule};
use lsys_io::{Buffered, Failed, Sink};
use lsys_module::{Notation, Shape, SymbolList, print_string, put_symbols};
use lsys_reading::{LatticeName, Lineage, ListKind};
use lsys_text::{Name, Word};

/// Puts the system as the script of the commands that make it from the opening one, each on its line. It takes no memory.
///
/// # Errors
///
/// The sink failed; a front of what was held and of the script was written then.
pub fn show<K: Sink>(system: &System, out: &mut Buffered, sink: &mut K) -> Result<(), Failed>
    ensures { Puts K.Sink sink out (show_text system.now) result }
{
    put_version(out, sink, system.version(), system.lineage())?;
    put_lattice(out, sink, system.lattice())?;
    put_seed(out, sink, system.seed())?;
    put_axiom(out, sink, system.axiom())?;
    put_ignored(out, sink, system.ignored())?;
    put_rules(out, sink, system.rules())?;
    put_hom_rules(out, sink, system.hom_rules())?;
    put_own_lists(out, sink, system.own_lists())?;
    put_schedule(out, sink, system.schedule())?;
    put_depth(out, sink, system.depth())
}

// Puts a version and a numbering, which have no line in version 1.
fn put_version<K: Sink>(
    out: &mut Buffered,
    sink: &mut K,
    version: u32,
    numbering: Lineage,
) -> Result<(), Failed>
    ensures { Puts K.Sink sink out (version_lines version (numbering_of numbering)) result }
{
    if version == 1 {
        return Ok(());
    }
    put_number_line(out, sink, b"version ", u64::from(version))?;
    put_numbering(out, sink, numbering)
}

// Puts the numbering, which has no line where it is by places.
fn put_numbering<K: Sink>(
    out: &mut Buffered,
    sink: &mut K,
    numbering: Lineage,
) -> Result<(), Failed>
    ensures { Puts K.Sink sink out (numbering_lines numbering) result }
{
    match numbering {
        Lineage::Places => Ok(()),
        Lineage::Names => out.put(sink, b"lineage names\n"),
    }
}

fn put_lattice<K: Sink>(
    out: &mut Buffered,
    sink: &mut K,
    lattice: LatticeName,
) -> Result<(), Failed>
    ensures { Puts K.Sink sink out (script_line (set_lattice (lattice_of lattice))) result }
{
    match lattice {
        LatticeName::Square => out.put(sink, b"lattice square\n"),
        LatticeName::Hexagonal => out.put(sink, b"lattice hexagonal\n"),
        LatticeName::Cubic => out.put(sink, b"lattice cubic\n"),
    }
}

fn put_seed<K: Sink>(out: &mut Buffered, sink: &mut K, seed: u64) -> Result<(), Failed>
    ensures { Puts K.Sink sink out (script_line (set_seed seed)) result }
{
    put_number_line(out, sink, b"seed ", seed)
}

fn put_depth<K: Sink>(out: &mut Buffered, sink: &mut K, depth: u32) -> Result<(), Failed>
    ensures { Puts K.Sink sink out (script_line (set_depth depth)) result }
{
    put_number_line(out, sink, b"depth ", u64::from(depth))
}

// Puts a word and a number on a line.
fn put_number_line<K: Sink>(
    out: &mut Buffered,
    sink: &mut K,
    word: &[u8],
    number: u64,
) -> Result<(), Failed>
    ensures { Puts K.Sink sink out (word.now ++ (decimal number ++ 10 ∷ [])) result }
{
    out.put(sink, word)?;
    put_decimal(out, sink, number)?;
    out.put(sink, b"\n")
}

fn put_axiom<K: Sink>(out: &mut Buffered, sink: &mut K, symbols: &SymbolList) -> Result<(), Failed>
    ensures { Puts K.Sink sink out (axiom_line symbols.now) result }
{
    if symbols.is_empty() {
        return out.put(sink, b"axiom\n");
    }
    out.put(sink, b"axiom ")?;
    print_string(out, sink, symbols)?;
    out.put(sink, b"\n")
}

fn put_ignored<K: Sink>(out: &mut Buffered, sink: &mut K, names: &[Name]) -> Result<(), Failed>
    ensures { Puts K.Sink sink out (ignored_line names.now) result }
{
    if names.is_empty() {
        return out.put(sink, b"ignore\n");
    }
    out.put(sink, b"ignore ")?;
    put_names(out, sink, names)?;
    out.put(sink, b"\n")
}

// Puts names, each after a blank where it needs one.
fn put_names<K: Sink>(out: &mut Buffered, sink: &mut K, names: &[Name]) -> Result<(), Failed>
    ensures { Puts K.Sink sink out (names_text (map module_name names.now)) result }
{
    put_symbols::<K, Name, i64, Names>(out, sink, names)
}

// Names, as modules without parameters.
struct Names;

impl Notation<Name, i64> for Names {
    ghost Written = { Signed };

    ghost way = { record { symbol = λ name. as_symbol (module_name name); param = signed_of; print = signed_pieces } };

    fn shape(of: &Name) -> Shape<'_, i64> {
        Shape::Module(*of, &[])
    }

    fn put_param<K: Sink>(out: &mut Buffered, sink: &mut K, of: &i64) -> Result<(), Failed> {
        out.put_number(sink, i128::from(*of))
    }
}

fn put_rules<K: Sink>(out: &mut Buffered, sink: &mut K, rules: &[Rule]) -> Result<(), Failed>
    ensures { Puts K.Sink sink out (production_lines rules.now) result }
{
    for rule in rules {
        put_rule(out, sink, rule)?;
    }
    Ok(())
}

fn put_hom_rules<K: Sink>(out: &mut Buffered, sink: &mut K, rules: &[HomRule]) -> Result<(), Failed>
    ensures { Puts K.Sink sink out (homomorphism_lines rules.now) result }
{
    for rule in rules {
        put_hom_rule(out, sink, rule)?;
    }
    Ok(())
}

fn put_own_lists<K: Sink>(out: &mut Buffered, sink: &mut K, lists: &[OwnList]) -> Result<(), Failed>
    ensures { Puts K.Sink sink out (script_of (map as_set_own lists.now)) result }
{
    for list in lists {
        put_own_list(out, sink, list)?;
    }
    Ok(())
}

fn put_own_list<K: Sink>(out: &mut Buffered, sink: &mut K, list: &OwnList) -> Result<(), Failed>
    ensures { Puts K.Sink sink out (script_line (as_set_own list.now)) result }
{
    let filter = list.filter();
    put_list_word(out, sink, filter.kind)?;
    put_next_word(out, sink, list.table())?;
    put_listed(out, sink, filter.names)
}

fn put_list_word<K: Sink>(out: &mut Buffered, sink: &mut K, kind: ListKind) -> Result<(), Failed>
    ensures { Puts K.Sink sink out (list_word (list_kind_of kind)) result }
{
    match kind {
        ListKind::Ignore => out.put(sink, b"ignoring"),
        ListKind::Consider => out.put(sink, b"consider"),
    }
}

// Puts a colon and the names after it, up to the line's end.
fn put_listed<K: Sink>(out: &mut Buffered, sink: &mut K, names: &[Name]) -> Result<(), Failed>
    ensures { Puts K.Sink sink out (listed_text (map module_name names.now)) result }
{
    if names.is_empty() {
        return out.put(sink, b":\n");
    }
    out.put(sink, b": ")?;
    put_names(out, sink, names)?;
    out.put(sink, b"\n")
}

fn put_schedule<K: Sink>(out: &mut Buffered, sink: &mut K, words: &[Word]) -> Result<(), Failed>
    ensures { Puts K.Sink sink out (script_line (set_schedule words.now)) result }
{
    out.put(sink, b"schedule")?;
    put_words(out, sink, words)?;
    out.put(sink, b"\n")
}

// Puts words, each after a blank.
fn put_words<K: Sink>(out: &mut Buffered, sink: &mut K, words: &[Word]) -> Result<(), Failed>
    ensures { Puts K.Sink sink out (text_of (words_pieces words.now)) result }
{
    for word in words {
        put_next_word(out, sink, *word)?;
    }
    Ok(())
}

fn put_next_word<K: Sink>(out: &mut Buffered, sink: &mut K, word: Word) -> Result<(), Failed>
    ensures { Puts K.Sink sink out (32 ∷ word) result }
{
    out.put(sink, b" ")?;
    put_word(out, sink, word)
}
