//! The texts of replies.
ghost use Rattle.std.specs.Prelude.{◌≡◌, ◌∷◌, ◌++◌, [], decimal, codes};
ghost use Rattle.lsys_io.specs.Putting.{Puts};
ghost use Rattle.lsys_spec.specs.Refusals.{with_number, fault_word, image_text};
ghost use Rattle.lsys_session.specs.Requests.{cause_text, column_text, count_text, derivation_line, refusal_column, refusal_line, refusal_text, refusal_words, fault_text, image_fault_text};
ghost use Rattle.lsys_rewrite.specs.Faults.{fault_of};
ghost use Rattle.lsys_spec.specs.Pictures.{Far};
ghost use Rattle.lsys_hom.specs.Refusals.{refusal_of};
ghost use Rattle.lsys_session.specs.Given.{picture_line, no_image_line};

use lsys_hom::ImageRefusal;
use lsys_io::{Buffered, Failed, Sink};
use lsys_rewrite::{DeriveRefusal, EditCount, FaultKind};
use lsys_rules::Refusal;

/// Puts the reply of a command that is refused by itself.
///
/// # Errors
///
/// The sink failed; a front of what was held and of the reply was written then.
pub(crate) fn put_refusal<K: Sink>(
    out: &mut Buffered,
    sink: &mut K,
    refusal: Refusal,
) -> Result<(), Failed>
    ensures { Puts K.Sink sink out (refusal_line refusal) result }
{
    out.put(sink, b"refused ")?;
    put_cause(out, sink, refusal)?;
    out.put(sink, b"\n")
}

// Puts why a command is refused.
fn put_cause<K: Sink>(out: &mut Buffered, sink: &mut K, refusal: Refusal) -> Result<(), Failed>
    ensures { Puts K.Sink sink out (refusal_text refusal) result }
{
    out.put(sink, words_of(refusal))?;
    put_column(out, sink, column_of(refusal))
}

// Puts a blank and the column, where there is one.
fn put_column<K: Sink>(out: &mut Buffered, sink: &mut K, column: Option<u32>) -> Result<(), Failed>
    ensures { Puts K.Sink sink out (column_text column) result }
{
    match column {
        None => Ok(()),
        Some(column) => put_blank_number(out, sink, column),
    }
}

// Puts a blank and a number.
fn put_blank_number<K: Sink>(out: &mut Buffered, sink: &mut K, number: u32) -> Result<(), Failed>
    ensures { Puts K.Sink sink out (32 ∷ decimal number) result }
{
    out.put(sink, b" ")?;
    put_number(out, sink, number)
}

fn put_number<K: Sink>(out: &mut Buffered, sink: &mut K, number: u32) -> Result<(), Failed>
    ensures { Puts K.Sink sink out (decimal number) result }
{
    out.put_number(sink, i128::from(number))
}

// Puts words and, right after them, a number.
fn put_with_number<K: Sink>(
    out: &mut Buffered,
    sink: &mut K,
    words: &[u8],
    number: u64,
) -> Result<(), Failed>
    ensures { Puts K.Sink sink out (words.now ++ decimal number) result }
{
    out.put(sink, words)?;
    put_large_number(out, sink, number)
}

fn put_large_number<K: Sink>(out: &mut Buffered, sink: &mut K, number: u64) -> Result<(), Failed>
    ensures { Puts K.Sink sink out (decimal number) result }
{
    out.put_number(sink, i128::from(number))
}

// Why a command is refused, but for the column.
fn words_of(refusal: Refusal) -> &'static [u8]
    ensures { result.now ≡ refusal_words refusal }
{
    match refusal {
        Refusal::Byte { column: _column } => b"syntax byte",
        Refusal::LongLine => b"syntax long",
        Refusal::Token { column: _column } => b"syntax token",
        Refusal::Deep { column: _column } => b"syntax deep",
        Refusal::Version { column: _column } => b"version",
        Refusal::Name { column: _column } => b"name",
        Refusal::Duplicate { column: _column } => b"duplicate",
        Refusal::Mixed { column: _column } => b"mixed",
        Refusal::Label { column: _column } => b"label",
        Refusal::Table { column: _column } => b"table",
        Refusal::Level { column: _column } => b"level",
        Refusal::TooMany { column: _column } => b"many",
        Refusal::Memory => b"memory",
    }
}

// At which column a command is refused.
fn column_of(refusal: Refusal) -> Option<u32>
    ensures { result ≡ refusal_column refusal }
{
    match refusal {
        Refusal::LongLine | Refusal::Memory => None,
        Refusal::Byte { column }
        | Refusal::Token { column }
        | Refusal::Deep { column }
        | Refusal::Version { column }
        | Refusal::Name { column }
        | Refusal::Duplicate { column }
        | Refusal::Mixed { column }
        | Refusal::Label { column }
        | Refusal::Table { column }
        | Refusal::Level { column }
        | Refusal::TooMany { column } => Some(column),
    }
}

/// Puts the reply of an edit whose system has no levels.
///
/// # Errors
///
/// The sink failed; a front of what was held and of the reply was written then.
pub(crate) fn put_no_levels<K: Sink>(
    out: &mut Buffered,
    sink: &mut K,
    refusal: DeriveRefusal,
) -> Result<(), Failed>
    ensures { Puts K.Sink sink out (derivation_line refusal) result }
{
    out.put(sink, b"refused ")?;
    put_why(out, sink, refusal)?;
    out.put(sink, b"\n")
}

// Puts why a system has no levels.
fn put_why<K: Sink>(out: &mut Buffered, sink: &mut K, refusal: DeriveRefusal) -> Result<(), Failed>
    ensures { Puts K.Sink sink out (cause_text refusal) result }
{
    match refusal {
        DeriveRefusal::Fault {
            kind,
            level,
            module,
        } => put_fault(out, sink, kind, level, module),
        DeriveRefusal::Limit { level } => put_numbered(out, sink, b"limit level", level),
        DeriveRefusal::Memory => out.put(sink, b"memory"),
    }
}

// Puts a fault of a module.
fn put_fault<K: Sink>(
    out: &mut Buffered,
    sink: &mut K,
    kind: FaultKind,
    level: u32,
    place: u32,
) -> Result<(), Failed>
    ensures { Puts K.Sink sink out (fault_text kind level place) result }
{
    put_kind(out, sink, kind)?;
    put_numbered(out, sink, b" level", level)?;
    put_numbered(out, sink, b" module", place)
}

// Puts which kind of fault it is.
fn put_kind<K: Sink>(out: &mut Buffered, sink: &mut K, kind: FaultKind) -> Result<(), Failed>
    ensures { Puts K.Sink sink out (codes "fault " ++ fault_word (fault_of kind)) result }
{
    out.put(sink, b"fault ")?;
    out.put(sink, kind.word().as_bytes())
}

// Puts words, a blank and a number.
fn put_numbered<K: Sink>(
    out: &mut Buffered,
    sink: &mut K,
    words: &[u8],
    number: u32,
) -> Result<(), Failed>
    ensures { Puts K.Sink sink out (with_number words.now number) result }
{
    out.put(sink, words)?;
    put_blank_number(out, sink, number)
}

/// Puts the reply of a picture whose level has no image.
///
/// # Errors
///
/// The sink failed; a front of what was held and of the reply was written then.
pub(crate) fn put_no_image<K: Sink>(
    out: &mut Buffered,
    sink: &mut K,
    refusal: ImageRefusal,
) -> Result<(), Failed>
    ensures { Puts K.Sink sink out (no_image_line refusal) result }
{
    out.put(sink, b"refused ")?;
    put_image(out, sink, refusal)?;
    out.put(sink, b"\n")
}

// Puts why a level has no image.
fn put_image<K: Sink>(out: &mut Buffered, sink: &mut K, refusal: ImageRefusal) -> Result<(), Failed>
    ensures { Puts K.Sink sink out (image_text (refusal_of refusal)) result }
{
    match refusal {
        ImageRefusal::Arith { kind, module } => {
            put_image_fault(out, sink, FaultKind::from(kind), module)
        }
        ImageRefusal::Limit => out.put(sink, b"image"),
    }
}

// Puts a fault of a module at its image.
fn put_image_fault<K: Sink>(
    out: &mut Buffered,
    sink: &mut K,
    kind: FaultKind,
    place: u32,
) -> Result<(), Failed>
    ensures { Puts K.Sink sink out (image_fault_text kind place) result }
{
    put_kind(out, sink, kind)?;
    put_numbered(out, sink, b" image", place)
}

/// Puts the reply of a picture that would lead too far, at a module of the image.
///
/// # Errors
///
/// The sink failed; a front of what was held and of the reply was written then.
pub(crate) fn put_far<K: Sink>(out: &mut Buffered, sink: &mut K, place: u32) -> Result<(), Failed>
    ensures { Puts K.Sink sink out (picture_line (Far place)) result }
{
    out.put(sink, b"refused ")?;
    put_numbered(out, sink, b"far", place)?;
    out.put(sink, b"\n")
}

/// Puts the reply of an accepted edit.
///
/// # Errors
///
/// The sink failed; a front of what was held and of the reply was written then.
pub(crate) fn put_count<K: Sink>(
    out: &mut Buffered,
    sink: &mut K,
    count: EditCount,
) -> Result<(), Failed>
    ensures { Puts K.Sink sink out (count_text count) result }
{
    put_with_number(out, sink, b"ok ", count.asked)?;
    put_with_number(out, sink, b"/", count.questions)?;
    out.put(sink, b"\n")
}

/// Writes what is held.
///
/// # Errors
///
/// The sink failed; a front of what was held was written then.
pub(crate) fn finish<K: Sink>(out: &mut Buffered, sink: &mut K) -> Result<(), Failed>
    ensures put { Puts K.Sink sink out [] result }
    ensures empty { out.new ≡ [] }
{
    out.flush(sink)
}
