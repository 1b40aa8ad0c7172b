//! What stands before a rule: its table, where it is written, its label and a colon.
ghost use Rattle.std.specs.Prelude.{◌≡◌, ◌≤◌, IfOk};
ghost use Rattle.lsys_syntax.specs.LineMachine.{ProductionDue, LabelDue};
ghost use Rattle.lsys_reading.specs.Tokens.{kinds_in, size};
ghost use Rattle.lsys_reading.specs.Headings.{IsColon, IsTableHeading, production_after, homomorphism_after};
ghost use Rattle.lsys_reading.specs.Lines.{IsPart};

use crate::glyph::peek;
use crate::line_tokens::LineTokens;
use crate::refusal::PartRefusal;
use crate::words::word;
use lsys_text::Word;

/// A table, where it is written, and a label, up to the token after their colon.
#[derive(Clone, Copy)]
pub(crate) struct Heading {
    pub table: Option<Word>,
    pub label: Word,
    pub end: usize,
}

// The place after a colon.
fn colon(line: &LineTokens, at: usize) -> Result<usize, PartRefusal>
    ensures { IsColon (kinds_in line.now) at result }
{
    if peek(line, at).is_colon() {
        Ok(at + 1)
    } else {
        Err(PartRefusal::Token { place: at })
    }
}

// What stands between the word `production` and the rule.
pub(crate) fn production_heading(line: &LineTokens) -> Result<Heading, PartRefusal>
    ensures heading { IsPart (kinds_in line.now) 1 ProductionDue (λ h. h.end) production_after result }
    ensures place { IfOk result (λ h. h.end ≤ size line.now) }
{
    let first = word(line, 1)?;
    if peek(line, 2).is_colon() {
        return Ok(Heading {
            table: None,
            label: first,
            end: 3,
        });
    }
    let label = word(line, 2)?;
    let end = colon(line, 3)?;
    Ok(Heading {
        table: Some(first),
        label,
        end,
    })
}

// What stands between the word `hom` and the rule.
pub(crate) fn homomorphism_heading(line: &LineTokens) -> Result<Heading, PartRefusal>
    ensures heading { IsPart (kinds_in line.now) 1 LabelDue (λ h. h.end) homomorphism_after result }
    ensures place { IfOk result (λ h. h.end ≤ size line.now) }
{
    let label = word(line, 1)?;
    let end = colon(line, 2)?;
    Ok(Heading {
        table: None,
        label,
        end,
    })
}

// The table between the word of a table's own list and its names, which begin at place 3.
pub(crate) fn table_heading(line: &LineTokens) -> Result<Word, PartRefusal>
    ensures heading { IsTableHeading (kinds_in line.now) result }
    ensures place { IfOk result (λ t. 3 ≤ size line.now) }
{
    let table = word(line, 1)?;
    colon(line, 2)?;
    Ok(table)
}
