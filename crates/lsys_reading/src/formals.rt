//! The formals of a module.
ghost use Rattle.std.specs.Prelude.{◌≡◌, ◌≤◌, ◌<◌, length, IfOk};
ghost use Rattle.lsys_reading.specs.Tokens.{kinds_in, size};
ghost use Rattle.lsys_reading.specs.Reads.{IsFormalRead, AreFormalsRead};

use crate::glyph::{Separator, peek};
use crate::line_tokens::LineTokens;
use crate::refusal::PartRefusal;
use lsys_text::Name;
use std::alloc::Global;

/// A formal, and what stands after it.
#[derive(Clone, Copy)]
pub(crate) struct FormalRead {
    pub name: Name,
    pub separator: Separator,
}

/// Formals, up to the token after their parenthesis.
#[derive(Drop)]
pub(crate) struct FormalsRead {
    pub formals: Vec<Name>,
    pub end: usize,
}

// A formal at a place, and what stands after it.
fn formal(line: &LineTokens, at: usize) -> Result<FormalRead, PartRefusal>
    requires within { at ≤ size line.now }
    ensures { IsFormalRead (kinds_in line.now) at result }
{
    let Some(name) = peek(line, at).formal() else {
        return Err(PartRefusal::Token { place: at });
    };
    let Some(separator) = peek(line, at + 1).separator() else {
        return Err(PartRefusal::Token { place: at + 1 });
    };
    Ok(FormalRead { name, separator })
}

// The formals after a parenthesis.
pub(crate) fn formals(
    alloc: Global,
    line: &LineTokens,
    at: usize,
) -> Result<FormalsRead, PartRefusal>
    requires within { at ≤ size line.now }
    ensures read { AreFormalsRead (kinds_in line.now) at result }
    ensures some { IfOk result (λ f. 0 < length f.formals.items) }
    ensures place { IfOk result (λ f. (at < f.end) × (f.end ≤ size line.now)) }
{
    let mut formals = Vec::new(alloc);
    let mut end = at;
    'formals: loop {
        let read = formal(line, end)?;
        formals.push(read.name).map_err(|_| PartRefusal::Memory)?;
        end += 2;
        if read.separator == Separator::Close {
            return Ok(FormalsRead { formals, end });
        }
    }
}
