//! Replies that are put whole.
ghost use Rattle.std.specs.Prelude.{◌≡◌, []};
ghost use Rattle.lsys_io.specs.Putting.{Puts};
ghost use Rattle.lsys_session.specs.Calls.{Says};

use lsys_io::{Buffered, Failed, Sink};
use lsys_session::Outcome;

/// Says a text, after which all that is held is written.
///
/// # Errors
///
/// The sink failed; a front of the text was written then.
pub(crate) fn say<K: Sink>(
    out: &mut Buffered,
    sink: &mut K,
    text: &[u8],
    outcome: Outcome,
) -> Result<Outcome, Failed>
    requires { out.old ≡ [] }
    ensures { Says K.Sink sink out text.now outcome result }
{
    out.put(sink, text)?;
    finish(out, sink)?;
    Ok(outcome)
}

/// Writes what is held.
///
/// # Errors
///
/// The sink failed; a front of what was held was written then.
pub(crate) fn finish<K: Sink>(out: &mut Buffered, sink: &mut K) -> Result<(), Failed>
    ensures put { Puts K.Sink sink out [] result }
    ensures empty { out.new ≡ [] }
{
    out.flush(sink)
}
