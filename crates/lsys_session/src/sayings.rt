//! Replies that are put whole: all that is held is written after each.
ghost use Rattle.std.specs.Prelude.{◌≡◌, ◌<◌, [], IfOk, length};
ghost use Rattle.lsys_spec.specs.Shown.{show_text};
ghost use Rattle.lsys_session.specs.Requests.{count_text, refusal_line};
ghost use Rattle.lsys_session.specs.Sessions.{refusal_outcome};
ghost use Rattle.lsys_session.specs.declared.outcome.Outcome.TheVariants.{Accepted, Printed, Refused};
ghost use Rattle.lsys_io.specs.Putting.{Puts};
ghost use Rattle.lsys_level.specs.Spots.{spots_at};
ghost use Rattle.lsys_spec.specs.Pictures.{Far};
ghost use Rattle.lsys_session.specs.Given.{picture_line, no_image_line, level_line};
ghost use Rattle.lsys_session.specs.Calls.{Says, SaysNoLevels};

use crate::outcome::{Outcome, of_derivation, of_refusal};
use crate::replies::{finish, put_count, put_far, put_no_image, put_no_levels, put_refusal};
use crate::strings::put_level;
use lsys_hom::ImageRefusal;
use lsys_io::{Buffered, Failed, Sink};
use lsys_level::LevelView;
use lsys_rewrite::{DeriveRefusal, EditCount};
use lsys_rules::{Refusal, System, show};

/// Answers a command that is refused by itself.
///
/// # Errors
///
/// The sink failed; a front of the reply was written then.
pub fn refuse<K: Sink>(
    out: &mut Buffered,
    sink: &mut K,
    refusal: Refusal,
) -> Result<Outcome, Failed>
    requires { out.old ≡ [] }
    ensures { Says K.Sink sink out (refusal_line refusal) (refusal_outcome refusal) result }
{
    put_refusal(out, sink, refusal)?;
    finish(out, sink)?;
    Ok(of_refusal(refusal))
}

/// Answers an edit that is refused, since its system has no levels.
///
/// # Errors
///
/// The sink failed; a front of the reply was written then.
pub(crate) fn refuse_edit<K: Sink>(
    out: &mut Buffered,
    sink: &mut K,
    refusal: DeriveRefusal,
) -> Result<Outcome, Failed>
    requires { out.old ≡ [] }
    ensures { SaysNoLevels K.Sink sink out refusal result }
{
    put_no_levels(out, sink, refusal)?;
    finish(out, sink)?;
    Ok(of_derivation(refusal))
}

/// Answers an edit that was made, by how many questions it asked and how many there are.
///
/// # Errors
///
/// The sink failed; a front of the reply was written then.
pub(crate) fn accept<K: Sink>(
    out: &mut Buffered,
    sink: &mut K,
    count: EditCount,
) -> Result<Outcome, Failed>
    requires { out.old ≡ [] }
    ensures { Says K.Sink sink out (count_text count) Accepted result }
{
    put_count(out, sink, count)?;
    finish(out, sink)?;
    Ok(Outcome::Accepted)
}

/// Answers with a system as the script that gives it back.
///
/// # Errors
///
/// The sink failed; a front of the reply was written then.
pub(crate) fn show_system<K: Sink>(
    out: &mut Buffered,
    sink: &mut K,
    system: &System,
) -> Result<Outcome, Failed>
    requires { out.old ≡ [] }
    ensures { Says K.Sink sink out (show_text system.now) Printed result }
{
    show(system, out, sink)?;
    finish(out, sink)?;
    Ok(Outcome::Printed)
}

/// Answers with a level on a line. It takes no memory.
///
/// # Errors
///
/// The sink failed; a front of the reply was written then.
pub(crate) fn print_line<K: Sink, W: LevelView>(
    out: &mut Buffered,
    sink: &mut K,
    view: &W,
    level: u32,
) -> Result<Outcome, Failed>
    requires empty { out.old ≡ [] }
    requires level { level < length (W.levels view.now) }
    ensures { Says K.Sink sink out (level_line (spots_at (W.levels view.now) level)) Printed result }
{
    put_level(out, sink, view, level)?;
    out.put(sink, b"\n")?;
    finish(out, sink)?;
    Ok(Outcome::Printed)
}

/// Answers with a picture's refusal, since the last level has no image.
///
/// # Errors
///
/// The sink failed; a front of the reply was written then.
pub fn refuse_image<K: Sink>(
    out: &mut Buffered,
    sink: &mut K,
    refusal: ImageRefusal,
) -> Result<Outcome, Failed>
    requires { out.old ≡ [] }
    ensures { Says K.Sink sink out (no_image_line refusal) Refused result }
{
    put_no_image(out, sink, refusal)?;
    finish(out, sink)?;
    Ok(Outcome::Refused)
}

/// Answers with a picture's refusal, since a module of the image would lead too far.
///
/// # Errors
///
/// The sink failed; a front of the reply was written then.
pub fn refuse_far<K: Sink>(out: &mut Buffered, sink: &mut K, place: u32) -> Result<Outcome, Failed>
    requires { out.old ≡ [] }
    ensures { Says K.Sink sink out (picture_line (Far place)) Refused result }
{
    put_far(out, sink, place)?;
    finish(out, sink)?;
    Ok(Outcome::Refused)
}

/// Ends an answer whose text was put.
///
/// # Errors
///
/// The sink failed; a front of what was held was written then.
pub(crate) fn end_print<K: Sink>(out: &mut Buffered, sink: &mut K) -> Result<Outcome, Failed>
    ensures put { Puts K.Sink sink out [] result }
    ensures empty { out.new ≡ [] }
    ensures outcome { IfOk result (λ o. o ≡ Printed) }
{
    finish(out, sink)?;
    Ok(Outcome::Printed)
}
