//! Replies to lines that ask how far the picture of the last level reaches, or where its turtle stands.
ghost use Rattle.std.specs.Prelude.{◌≡◌, [], None};
ghost use Rattle.lsys_io.specs.Putting.{Puts};
ghost use Rattle.lsys_spec.specs.PictureTexts.{place_text};
ghost use Rattle.lsys_lattice.specs.Bounds.{pose_text};
ghost use Rattle.lsys_lattice.specs.Wide.{extents_of};
ghost use Rattle.lsys_session.specs.Given.{IsWellUnder};
ghost use Rattle.lsys_session.specs.declared.outcome.Outcome.TheVariants.{Printed, Refused};
ghost use Rattle.lsys_cli.specs.Motions.{AreKept, motion_line, motion_outcome, pose_line, span_text, spans_text, told_by};
ghost use Rattle.lsys_session.specs.Calls.{Says};
ghost use Rattle.lsys_cli.specs.DeskCalls.{SaysBounds, SaysAt, SaysPose};

use crate::kept_motions::{HasMotions, KeptMotions, take_motions};
use crate::sayings::finish;
use lsys_io::{Buffered, Failed, Sink};
use lsys_lattice::{Extents, Lattice};
use lsys_motion::{MotionRefusal, Motions, Pose};
use lsys_out::{put_place, put_unsigned, put_wide};
use lsys_rules::Refusal;
use lsys_session::{Outcome, refuse, refuse_far, refuse_image};
use std::alloc::Global;
use std::sync::ledger::Ledger;

/// Tells how far the picture reaches, or why that isn't told. The picture's motions are kept then.
///
/// # Errors
///
/// The sink failed; a front of the reply was written then.
pub(crate) fn answer_bounds<K: Sink, L: Ledger, D: HasMotions<L>>(
    alloc: Global,
    derivation: &D,
    kept: &mut Option<KeptMotions>,
    out: &mut Buffered,
    sink: &mut K,
) -> Result<Outcome, Failed>
    requires empty { out.old ≡ [] }
    requires session { IsWellUnder (D.limit_of derivation.now) (D.system_of derivation.now) }
    requires kept { AreKept (D.limit_of derivation.now) (D.system_of derivation.now) kept.old }
    ensures prints { SaysBounds K.Sink sink out D.limit_of D.system_of derivation.now result }
    ensures kept { AreKept (D.limit_of derivation.now) (D.system_of derivation.now) kept.new }
{
    let motions = match take_motions(alloc, derivation, kept) {
        Ok(motions) => motions,
        Err(refusal) => return refuse_motions(out, sink, refusal),
    };
    let answered = print_bounds(out, sink, motions.bounds());
    *kept = Some(motions);
    answered
}

/// Tells where the picture's turtle stands after so many symbols of the image, or why that isn't told. The number stands
/// at a column. The picture's motions are kept then.
///
/// # Errors
///
/// The sink failed; a front of the reply was written then.
pub(crate) fn answer_place<K: Sink, L: Ledger, D: HasMotions<L>>(
    alloc: Global,
    derivation: &D,
    kept: &mut Option<KeptMotions>,
    place: u64,
    column: u32,
    out: &mut Buffered,
    sink: &mut K,
) -> Result<Outcome, Failed>
    requires empty { out.old ≡ [] }
    requires session { IsWellUnder (D.limit_of derivation.now) (D.system_of derivation.now) }
    requires kept { AreKept (D.limit_of derivation.now) (D.system_of derivation.now) kept.old }
    ensures prints { SaysAt place column K.Sink sink out D.limit_of D.system_of derivation.now result }
    ensures kept { AreKept (D.limit_of derivation.now) (D.system_of derivation.now) kept.new }
{
    let motions = match take_motions(alloc, derivation, kept) {
        Ok(motions) => motions,
        Err(refusal) => return refuse_motions(out, sink, refusal),
    };
    let answered = print_kept_place(&motions, place, column, out, sink);
    *kept = Some(motions);
    answered
}

// Answers with the refusal of motions.
fn refuse_motions<K: Sink>(
    out: &mut Buffered,
    sink: &mut K,
    refusal: MotionRefusal,
) -> Result<Outcome, Failed>
    requires { out.old ≡ [] }
    ensures { Says K.Sink sink out (motion_line refusal) (motion_outcome refusal) result }
{
    match refusal {
        MotionRefusal::Image(refusal) => refuse_image(out, sink, refusal),
        MotionRefusal::Far { module } => refuse_far(out, sink, module),
        MotionRefusal::Memory => refuse(out, sink, Refusal::Memory),
    }
}

// Answers with how far a picture reaches.
fn print_bounds<K: Sink>(
    out: &mut Buffered,
    sink: &mut K,
    bounds: Extents,
) -> Result<Outcome, Failed>
    requires { out.old ≡ [] }
    ensures { Says K.Sink sink out (spans_text (extents_of bounds)) Printed result }
{
    put_bounds(out, sink, bounds)?;
    finish(out, sink)?;
    Ok(Outcome::Printed)
}

// Puts the least and the greatest value of each measure.
fn put_bounds<K: Sink>(out: &mut Buffered, sink: &mut K, bounds: Extents) -> Result<(), Failed>
    ensures { Puts K.Sink sink out
        (spans_text (extents_of bounds)) result }
{
    out.put(sink, b"bounds ")?;
    put_span(out, sink, &bounds.low.x, &bounds.high.x)?;
    out.put(sink, b" ")?;
    put_span(out, sink, &bounds.low.y, &bounds.high.y)?;
    out.put(sink, b" ")?;
    put_span(out, sink, &bounds.low.z, &bounds.high.z)?;
    out.put(sink, b"\n")
}

// Puts two values, with a blank between them.
fn put_span<K: Sink>(
    out: &mut Buffered,
    sink: &mut K,
    low: &i128,
    high: &i128,
) -> Result<(), Failed>
    ensures { Puts K.Sink sink out (span_text low.now high.now) result }
{
    put_wide(out, sink, low)?;
    out.put(sink, b" ")?;
    put_wide(out, sink, high)
}

// Answers with the pose after so many symbols, or refuses the number, which stands at a column.
fn print_kept_place<K: Sink>(
    motions: &KeptMotions,
    place: u64,
    column: u32,
    out: &mut Buffered,
    sink: &mut K,
) -> Result<Outcome, Failed>
    requires { out.old ≡ [] }
    ensures { SaysPose K.Sink sink out column (told_by motions.now).poses place result }
{
    match motions {
        KeptMotions::Square(motions) => print_place(motions, place, column, out, sink),
        KeptMotions::Hexagonal(motions) => print_place(motions, place, column, out, sink),
        KeptMotions::Cubic(motions) => print_place(motions, place, column, out, sink),
    }
}

fn print_place<T: Lattice, K: Sink>(
    motions: &Motions<T>,
    place: u64,
    column: u32,
    out: &mut Buffered,
    sink: &mut K,
) -> Result<Outcome, Failed>
    requires { out.old ≡ [] }
    ensures { SaysPose K.Sink sink out column motions.now.poses place result }
{
    if place > u64::from(motions.len()) {
        return refuse_place(out, sink, column);
    }
    print_pose(out, sink, &motions.at(place as u32))
}

// Refuses a number that stands at a column.
fn refuse_place<K: Sink>(out: &mut Buffered, sink: &mut K, column: u32) -> Result<Outcome, Failed>
    requires { out.old ≡ [] }
    ensures { Says K.Sink sink out (pose_line column None) Refused result }
{
    put_no_place(out, sink, column)?;
    finish(out, sink)?;
    Ok(Outcome::Refused)
}

// Puts the refusal of a number that stands at a column.
fn put_no_place<K: Sink>(out: &mut Buffered, sink: &mut K, column: u32) -> Result<(), Failed>
    ensures { Puts K.Sink sink out (pose_line column None) result }
{
    out.put(sink, b"refused place ")?;
    put_unsigned(out, sink, column)?;
    out.put(sink, b"\n")
}

// Answers with a pose.
fn print_pose<T: Lattice, K: Sink>(
    out: &mut Buffered,
    sink: &mut K,
    pose: &Pose<T>,
) -> Result<Outcome, Failed>
    requires { out.old ≡ [] }
    ensures { Says K.Sink sink out (pose_text pose.now) Printed result }
{
    put_pose(out, sink, pose)?;
    finish(out, sink)?;
    Ok(Outcome::Printed)
}

// Puts the place, the heading and the width.
fn put_pose<T: Lattice, K: Sink>(
    out: &mut Buffered,
    sink: &mut K,
    pose: &Pose<T>,
) -> Result<(), Failed>
    ensures { Puts K.Sink sink out (pose_text pose.now) result }
{
    out.put(sink, b"at ")?;
    put_place(out, sink, &pose.place)?;
    out.put(sink, b" ")?;
    put_heading::<T, K>(out, sink, pose.frame)?;
    out.put(sink, b" ")?;
    put_unsigned(out, sink, pose.width)?;
    out.put(sink, b"\n")
}

// Puts the direction in which a turtle with this frame heads.
fn put_heading<T: Lattice, K: Sink>(
    out: &mut Buffered,
    sink: &mut K,
    frame: T::Frame,
) -> Result<(), Failed>
    ensures { Puts K.Sink sink out
        (place_text (T.frame_of frame).heading) result }
{
    let heading = T::heading(frame);
    put_place(out, sink, &heading)
}
