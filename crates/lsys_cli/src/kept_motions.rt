//! The motions of the picture of the last level, which a desk keeps.
ghost use Rattle.std.specs.Prelude.{◌≡◌, None};
ghost use Rattle.lsys_lattice.specs.Wide.{extents_of};
ghost use Rattle.lsys_out.specs.Nesting.{HasLast};
ghost use Rattle.lsys_motion.specs.Told.{told};
ghost use Rattle.lsys_session.specs.Given.{IsWellUnder};
ghost use Rattle.lsys_cli.specs.Motions.{AreKept, IsTrackOf, leaves_picture, motions_after, told_by, told_in, AreMotionsOn};
ghost use Rattle.lsys_cli.specs.DeskCalls.{HasItsLevels};

use lsys_io::Failed;
use lsys_lattice::{Cubic, Extents, Hexagonal, Lattice, Square};
use lsys_match::Derivation;
use lsys_motion::{MotionRefusal, Motions};
use lsys_pass::ForestDerivation;
use lsys_reading::LatticeName;
use lsys_session::Outcome;
use std::alloc::Global;
use std::sync::ledger::Ledger;

/// A derivation from which the motions of its last level's picture are made.
pub trait HasMotions<L: Ledger>: Derivation<L> {
    /// The motions of the picture on the lattice `T`, which stands in place of the system's.
    ///
    /// # Errors
    ///
    /// The image's refusal; then the first module that would lead too far; or out of memory.
    fn motions<T: Lattice>(&self, alloc: Global) -> Result<Motions<T>, MotionRefusal>
        requires { HasLast (Self.system_of self.now) (Self.levels self.now) }
        ensures { AreMotionsOn T.shape (Self.system_of self.now) (Self.levels self.now) result };
}

impl<L: Ledger> HasMotions<L> for ForestDerivation<L> {
    fn motions<T: Lattice>(&self, alloc: Global) -> Result<Motions<T>, MotionRefusal> {
        Motions::new(alloc, self.forest(), self.system())
    }
}

/// The motions of a picture, on the lattice that its system names.
#[derive(Drop)]
pub(crate) enum KeptMotions {
    Square(Motions<Square>),
    Hexagonal(Motions<Hexagonal>),
    Cubic(Motions<Cubic>),
}

impl KeptMotions {
    /// How far the picture reaches.
    pub(crate) fn bounds(&self) -> Extents
        ensures { extents_of result ≡ (told_by self.now).bounds }
    {
        match self {
            KeptMotions::Square(motions) => motions.bounds(),
            KeptMotions::Hexagonal(motions) => motions.bounds(),
            KeptMotions::Cubic(motions) => motions.bounds(),
        }
    }
}

/// Takes the motions that are kept, or makes them.
///
/// # Errors
///
/// The picture's refusal, or out of memory.
pub(crate) fn take_motions<L: Ledger, D: HasMotions<L>>(
    alloc: Global,
    derivation: &D,
    kept: &mut Option<KeptMotions>,
) -> Result<KeptMotions, MotionRefusal>
    requires session { IsWellUnder (D.limit_of derivation.now) (D.system_of derivation.now) }
    requires kept { AreKept (D.limit_of derivation.now) (D.system_of derivation.now) kept.old }
    ensures told { IsTrackOf (D.limit_of derivation.now) (D.system_of derivation.now) (told_in result) }
    ensures none { kept.new ≡ None }
{
    match kept.take() {
        Some(motions) => Ok(motions),
        None => made_motions(alloc, derivation),
    }
}

/// Forgets the motions after a step that was answered so, unless the picture stays.
pub(crate) fn forget_motions(kept: &mut Option<KeptMotions>, led: Result<Outcome, Failed>)
    ensures { kept.new ≡ motions_after led kept.old }
{
    if !leaves_picture(led) {
        *kept = None;
    }
}

// Whether the picture stays after a step that was answered so.
fn leaves_picture(led: Result<Outcome, Failed>) -> bool
    ensures { result ≡ leaves_picture led }
{
    match led {
        Ok(outcome) => outcome != Outcome::Accepted,
        Err(Failed) => false,
    }
}

// The motions of the picture on its system's lattice.
fn made_motions<L: Ledger, D: HasMotions<L>>(
    alloc: Global,
    derivation: &D,
) -> Result<KeptMotions, MotionRefusal>
    requires { IsWellUnder (D.limit_of derivation.now) (D.system_of derivation.now) }
    ensures { IsTrackOf (D.limit_of derivation.now) (D.system_of derivation.now) (told_in result) }
{
    match derivation.system().lattice() {
        LatticeName::Square => Ok(KeptMotions::Square(motions_on(alloc, derivation)?)),
        LatticeName::Hexagonal => Ok(KeptMotions::Hexagonal(motions_on(alloc, derivation)?)),
        LatticeName::Cubic => Ok(KeptMotions::Cubic(motions_on(alloc, derivation)?)),
    }
}

// The motions of the picture on the lattice `T`, which is its system's.
fn motions_on<T: Lattice, L: Ledger, D: HasMotions<L>>(
    alloc: Global,
    derivation: &D,
) -> Result<Motions<T>, MotionRefusal>
    requires kept { IsWellUnder (D.limit_of derivation.now) (D.system_of derivation.now) }
    requires levels { HasItsLevels D.limit_of D.system_of D.levels derivation.now }
    requires lattice { T.shape ≡ (D.system_of derivation.now).lattice }
    ensures { IsTrackOf (D.limit_of derivation.now) (D.system_of derivation.now) result }
{
    derivation.motions(alloc)
}
