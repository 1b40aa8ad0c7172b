//! What is to be known of a picture before its text begins.
ghost use Rattle.std.specs.Prelude.{◌≡◌, ◌<◌, ◌≤◌};
ghost use Rattle.lsys_syntax.specs.Limits.{most_image_symbols};
ghost use Rattle.lsys_turtle.specs.Ways.{IsReached, segment_of};
ghost use Rattle.lsys_out.specs.Boxes.{IsSurveyed, surveyed_with};
ghost use Rattle.lsys_out.specs.Drawings.{last_drawing};
ghost use Rattle.lsys_out.specs.Nesting.{HasLast, image_nesting};

use crate::extent::Extent;
use crate::refusal::PictureRefusal;
use crate::way::TurtleWay;
use lsys_lattice::Lattice;
use lsys_level::LevelView;
use lsys_rules::System;
use lsys_turtle::{Segment, Turtle};

/// How many segments a picture has, and the extent of the origin and their ends.
#[derive(Clone, Copy)]
pub(crate) struct Survey {
    pub(crate) count: u32,
    pub(crate) extent: Extent,
}

impl Survey {
    /// With a segment more.
    fn and<T: Lattice>(self, segment: &Segment) -> Survey
        requires reached { IsReached segment.now }
        requires few { self.count < most_image_symbols }
        ensures { result ≡ surveyed_with T.shape self (segment_of segment.now) }
    {
        Survey {
            count: self.count + 1,
            extent: self.extent.and_segment::<T>(segment),
        }
    }
}

/// Walks over the whole picture.
///
/// # Errors
///
/// Its refusal, which isn't `Failed`.
pub(crate) fn survey_picture<T: Lattice, W: LevelView>(
    view: &W,
    system: &System,
    turtle: &mut Turtle<T>,
) -> Result<Survey, PictureRefusal>
    requires last { HasLast system.now (W.levels view.now) }
    requires room { image_nesting system.now (W.levels view.now) ≤ turtle.old.room }
    ensures surveyed { IsSurveyed T.shape (last_drawing T.shape system.now (W.levels view.now)) result }
    ensures room { turtle.new.room ≡ turtle.old.room }
{
    let mut way = TurtleWay::new(view, system, turtle);
    let mut survey = Survey {
        count: 0,
        extent: Extent::start::<T>(),
    };
    while let Some(segment) = way.next(turtle)? {
        survey = survey.and::<T>(&segment);
    }
    Ok(survey)
}
