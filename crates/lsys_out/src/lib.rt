//! Pictures as texts: the segments that a turtle draws over the image of the last level, as a list and as SVG.
//!
//! The image is walked twice, once for its refusals and once for the text, and no memory is taken: all that is kept is the
//! turtle's stack, which its owner made.
#![tactic(auto)]

mod extent;
mod nesting;
mod numbers;
mod refusal;
mod segments;
mod survey;
mod svg;
mod tail;
mod way;

pub use nesting::image_nesting;
pub use numbers::{put_unsigned, put_wide};
pub use refusal::PictureRefusal;
pub use segments::{put_place, segments_text};
pub use svg::svg_text;
pub use way::TurtleWay;
