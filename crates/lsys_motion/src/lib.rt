//! Kept motions: how far a picture reaches, and where its turtle stands after so many symbols of
//! the image, told without walking over the image again.
//!
//! Motions are made of the forest of a derivation. Of each module above its last level they keep how
//! many symbols the part of the image has that comes of it, and where a turtle stands before that,
//! seen from where the part around it begins: so a part is the same from wherever it is walked.
#![tactic(auto)]

mod descent;
mod going;
mod keeper;
mod law;
mod mark;
mod motions;
mod piece;
mod pose;
mod refusal;
mod stand;
mod survey;

pub use law::{law_of_last_levels, law_of_told};
pub use motions::Motions;
pub use pose::Pose;
pub use refusal::MotionRefusal;
