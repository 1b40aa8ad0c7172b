//! Levels as a view tells them: what stands at a spot, and what stands beside it.
#![tactic(auto)]

mod copy;
mod flat;
mod law;
mod mates;
mod place;
mod row;
mod sight;
mod spot;
mod tag;
mod view;

pub use copy::copy_level;
pub use flat::FlatLevels;
pub use law::law_of_tags;
pub use sight::Sight;
pub use spot::FlatSpot;
pub use tag::Tag;
pub use view::LevelView;
