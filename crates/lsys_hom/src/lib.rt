//! The homomorphism: the image of a level, from which its picture is drawn (HD0L systems).
//!
//! An image is told one symbol at a time. It takes no memory, and is not rewritten again.
#![tactic(auto)]

mod choice;
mod image;
mod law;
mod look;
mod part;
mod refusal;
mod walk;

pub use image::Image;
pub use law::law_of_images;
pub use look::Glance;
pub use part::Part;
pub use refusal::ImageRefusal;
pub use walk::{Walk, part_of};
