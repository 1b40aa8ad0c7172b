//! Why there are no motions.

use lsys_hom::ImageRefusal;
use thiserror::Error;

/// Why there are no motions.
#[derive(Clone, Copy, PartialEq, Eq, Debug, Error)]
pub enum MotionRefusal {
    /// The last level has no image.
    #[error("{0}")]
    Image(ImageRefusal),
    /// A module of the image, by its number counted from 1 without the brackets, would lead to a
    /// coordinate past 1,000,000,000 in magnitude. It is the first one.
    #[error("too far at module {module} of the image")]
    Far { module: u32 },
    /// Out of memory.
    #[error("out of memory")]
    Memory,
}
