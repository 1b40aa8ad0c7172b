//! Why there is no text of a picture.

use lsys_hom::ImageRefusal;
use thiserror::Error;

/// Why there is no text of a picture.
#[derive(Clone, Copy, PartialEq, Eq, Debug, Error)]
pub enum PictureRefusal {
    /// The last level has no image.
    #[error("{0}")]
    Image(ImageRefusal),
    /// A module of the image, by its number counted from 1 without the brackets, would lead to a coordinate past
    /// 1,000,000,000 in magnitude. It is the first one.
    #[error("too far at module {module} of the image")]
    Far { module: u32 },
    /// The sink failed.
    #[error("the sink failed")]
    Failed,
}
