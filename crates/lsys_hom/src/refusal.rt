//! Why a level has no image.

use lsys_expr::Arith;
use thiserror::Error;

/// Why a level has no image. At one module a fault comes first.
#[derive(Clone, Copy, PartialEq, Eq, Debug, Error)]
pub enum ImageRefusal {
    /// A condition that is tried, or a parameter, has this fault at a module. Of these it is the leftmost; its number
    /// counts the level's modules from 1, without the brackets.
    #[error("{kind} at module {module} of the last level")]
    Arith { kind: Arith, module: u32 },
    /// The image would have more than 1,000,000 symbols.
    #[error("the image is over the limit")]
    Limit,
}
